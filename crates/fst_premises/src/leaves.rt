// Plain values, variables, uses of globals and new channels.

ghost use Rattle.std.specs.Prelude.{◌≡◌, ◌<◌, ◌≤◌, IfOk, IfErr, length, slice_get, Some};
ghost use Rattle.fst_types.specs.Tree.{Tree, plain};
ghost use Rattle.fst_kinds.specs.WellFormed.{IsWellFormed, IsInstantiation};
ghost use Rattle.fst_terms.specs.CoreTree.{local, global, new};
ghost use Rattle.fst_derivations.specs.Deriv.{deriv_of, none, row};
ghost use Rattle.fst_derivations.specs.Parts.{AreAt};
ghost use Rattle.fst_derivations.specs.Modules.{IsFormedAt, AreStandingFormed, all_open};
ghost use Rattle.fst_premises.specs.Shown.{ShowsArguments, ShowsNew, ShowsUse, ShowsVariable, IsShown};
ghost use Rattle.fst_premises.specs.Checks.{IsTypedAlone};
ghost use Rattle.fst_premises.specs.Scenes.{check_in, IsReady, IsSetUp};

use crate::builders::{base, pair_of};
use crate::fault::CheckFault;
use crate::scene::{Scene, place_at, type_at};
use fst_base::MOST_NODES;
use fst_context::{Context, Taken};
use fst_derivations::Derivation;
use fst_kinds::{KindFault, instances_keep_kinds, kind_of, subkind};
use fst_lts::dual;
use fst_types::{Base, Kind, Prekind, Ty, Use, copy, instance_size, instantiate};
use std::alloc::{AllocError, Global};

/// A plain value of a base type.
pub fn plain_value(alloc: Global, of: Base) -> Derivation
    ensures { deriv_of result ≡ row (plain of) none }
{
    Derivation::leaf(alloc, base(of))
}

/// A variable, which is taken out of the context if it is linear.
pub fn variable(
    alloc: Global,
    scene: Scene<'_>,
    context: &mut Context,
    at: u32,
    k: u32,
) -> Result<Derivation, CheckFault>
    requires { IsReady (check_in scene) (local at k) context.old.variables }
    ensures typed { IfOk result (λ d. IsTypedAlone (check_in scene.entry) context.old context.new
        (local at k) (deriv_of d)) }
    ensures refused { IfErr result (λ f. IsShown f (ShowsVariable at k context.old f)) }
{
    match context.take(k) {
        Taken::Here => Ok(Derivation::leaf(alloc, copy(alloc, context.type_of(k))?)),
        Taken::Gone => Err(CheckFault::UsedTwice(at, context.name(k).copy(alloc)?)),
        Taken::Outside => Err(CheckFault::CapturedLinear(at, context.name(k).copy(alloc)?)),
    }
}

/// The kind of a type of the module that is well formed over some variables.
fn written_kind(alloc: Global, scene: Scene<'_>, vars: &[Kind], k: u32) -> Result<Kind, AllocError>
    requires { IsFormedAt scene.module.now.types.items vars.now k }
    ensures { IfOk result (λ kind. (t : Tree) ×
        (slice_get scene.entry.module.now.types.items k ≡ Some t) × IsWellFormed vars.now t kind) }
{
    match kind_of(alloc, type_at(scene, k), vars) {
        Ok(kind) => Ok(kind),
        Err(_fault) => Err(AllocError),
    }
}

/// The type arguments of a use, each of a kind below that of its variable.
fn arguments(
    alloc: Global,
    scene: Scene<'_>,
    ks: &[u32],
    kinds: &[Kind],
) -> Result<Vec<Ty>, CheckFault>
    requires long { length ks.now ≡ length kinds.now }
    requires formed { AreStandingFormed scene.module.now.types.items scene.vars.now
        (all_open ks.now) }
    ensures there { IfOk result (λ args.
        AreAt scene.entry.module.now.types.items ks.now args.items) }
    ensures below { IfOk result (λ args.
        IsInstantiation scene.entry.vars.now kinds.now args.items) }
    ensures refused { IfErr result (λ f. IsShown f
        (ShowsArguments (check_in scene.entry) ks.now kinds.now f)) }
{
    let mut args = Vec::new(alloc);
    for i in 0..ks.len() {
        let kind = written_kind(alloc, scene, scene.vars, ks[i])?;
        if !subkind(kind, kinds[i]) {
            let at = place_at(scene, ks[i]);
            return Err(CheckFault::KindOfArgument(at, kind, kinds[i]));
        }
        args.push(copy(alloc, type_at(scene, ks[i]))?)?;
    }
    Ok(args)
}

/// A use of a global, whose signature is instantiated.
pub fn global_use(
    alloc: Global,
    scene: Scene<'_>,
    context: &Context,
    at: u32,
    k: u32,
    ks: &[u32],
) -> Result<Derivation, CheckFault>
    requires set_up { IsSetUp (check_in scene) }
    requires ready { IsReady (check_in scene) (global at k ks.now) context.now.variables }
    ensures typed { IfOk result (λ d. IsTypedAlone (check_in scene.entry) context.now context.now
        (global at k ks.now) (deriv_of d)) }
    ensures refused { IfErr result (λ f. IsShown f
        (ShowsUse (check_in scene.entry) at k ks.now f)) }
{
    let entry = &scene.module.globals[k as usize];
    let wanted = entry.kinds.len();
    if ks.len() != wanted {
        return Err(CheckFault::TypeArguments(at, ks.len() as u64, wanted as u64));
    }
    let args = arguments(alloc, scene, ks, &entry.kinds)?;
    let signature = type_at(scene, entry.signature);
    instances_keep_kinds();
    if instance_size(signature, &args) > MOST_NODES {
        return Err(CheckFault::TooLarge(at));
    }
    Ok(Derivation::leaf(alloc, instantiate(alloc, signature, &args)?))
}

/// The two ends of a new channel.
pub fn new_channel(
    alloc: Global,
    scene: Scene<'_>,
    context: &Context,
    at: u32,
    k: u32,
) -> Result<Derivation, CheckFault>
    requires { IsReady (check_in scene) (new at k) context.now.variables }
    ensures typed { IfOk result (λ d. IsTypedAlone (check_in scene.entry) context.now context.now
        (new at k) (deriv_of d)) }
    ensures refused { IfErr result (λ f. IsShown f (ShowsNew (check_in scene.entry) at k f)) }
{
    let kind = written_kind(alloc, scene, &[], k)?;
    let once = Kind {
        prekind: Prekind::Session,
        uses: Use::Once,
    };
    if !subkind(kind, once) {
        let fault = KindFault::WrongKind(kind, once);
        return Err(CheckFault::Kinds(place_at(scene, k), fault));
    }
    let left = type_at(scene, k);
    let right = dual(alloc, left)?;
    Ok(Derivation::leaf(alloc, pair_of(alloc, at, left, &right)?))
}
