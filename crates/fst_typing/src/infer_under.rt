// The plain derivations of terms that bind variables.

ghost use Rattle.std.specs.Prelude.{◌∷◌, [], IfOk, IfErr, List};
ghost use Rattle.fst_terms.specs.CoreTree.{lambda, let_in, split};
ghost use Rattle.fst_context.specs.Scope.{Variable};
ghost use Rattle.fst_derivations.specs.Deriv.{deriv_of};
ghost use Rattle.fst_derivations.specs.Parts.{AreVariables, IsFormed, enter_all};
ghost use Rattle.fst_typing.specs.Typed.{IsTyped, IsTypedUnder};
ghost use Rattle.fst_premises.specs.Checks.{IsInSize};
ghost use Rattle.fst_premises.specs.Shown.{IsShown};
ghost use Rattle.fst_typing.specs.Shown.{NoMore, Shows, Under, IsRefused};
ghost use Rattle.fst_premises.specs.Scenes.{check_in, IsReady, IsSetUp};

use crate::infer::infer;
use fst_context::Context;
use fst_derivations::Derivation;
use fst_premises::{
    CheckFault, Scene, begin_function, end_body, enter, function_row, leave, leave_two, pair_parts,
    place_of, sequence, type_at,
};
use fst_terms::{Binder, Term};
use fst_types::{Ty, Use, copy};
use std::alloc::Global;

/// The derivation of a term under one more variable.
#[cycle(infer)]
pub(crate) fn infer_under(
    alloc: Global,
    scene: Scene<'_>,
    context: &mut Context,
    binder: &Binder,
    t: Ty,
    body: &Term,
) -> Result<Derivation, CheckFault>
    requires set_up { IsSetUp (check_in scene) }
    requires formed { IsFormed scene.vars.now t }
    requires small { IsInSize t }
    requires ready { (vs : List Variable) → AreVariables scene.vars.now (t ∷ []) vs →
        IsReady (check_in scene) body.now (enter_all vs context.old.variables) }
    ensures typed { IfOk result (λ d. IsTypedUnder (check_in scene.entry) (binder.now ∷ [])
        (t ∷ []) context.old context.new body.now (deriv_of d)) }
    ensures refused { IfErr result (λ f. IsShown f
        (Under (check_in scene.entry) (binder.now ∷ []) (t ∷ []) body.now context.old
        (λ z. Shows (check_in scene.entry) body.now z f) NoMore f)) }
{
    enter(alloc, scene, context, binder, t)?;
    let d = infer(alloc, scene, context, body)?;
    leave(alloc, context, binder)?;
    Ok(d)
}

/// The derivation of a term under two more variables.
#[cycle(infer)]
fn infer_under_two(
    alloc: Global,
    scene: Scene<'_>,
    context: &mut Context,
    left: &Binder,
    s: Ty,
    right: &Binder,
    t: Ty,
    body: &Term,
) -> Result<Derivation, CheckFault>
    requires set_up { IsSetUp (check_in scene) }
    requires left_formed { IsFormed scene.vars.now s }
    requires right_formed { IsFormed scene.vars.now t }
    requires left_small { IsInSize s }
    requires right_small { IsInSize t }
    requires ready { (vs : List Variable) → AreVariables scene.vars.now (s ∷ t ∷ []) vs →
        IsReady (check_in scene) body.now (enter_all vs context.old.variables) }
    ensures typed { IfOk result (λ d. IsTypedUnder (check_in scene.entry)
        (left.now ∷ right.now ∷ []) (s ∷ t ∷ []) context.old context.new body.now (deriv_of d)) }
    ensures refused { IfErr result (λ f. IsShown f
        (Under (check_in scene.entry) (left.now ∷ right.now ∷ []) (s ∷ t ∷ []) body.now context.old
        (λ z. Shows (check_in scene.entry) body.now z f) NoMore f)) }
{
    enter(alloc, scene, context, left, s)?;
    enter(alloc, scene, context, right, t)?;
    let d = infer(alloc, scene, context, body)?;
    leave_two(alloc, context, left, right)?;
    Ok(d)
}

/// The derivation of a function.
#[cycle(infer)]
pub(crate) fn infer_function(
    alloc: Global,
    scene: Scene<'_>,
    context: &mut Context,
    at: u32,
    uses: Use,
    k: u32,
    binder: &Binder,
    body: &Term,
) -> Result<Derivation, CheckFault>
    requires set_up { IsSetUp (check_in scene) }
    requires ready { IsReady (check_in scene)
        (lambda at uses k binder.now body.now) context.old.variables }
    ensures typed { IfOk result (λ d. IsTyped (check_in scene.entry) context.old context.new
        (lambda at uses k binder.now body.now) (deriv_of d)) }
    ensures refused { IfErr result (λ f. IsRefused (check_in scene.entry)
        (lambda at uses k binder.now body.now) context.old f) }
{
    let from = begin_function(alloc, scene, context, uses, k, binder)?;
    let d = infer_under(alloc, scene, context, binder, from, body)?;
    end_body(context, uses);
    function_row(alloc, at, uses, type_at(scene, k), d)
}

/// The derivation of a term with a name for its first part.
#[cycle(infer)]
pub(crate) fn infer_let(
    alloc: Global,
    scene: Scene<'_>,
    context: &mut Context,
    at: u32,
    binder: &Binder,
    first: &Term,
    second: &Term,
) -> Result<Derivation, CheckFault>
    requires set_up { IsSetUp (check_in scene) }
    requires ready { IsReady (check_in scene)
        (let_in at binder.now first.now second.now) context.old.variables }
    ensures typed { IfOk result (λ d. IsTyped (check_in scene.entry) context.old context.new
        (let_in at binder.now first.now second.now) (deriv_of d)) }
    ensures refused { IfErr result (λ f. IsRefused (check_in scene.entry)
        (let_in at binder.now first.now second.now) context.old f) }
{
    let d = infer(alloc, scene, context, first)?;
    let t = copy(alloc, d.type_of())?;
    let h = infer_under(alloc, scene, context, binder, t, second)?;
    Ok(sequence(alloc, d, h)?)
}

/// The derivation of a term with names for both parts of a pair.
#[cycle(infer)]
pub(crate) fn infer_split(
    alloc: Global,
    scene: Scene<'_>,
    context: &mut Context,
    at: u32,
    left: &Binder,
    right: &Binder,
    first: &Term,
    second: &Term,
) -> Result<Derivation, CheckFault>
    requires set_up { IsSetUp (check_in scene) }
    requires ready { IsReady (check_in scene)
        (split at left.now right.now first.now second.now) context.old.variables }
    ensures typed { IfOk result (λ d. IsTyped (check_in scene.entry) context.old context.new
        (split at left.now right.now first.now second.now) (deriv_of d)) }
    ensures refused { IfErr result (λ f. IsRefused (check_in scene.entry)
        (split at left.now right.now first.now second.now) context.old f) }
{
    let d = infer(alloc, scene, context, first)?;
    let parts = pair_parts(alloc, place_of(first), d.type_of())?;
    let h = infer_under_two(alloc, scene, context, left, parts.0, right, parts.1, second)?;
    Ok(sequence(alloc, d, h)?)
}
