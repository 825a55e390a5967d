ghost use Rattle.std.specs.Prelude.{◌≡◌, ◌<◌, ◌≤◌, ℕ, IfErr, OnOk, slice_get, Some, length};
ghost use Rattle.fst_base.specs.Limits.{most_nodes};
ghost use Rattle.fst_types.specs.Size.{nodes};
ghost use Rattle.fst_types.specs.declared.family.Maker.{Maker};
ghost use Rattle.fst_terms.specs.InRange.{HasFields, maker_of};
ghost use Rattle.fst_premises.specs.Shown.{IsTooLargeAt, place};

use crate::fault::CheckFault;
use fst_base::MOST_NODES;
use fst_terms::{Module, Term};
use fst_types::{Kind, Ty, size};

/// What a term is checked with: its module, the kinds of the variables of its equation's signature, and the budget of a
/// question.
#[derive(Clone, Copy)]
pub struct Scene<'a> {
    pub module: &'a Module,
    pub vars: &'a [Kind],
    pub budget: u32,
}

/// The k-th type of the module.
pub fn type_at<'a>(scene: Scene<'a>, k: u32) -> &'a Ty
    requires { k < length scene.module.now.types.items }
    ensures { slice_get scene.entry.module.now.types.items k ≡ Some result.now }
{
    &scene.module.types[k as usize]
}

/// Where the k-th type of the module is written.
pub(crate) fn place_at(scene: Scene<'_>, k: u32) -> u32
    requires { k < length scene.module.now.types.items }
    ensures { slice_get scene.entry.module.now.places.items k ≡ Some result }
{
    scene.module.places[k as usize]
}

/// That a type isn't over its size.
pub(crate) fn fits(at: u32, t: &Ty) -> Result<(), CheckFault>
    ensures fits { OnOk result (nodes t.now ≤ most_nodes) }
    ensures refused { IfErr result (λ f. IsTooLargeAt at t.now f) }
{
    if size(t) > MOST_NODES {
        return Err(CheckFault::TooLarge(at));
    }
    Ok(())
}

/// The byte at which a term's first token begins.
#[tactic(auto, using(crate::proofs::Places::place_of_core))]
pub fn place_of(term: &Term) -> u32
    ensures { result ≡ place term.now }
{
    term.at
}

/// The numbers of the types of a constructor's fields.
pub fn fields_of<'a>(scene: Scene<'a>, family: u32, maker: u32) -> &'a [u32]
    requires { (n : ℕ) × HasFields (maker_of
        (slice_get scene.module.now.families.items family) maker) n }
    ensures { (o : Maker) × (maker_of (slice_get scene.entry.module.now.families.items family)
        maker ≡ Some o) × (result.now ≡ o.fields.items) }
{
    &scene.module.families[family as usize].makers[maker as usize].fields
}
