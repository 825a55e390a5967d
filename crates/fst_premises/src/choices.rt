// Which arms a `case` and a `match` have to have.

ghost use Rattle.std.specs.Prelude.{◌≡◌, ◌↔◌, ℕ, [], List, IfErr, IfNone, IfOk, IfSome, IsTrue, OnOk, Some, map, slice_get};
ghost use Rattle.fst_types.specs.Tree.{named};
ghost use Rattle.fst_types.specs.declared.family.Family.{Family};
ghost use Rattle.fst_types.specs.declared.label.Label.TheVariants as label;
ghost use Rattle.fst_terms.specs.ModelCoreView.{core_arms_of};
ghost use Rattle.fst_arms.specs.Arms.{arm_labels, AreEachOnce};
ghost use Rattle.fst_derivations.specs.Parts.{IsOffering};
ghost use Rattle.fst_premises.specs.Shown.{ShowsNoCase, ShowsNoMatch, IsShown};
ghost use Rattle.fst_premises.specs.Scenes.{IsCase};

use crate::fault::CheckFault;
use crate::scene::Scene;
use fst_arms::{are_labels, maker_numbers};
use fst_lts::labels;
use fst_terms::Arm;
use fst_types::{Label, Maker, Move, Ty, TyForm, copy};
use std::alloc::{AllocError, Global};

/// The constructors of a data type, and for each arm the number of its own.
#[derive(Drop)]
pub struct Constructors<'a> {
    pub makers: &'a [Maker],
    pub numbers: Vec<u32>,
}

/// The constructors of the data type with this number, if there is one and these are its arms.
fn makers_in<'a>(
    alloc: Global,
    scene: Scene<'a>,
    family: u32,
    arms: &[Arm],
) -> Result<Option<Constructors<'a>>, AllocError>
    ensures found { IfOk result (λ found. IfSome found
        (λ o. IsCase scene.entry.module.now.families.items (named family) arms.now o)) }
    ensures none { IfOk result (λ found. IfNone found
        ((g : Family) → slice_get scene.entry.module.now.families.items family ≡ Some g →
        AreEachOnce (map (λ o. o.name) g.makers.items) (arm_labels (core_arms_of arms.now)) → ⊥)) }
{
    let number = family as usize;
    if scene.module.families.len() <= number {
        return Ok(None);
    }
    let makers: &'a [Maker] = &scene.module.families[number].makers;
    if u32::MAX as usize <= makers.len() {
        return Err(AllocError);
    }
    match maker_numbers(alloc, makers, arms)? {
        Some(numbers) => Ok(Some(Constructors { makers, numbers })),
        None => Ok(None),
    }
}

/// The constructors of a data type, if these are its arms.
fn found_makers<'a>(
    alloc: Global,
    scene: Scene<'a>,
    t: &Ty,
    arms: &[Arm],
) -> Result<Option<Constructors<'a>>, AllocError>
    ensures found { IfOk result (λ found. IfSome found
        (λ o. IsCase scene.entry.module.now.families.items t.now arms.now o)) }
    ensures none { IfOk result (λ found. IfNone found
        ((n : ℕ) (g : Family) → t.now ≡ named n →
        slice_get scene.entry.module.now.families.items n ≡ Some g →
        AreEachOnce (map (λ o. o.name) g.makers.items) (arm_labels (core_arms_of arms.now)) → ⊥)) }
{
    match &t.form {
        TyForm::Named(family) => makers_in(alloc, scene, *family, arms),
        _ => Ok(None),
    }
}

/// The constructors of the data type that a `case` looks at, if these are its arms.
pub fn case_constructors<'a>(
    alloc: Global,
    scene: Scene<'a>,
    at: u32,
    t: &Ty,
    arms: &[Arm],
) -> Result<Constructors<'a>, CheckFault>
    ensures found { IfOk result (λ o. IsCase scene.entry.module.now.families.items t.now arms.now
        o) }
    ensures refused { IfErr result (λ f. IsShown f
        (ShowsNoCase scene.entry.module.now.families.items at t.now
        (arm_labels (core_arms_of arms.now)) f)) }
{
    match found_makers(alloc, scene, t, arms)? {
        Some(found) => Ok(found),
        None => Err(CheckFault::Arms(at, copy(alloc, t)?)),
    }
}

/// Whether these are the labels of an offered choice.
fn are_offered(labels: &[Label]) -> bool
    ensures { IsTrue result ↔ ((names : List (List ℕ)) × (labels.now ≡ map label.Offer names) ×
        (names ≡ [] → ⊥)) }
{
    if labels.is_empty() {
        return false;
    }
    for label in labels {
        if !is_offer(label) {
            return false;
        }
    }
    true
}

/// Whether the label is an offered branch.
fn is_offer(a: &Label) -> bool
    ensures { IsTrue result ↔ ((x : List ℕ) × (a.now ≡ label.Offer x)) }
{
    match a {
        Label::Offer(_name) => true,
        Label::Send(_payload) => false,
        Label::Receive(_payload) => false,
        Label::Select(_name) => false,
        Label::Close => false,
        Label::Wait => false,
        Label::Var(_variable) => false,
    }
}

/// That a `match` on an end of this type has its arms.
pub fn match_labels(alloc: Global, at: u32, t: &Ty, arms: &[Arm]) -> Result<(), CheckFault>
    ensures offered { OnOk result ((ls : List (List ℕ)) × IsOffering t.now ls ×
        AreEachOnce ls (arm_labels (core_arms_of arms.now))) }
    ensures refused { IfErr result (λ f. IsShown f
        (ShowsNoMatch at t.now (arm_labels (core_arms_of arms.now)) f)) }
{
    let found = labels(alloc, t)?;
    if !are_offered(&found) {
        return Err(CheckFault::NoSuchMove(at, copy(alloc, t)?, Move::Offer));
    }
    if !are_labels(alloc, &found, arms)? {
        return Err(CheckFault::Arms(at, copy(alloc, t)?));
    }
    Ok(())
}
