// Which arms are wanted.

ghost use Rattle.std.specs.Prelude.{◌≡◌, [], IfOk, IsFalse, IsTrue, map};
ghost use Rattle.fst_terms.specs.ModelCoreView.{core_arms_of};
ghost use Rattle.fst_arms.specs.Arms.{arm_labels};
ghost use Rattle.fst_lts.specs.Step.{labels};
ghost use Rattle.fst_fits.specs.ArmTests.{each_once, offers};

use fst_arms::{are_labels, maker_numbers};
use fst_lts::labels;
use fst_terms::Arm;
use fst_types::{Label, Maker, Ty};
use std::alloc::{AllocError, Global};

/// Whether the labels of arms are the names of these constructors, each once.
pub fn makers_fit(alloc: Global, makers: &[Maker], arms: &[Arm]) -> Result<bool, AllocError>
    ensures { IfOk result (λ b. b ≡ each_once (map (λ o. o.name) makers.now) (arm_labels
        (core_arms_of arms.now))) }
{
    if u32::MAX as usize <= makers.len() {
        return Err(AllocError);
    }
    let numbers = maker_numbers(alloc, makers, arms)?;
    Ok(numbers.is_some())
}

// Whether there are labels.
fn has_any(labels: &[Label]) -> bool
    ensures some { IsTrue result → labels.now ≡ [] → ⊥ }
    ensures none { IsFalse result → labels.now ≡ [] }
{
    match labels.split_first() {
        None => false,
        Some(_) => true,
    }
}

/// Whether a type offers the labels of arms, each once, and no others.
pub fn labels_fit(alloc: Global, ty: &Ty, arms: &[Arm]) -> Result<bool, AllocError>
    ensures { IfOk result (λ b. b ≡ offers (labels ty.now) (arm_labels (core_arms_of arms.now))) }
{
    let moves = labels(alloc, ty)?;
    if !has_any(&moves) {
        return Ok(false);
    }
    let fits = are_labels(alloc, &moves, arms)?;
    Ok(fits)
}
