ghost use Rattle.std.specs.Prelude.{◌≡◌, ◌↔◌, ◌<◌, ◌^◌, ℕ, List, IfOk, IfSome, IsSome, IsTrue, length, map};
ghost use Rattle.fst_terms.specs.ModelCoreView.{core_arms_of};
ghost use Rattle.fst_arms.specs.Arms.{AreEachOnce, AreMakerNumbers, arm_labels};

use crate::places::{are_each_once, label_places, maker_places};
use fst_terms::Arm;
use fst_types::{Label, Maker};
use std::alloc::{AllocError, Global};

/// The number of each arm's constructor among these, where the labels of the arms are the names of these constructors,
/// each once, and nothing where they aren't.
pub fn maker_numbers(
    alloc: Global,
    makers: &[Maker],
    arms: &[Arm],
) -> Result<Option<Vec<u32>>, AllocError>
    requires { length makers.now < 2 ^ 32 }
    ensures each_once { IfOk result (λ found. IsSome found ↔
        AreEachOnce (map (λ o. o.name) makers.now) (arm_labels (core_arms_of arms.now))) }
    ensures numbers { IfOk result (λ found.
        IfSome found (λ numbers. AreMakerNumbers makers.now arms.now numbers.items)) }
{
    let places = maker_places(alloc, makers)?;
    let mut numbers = Vec::new(alloc);
    for arm in arms {
        match places.get(arm.label.as_slice()) {
            Some(n) => numbers.push(*n as u32)?,
            None => return Ok(None),
        }
    }
    if are_each_once(places, arms) {
        Ok(Some(numbers))
    } else {
        Ok(None)
    }
}

/// Whether these are the labels of an offered choice, and the labels of the arms are theirs, each once.
pub fn are_labels(alloc: Global, labels: &[Label], arms: &[Arm]) -> Result<bool, AllocError>
    ensures each_once { IfOk result (λ are. (names : List (List ℕ)) →
        labels.now ≡ map Label.Offer names →
        (IsTrue are ↔ AreEachOnce names (arm_labels (core_arms_of arms.now)))) }
    ensures offered { IfOk result (λ are. IsTrue are →
        (names : List (List ℕ)) × (labels.now ≡ map Label.Offer names)) }
{
    match label_places(alloc, labels)? {
        Some(places) => Ok(are_each_once(places, arms)),
        None => Ok(false),
    }
}
