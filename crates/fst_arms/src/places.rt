ghost use Rattle.std.specs.Prelude.{◌≡◌, ◌↔◌, ℕ, List, IfOk, IsTrue, MatchOption, OnOk, map, if◌then◌else◌};
ghost use Rattle.std.specs.Str.{bytes_eq};
ghost use Rattle.fst_terms.specs.ModelCoreView.{core_arms_of};
ghost use Rattle.fst_arms.specs.Arms.{AreEachOnce, arm_labels};
ghost use Rattle.fst_arms.specs.Places.{ArePlaces, found};

use fst_terms::Arm;
use fst_types::{Label, Maker, Name};
use indexmap::IndexMap;
use std::alloc::{AllocError, Global};

/// Names, each with the place at which it stands first.
pub(crate) type Places = IndexMap<Vec<u8>, usize>;

// Gives a name this place, whether it had another one or none.
fn put(alloc: Global, places: &mut Places, name: &Name, n: usize) -> Result<(), AllocError>
    ensures { OnOk result ((x : List ℕ) →
        found places.new.entries x ≡ (if bytes_eq x name.now then Some n else found
        places.old.entries x)) }
{
    let key = Vec::from_slice(alloc, name.as_slice())?;
    places.insert(key, n)?;
    Ok(())
}

/// The places of the names of constructors, which are put from the last to the first, so that the first one with a name
/// stays.
pub(crate) fn maker_places(alloc: Global, makers: &[Maker]) -> Result<Places, AllocError>
    ensures { IfOk result (λ places. ArePlaces (map (λ o. o.name) makers.now) places.entries) }
{
    let mut places = IndexMap::new(alloc);
    for n in (0..makers.len()).rev() {
        put(alloc, &mut places, &makers[n].name, n)?;
    }
    Ok(places)
}

// The name in the label of an offered choice.
fn offered(label: &Label) -> Option<&Name>
    ensures { MatchOption result
        ((l : List ℕ) → label.now ≡ Label.Offer l → ⊥)
        (λ name. label.now ≡ Label.Offer name.now) }
{
    match label {
        Label::Send(_) => None,
        Label::Receive(_) => None,
        Label::Select(_) => None,
        Label::Offer(name) => Some(name),
        Label::Close => None,
        Label::Wait => None,
        Label::Var(_) => None,
    }
}

/// The places of the names in the labels of an offered choice, put in the same order, and nothing where one of the labels
/// is another.
pub(crate) fn label_places(alloc: Global, labels: &[Label]) -> Result<Option<Places>, AllocError>
    ensures { IfOk result (λ found. MatchOption found
        ((names : List (List ℕ)) → labels.now ≡ map Label.Offer names → ⊥)
        (λ places. (names : List (List ℕ)) ×
        (labels.now ≡ map Label.Offer names) × ArePlaces names places.entries)) }
{
    let mut places = IndexMap::new(alloc);
    for n in (0..labels.len()).rev() {
        match offered(&labels[n]) {
            Some(name) => put(alloc, &mut places, name, n)?,
            None => return Ok(None),
        }
    }
    Ok(Some(places))
}

/// Whether the labels of the arms are these names, each once.
pub(crate) fn are_each_once(mut places: Places, arms: &[Arm]) -> bool
    ensures { (names : List (List ℕ)) → ArePlaces names places.entries →
        (IsTrue result ↔ AreEachOnce names (arm_labels (core_arms_of arms.now))) }
{
    for arm in arms {
        if places.swap_remove(arm.label.as_slice()).is_none() {
            return false;
        }
    }
    places.is_empty()
}
