ghost use Rattle.std.specs.Prelude.{◌≡◌, ◌≤◌, ◌<◌, ◌^◌, ℕ, Bool, List, IfOk, OnOk, Some, length, map, slice_get};
ghost use Rattle.fst_types.specs.declared.family.Family.{Family};
ghost use Rattle.fst_terms.specs.ModelCoreView.{core_arms_of};
ghost use Rattle.fst_arms.specs.Arms.{AreEachOnce, arm_labels};
ghost use Rattle.fst_machine.specs.Code.{also};
ghost use Rattle.fst_code.specs.Arms.{AllDeep, AllForget, AllWithin, AreAtMost, ArePlacesOf, marks_of, put_at, table_of};
ghost use Rattle.fst_code.specs.Makers.{found};
ghost use Rattle.fst_code.specs.Marks.{marked};
ghost use Rattle.fst_code.specs.Written.{Extends, compiled};

use crate::built::Built;
use crate::codes::ArmCode;
use crate::given::Given;
use crate::makers::MakerPlace;
use crate::marks::mark_all;
use crate::pieces::forget;
use fst_terms::Arm;
use fst_types::Name;
use std::alloc::{AllocError, Global};

// What belongs to the arms of a `case` or a `match` besides their code: which variables they use, where they start, and the
// tables of these places.

/// Marks all variables that are marked in an arm.
pub(crate) fn mark_arms(later: &mut Vec<bool>, codes: &[ArmCode])
    requires { AllDeep (length later.old.items) codes.now }
    ensures marks { marked later.new.items ≡ also (marks_of codes.now) (marked later.old.items) }
    ensures deep { length later.new.items ≡ length later.old.items }
{
    for i in (0..codes.len()).rev() {
        mark_all(later, &codes[i].marks);
    }
}

/// Writes what stands in front of the arms, where one of them doesn't use what others do: the places where they start.
pub(crate) fn write_starts(
    alloc: Global,
    out: &mut Built,
    all: &[bool],
    codes: &[ArmCode],
) -> Result<Vec<u64>, AllocError>
    requires deep { AllDeep (length all.now) codes.now }
    requires within { AllWithin (length out.old.code.items) codes.now }
    requires few { length all.now < 2 ^ 32 }
    ensures more { OnOk result ((fs : List Family) →
        Extends (compiled fs out.old) (compiled fs out.new)) }
    ensures entries { OnOk result (out.new.lambdas.items ≡ out.old.lambdas.items) }
    ensures starts { IfOk result (λ is. (fs : List Family) (q p : ℕ → Bool) →
        marked all.now ≡ also q p →
        AllForget (compiled fs out.new) q p codes.now is.items) }
    ensures within { IfOk result (λ is. AreAtMost (length out.new.code.items) is.items) }
{
    let mut starts = Vec::new(alloc);
    for code in codes {
        starts.push(forget(alloc, out, all, &code.marks, code.start)?)?;
    }
    Ok(starts)
}

/// The labels of arms, each with the place where its arm starts.
pub(crate) fn match_places(
    alloc: Global,
    arms: &[Arm],
    starts: &[u64],
) -> Result<Vec<(Name, u64)>, AllocError>
    requires { length starts.now ≡ length arms.now }
    ensures { IfOk result (λ ps. ps.items ≡ table_of arms.now starts.now) }
{
    let mut places = Vec::new(alloc);
    for (i, arm) in arms.iter().enumerate() {
        places.push((arm.label.copy(alloc)?, starts[i]))?;
    }
    Ok(places)
}

// Where the constructor of an arm stands.
fn maker_place(given: &Given<'_>, arm: &Arm) -> Option<MakerPlace>
    ensures { result ≡ found given.now.makers.now.entries arm.now.label }
{
    match given.makers.get(arm.label.as_slice()) {
        Some(place) => Some(*place),
        None => None,
    }
}

// How many constructors the data type of the arms has.
fn maker_count(given: &Given<'_>, arms: &[Arm]) -> usize
    ensures { (n : ℕ) (f : Family) → slice_get given.now.families.now n ≡ Some f →
        AreEachOnce (map (λ o. o.name) f.makers.items) (arm_labels (core_arms_of arms.now)) →
        result ≡ length f.makers.items }
{
    if arms.is_empty() {
        return 0;
    }
    match maker_place(given, &arms[0]) {
        Some(place) => place.count,
        None => 0,
    }
}

// So many places, which are to be given.
fn no_places(alloc: Global, count: usize) -> Result<Vec<u64>, AllocError>
    ensures long { IfOk result (λ ps. length ps.items ≡ count) }
    ensures low { IfOk result (λ ps. (j : ℕ) → AreAtMost j ps.items) }
{
    let mut places = Vec::new(alloc);
    for _i in 0..count {
        places.push(0)?;
    }
    Ok(places)
}

// Gives an arm's constructor its place.
fn put_place(given: &Given<'_>, places: &mut Vec<u64>, arm: &Arm, start: u64)
    ensures { places.new.items ≡
        put_at (found given.now.makers.now.entries arm.now.label) start places.old.items }
{
    if let Some(place) = maker_place(given, arm) {
        if place.maker < places.len() {
            places[place.maker] = start;
        }
    }
}

/// The places where the arms start, by the numbers of their constructors.
pub(crate) fn case_places(
    given: &Given<'_>,
    arms: &[Arm],
    starts: &[u64],
) -> Result<Vec<u64>, AllocError>
    requires { length starts.now ≡ length arms.now }
    ensures places { IfOk result (λ ps. (n : ℕ) (f : Family) →
        slice_get given.now.families.now n ≡ Some f →
        AreEachOnce (map (λ o. o.name) f.makers.items) (arm_labels (core_arms_of arms.now)) →
        ArePlacesOf f arms.now starts.now ps.items) }
    ensures within { IfOk result (λ ps. (j : ℕ) → AreAtMost j starts.now → AreAtMost j ps.items) }
{
    let mut places = no_places(given.alloc, maker_count(given, arms))?;
    for (i, arm) in arms.iter().enumerate() {
        put_place(given, &mut places, arm, starts[i]);
    }
    Ok(places)
}
