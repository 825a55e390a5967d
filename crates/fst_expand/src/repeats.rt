//! Places at which two lists have the same numbers.

ghost use Rattle.std.specs.Prelude.{◌≡◌, ◌≤◌, ◌+◌, List, ℕ, IfOk, Some, length, slice_get};
ghost use Rattle.fst_expand.specs.Repeats.{AreOrigins, AreRepeats, IsRepeat};

use indexmap::IndexSet;
use std::alloc::{AllocError, Global};

// The first place with these numbers: this one, where they are new, and then it is noted.
fn first_place(
    seen: &mut IndexSet<(u32, u32)>,
    origins: &mut Vec<usize>,
    numbers: (u32, u32),
    here: usize,
) -> Result<usize, AllocError>
    requires { length origins.old.items ≡ length seen.old.keys }
    ensures { IfOk result (λ place. (left right : List ℕ) →
        AreOrigins left right seen.old.keys origins.old.items here →
        slice_get left here ≡ Some numbers.0 → slice_get right here ≡ Some numbers.1 →
        AreOrigins left right seen.new.keys origins.new.items (here + 1) ×
        (place ≤ here) × IsRepeat left right place here) }
{
    let (at, is_new) = seen.insert_full(numbers)?;
    if is_new {
        origins.push(here)?;
        return Ok(here);
    }
    Ok(origins[at])
}

/// For each place the first one at which both lists have the same numbers.
pub(crate) fn first_places(
    alloc: Global,
    left: &[u32],
    right: &[u32],
) -> Result<Vec<usize>, AllocError>
    requires { length right.now ≡ length left.now }
    ensures { IfOk result (λ places. AreRepeats left.now right.now places.items) }
{
    let mut seen = IndexSet::new(alloc);
    let mut origins = Vec::new(alloc);
    let mut places = Vec::new(alloc);
    for (i, number) in left.iter().enumerate() {
        let numbers = (*number, right[i]);
        let place = first_place(&mut seen, &mut origins, numbers, i)?;
        places.push(place)?;
    }
    Ok(places)
}
