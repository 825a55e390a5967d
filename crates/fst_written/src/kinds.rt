ghost use Rattle.std.specs.Prelude.{◌≡◌, ◌<◌, ◌≤◌, ◌≢◌, IfErr, IfOk, MatchOption, OnOk, length, map};
ghost use Rattle.fst_terms.specs.InRange.{AreNumbersBelow};
ghost use Rattle.fst_derivations.specs.Modules.{AreTypesFormed};
ghost use Rattle.fst_written.specs.Readings.{IsFormedReading, reading_of};
ghost use Rattle.fst_written.specs.Faults.{HasFault, IsLeast, IsTold, IsWrittenFault};
ghost use Rattle.fst_written.specs.declared.fault.WrittenFault.TheVariants as written;

use crate::fault::WrittenFault;
use crate::readings::{Occurrence, occurrences};
use fst_kinds::{KindFault, kind_of};
use fst_terms::Module;
use std::alloc::{AllocError, Global};

// The first fault of a type, and the byte at which the type begins.
#[derive(Drop)]
struct Placed {
    at: u32,
    fault: KindFault,
}

fn fault_of(
    alloc: Global,
    m: &Module,
    occurrence: &Occurrence<'_>,
) -> Result<Option<Placed>, AllocError>
    requires { occurrence.now.number < length m.now.types.items }
    ensures { IfOk result (λ found. MatchOption found
        (IsFormedReading m.now (reading_of occurrence.now))
        (λ p. HasFault m.now (reading_of occurrence.now) p.at p.fault)) }
{
    let number = occurrence.number as usize;
    match kind_of(alloc, &m.types[number], occurrence.kinds) {
        Ok(_kind) => Ok(None),
        Err(fault) => match fault {
            KindFault::Memory => Err(AllocError),
            fault => Ok(Some(Placed {
                at: m.places[number],
                fault,
            })),
        },
    }
}

// Of two faults the one that begins first, and the first one where both begin at one byte.
fn earlier(found: Option<Placed>, next: Placed) -> Placed
    ensures { MatchOption found (result ≡ next) (λ first.
        (first.at ≤ next.at → result ≡ first) × (next.at < first.at → result ≡ next)) }
{
    match found {
        None => next,
        Some(first) => { if first.at <= next.at { first } else { next } }
    }
}

fn first_fault(
    alloc: Global,
    m: &Module,
    standing: &[Occurrence<'_>],
) -> Result<Option<Placed>, AllocError>
    requires { AreNumbersBelow (length m.now.types.items) (map (λ o. o.number) standing.now) }
    ensures { IfOk result (IsLeast m.now (map reading_of standing.now)) }
{
    let mut found = None;
    for occurrence in standing {
        if let Some(next) = fault_of(alloc, m, occurrence)? {
            found = Some(earlier(found, next));
        }
    }
    Ok(found)
}

/// Whether all written types of a module are well formed: each global's signature over its variables, the types in its
/// equation over these variables too, but those of new channels over none; and fields, and types that stand nowhere,
/// over none. Where one isn't, the first in order of text tells its fault.
pub fn check_kinds(alloc: Global, m: &Module) -> Result<(), WrittenFault>
    ensures formed { OnOk result (AreTypesFormed m.now) }
    ensures fault { IfErr result (IsWrittenFault m.now) }
    ensures refused { IfErr result (λ f. f ≢ written.Memory → AreTypesFormed m.now → ⊥) }
    ensures told { IfErr result IsTold }
{
    let standing = occurrences(alloc, m)?;
    match first_fault(alloc, m, &standing)? {
        None => Ok(()),
        Some(first) => Err(WrittenFault::Kinds(first.at, first.fault)),
    }
}
