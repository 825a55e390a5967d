ghost use Rattle.std.specs.Prelude.{◌≡◌, ◌++◌, IfOk, OnOk, map};
ghost use Rattle.fst_derivations.specs.Modules.{types_in};
ghost use Rattle.fst_written.specs.Readings.{closed_readings, global_readings, reading_of, readings, standing_readings};

use crate::numbers::{field_types, other_types};
use crate::standing::{Standing, add_standing};
use fst_terms::{GlobalEntry, Module, Term};
use fst_types::Kind;
use std::alloc::{AllocError, Global};

// A type that stands in a module, by its number, and the kinds of the variables in scope there.
#[derive(Clone, Copy)]
pub(crate) struct Occurrence<'a> {
    pub(crate) number: u32,
    pub(crate) kinds: &'a [Kind],
}

fn add_occurrences<'a>(
    standing: &[Standing],
    kinds: &'a [Kind],
    out: &mut Vec<Occurrence<'a>>,
) -> Result<(), AllocError>
    ensures { OnOk result (map reading_of out.new.items ≡
        map reading_of out.old.items ++ standing_readings kinds.now standing.now) }
{
    for (number, open) in standing {
        let scope: &[Kind] = if *open { kinds } else { &[] };
        out.push(Occurrence {
            number: *number,
            kinds: scope,
        })?;
    }
    Ok(())
}

fn add_equation<'a>(
    alloc: Global,
    body: &Term,
    kinds: &'a [Kind],
    out: &mut Vec<Occurrence<'a>>,
) -> Result<(), AllocError>
    ensures { OnOk result (map reading_of out.new.items ≡
        map reading_of out.old.items ++ standing_readings kinds.now (types_in body.now)) }
{
    let mut standing = Vec::new(alloc);
    add_standing(alloc, body, &mut standing)?;
    add_occurrences(&standing, kinds, out)
}

fn global_occurrences<'a>(
    alloc: Global,
    globals: &'a [GlobalEntry],
) -> Result<Vec<Occurrence<'a>>, AllocError>
    ensures { IfOk result (λ os. map reading_of os.items ≡ global_readings globals.now) }
{
    let mut out = Vec::new(alloc);
    for global in globals {
        out.push(Occurrence {
            number: global.signature,
            kinds: &global.kinds,
        })?;
        add_equation(alloc, &global.body, &global.kinds, &mut out)?;
    }
    Ok(out)
}

fn add_closed(numbers: &[u32], out: &mut Vec<Occurrence<'_>>) -> Result<(), AllocError>
    ensures { OnOk result (map reading_of out.new.items ≡
        map reading_of out.old.items ++ closed_readings numbers.now) }
{
    for number in numbers {
        out.push(Occurrence {
            number: *number,
            kinds: &[],
        })?;
    }
    Ok(())
}

// The types of a module, where they stand.
pub(crate) fn occurrences<'a>(
    alloc: Global,
    m: &'a Module,
) -> Result<Vec<Occurrence<'a>>, AllocError>
    ensures { IfOk result (λ os. map reading_of os.items ≡ readings m.now) }
{
    let mut out = global_occurrences(alloc, &m.globals)?;
    add_closed(&field_types(alloc, &m.families)?, &mut out)?;
    let others = other_types(alloc, m.types.len(), &out)?;
    add_closed(&others, &mut out)?;
    Ok(out)
}
