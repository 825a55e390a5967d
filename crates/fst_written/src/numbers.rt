ghost use Rattle.std.specs.Prelude.{◌≡◌, ◌++◌, ◌<◌, ◌^◌, ℕ, IfOk, OnOk, length, map, false, nat_eq, slice_index_or};
ghost use Rattle.std.specs.List.{list_any};
ghost use Rattle.fst_terms.specs.InRange.{AreNumbersBelow};
ghost use Rattle.fst_derivations.specs.Modules.{family_types, maker_types};
ghost use Rattle.fst_written.specs.Readings.{others};

use crate::readings::Occurrence;
use fst_types::{Family, Maker};
use std::alloc::{AllocError, Global};

fn add_maker_types(makers: &[Maker], out: &mut Vec<u32>) -> Result<(), AllocError>
    ensures { OnOk result (out.new.items ≡ out.old.items ++ maker_types makers.now) }
{
    for maker in makers {
        out.extend_from_slice(&maker.fields)?;
    }
    Ok(())
}

// The numbers of the types of all fields, in order of text.
pub(crate) fn field_types(alloc: Global, families: &[Family]) -> Result<Vec<u32>, AllocError>
    ensures { IfOk result (λ ks. ks.items ≡ family_types families.now) }
{
    let mut out = Vec::new(alloc);
    for family in families {
        add_maker_types(&family.makers, &mut out)?;
    }
    Ok(out)
}

// Which numbers below `count` are those of types that stand somewhere.
fn marks_of(
    alloc: Global,
    count: usize,
    standing: &[Occurrence<'_>],
) -> Result<Vec<bool>, AllocError>
    requires { AreNumbersBelow count (map (λ o. o.number) standing.now) }
    ensures length { IfOk result (λ marks. length marks.items ≡ count) }
    ensures marks { IfOk result (λ marks. (k : ℕ) → k < count →
        slice_index_or marks.items k false ≡ list_any (λ o. nat_eq k o.number) standing.now) }
{
    let mut marks = vec![in alloc; false; count]?;
    for occurrence in standing {
        marks[occurrence.number as usize] = true;
    }
    Ok(marks)
}

// The numbers below `count` of the types that stand nowhere.
pub(crate) fn other_types(
    alloc: Global,
    count: usize,
    standing: &[Occurrence<'_>],
) -> Result<Vec<u32>, AllocError>
    requires few { count < 2 ^ 32 }
    requires there { AreNumbersBelow count (map (λ o. o.number) standing.now) }
    ensures { IfOk result (λ ks. ks.items ≡ others (map (λ o. o.number) standing.now) count) }
{
    let marks = marks_of(alloc, count, standing)?;
    let mut out = Vec::new(alloc);
    for k in 0..count {
        if !marks[k] {
            out.push(k as u32)?;
        }
    }
    Ok(out)
}
