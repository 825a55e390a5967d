ghost use Rattle.std.specs.Prelude.{◌≡◌, ◌≤◌, ◌<◌, ◌^◌, ℕ, List, OnOk, IfOk, Some, length, slice_get, suc};
ghost use Rattle.fst_types.specs.declared.family.Family.{Family};
ghost use Rattle.fst_machine.specs.declared.entry.LambdaEntry.{LambdaEntry};
ghost use Rattle.fst_code.specs.Marks.{marked};
ghost use Rattle.fst_code.specs.Written.{Closes, Extends, Pushes, closing, compiled};

use crate::built::{Built, push, top_of};
use crate::marks::{mark_all, variables_in};
use crate::pieces::capture;
use fst_machine::{Instr, LambdaEntry};
use std::alloc::{AllocError, Global};

fn closing_of(is_task: bool, number: u32) -> Instr
    ensures { result ≡ closing is_task number }
{
    if is_task {
        Instr::Fork(number)
    } else {
        Instr::Function(number)
    }
}

fn push_closing(out: &mut Built, is_task: bool, number: u32) -> Result<(), AllocError>
    ensures { OnOk result ((fs : List Family) →
        Pushes (compiled fs out.old) (compiled fs out.new) (closing is_task number)) }
{
    push(out, closing_of(is_task, number))?;
    Ok(())
}

// An entry for the code that begins at the last place, and its number.
fn add_entry(alloc: Global, out: &mut Built, captured: &[u32]) -> Result<u32, AllocError>
    requires few { length captured.now < 2 ^ 32 }
    requires room { length out.old.lambdas.items < 2 ^ 32 }
    ensures more { OnOk result ((fs : List Family) →
        Extends (compiled fs out.old) (compiled fs out.new)) }
    ensures same { OnOk result (out.new.code.items ≡ out.old.code.items) }
    ensures entries { OnOk result
        (length out.new.lambdas.items ≡ suc (length out.old.lambdas.items)) }
    ensures there { IfOk result (λ l. (e : LambdaEntry) ×
        (slice_get out.new.lambdas.items l ≡ Some e) ×
        (e.start ≡ length out.old.code.items) × (e.captured.items ≡ captured.now)) }
{
    let number = out.lambdas.len();
    let start = top_of(out);
    let captured = Vec::from_slice(alloc, captured)?;
    out.lambdas.push(LambdaEntry { start, captured })?;
    Ok(number as u32)
}

/// Makes a function or a task of the body that begins at the last place and uses the variables that are marked in a list of
/// its own; then comes a place.
pub(crate) fn close(
    alloc: Global,
    out: &mut Built,
    later: &mut Vec<bool>,
    used: &[bool],
    next: u64,
    is_task: bool,
) -> Result<(), AllocError>
    requires place { next ≤ length out.old.code.items }
    requires deep { length used.now ≡ length later.old.items }
    requires few { length used.now < 2 ^ 32 }
    requires room { length out.old.lambdas.items < 2 ^ 32 }
    ensures { OnOk result ((fs : List Family) →
        Closes (compiled fs out.old) later.old.items (compiled fs out.new) later.new.items is_task
        (length out.old.code.items) (marked used.now) next) }
{
    let captured = variables_in(alloc, used)?;
    let number = add_entry(alloc, out, &captured)?;
    push(out, Instr::Jump(next))?;
    push_closing(out, is_task, number)?;
    capture(out, later, &captured)?;
    mark_all(later, used);
    Ok(())
}
