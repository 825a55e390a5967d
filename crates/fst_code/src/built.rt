ghost use Rattle.std.specs.Prelude.{◌≡◌, ◌≤◌, List, OnOk, false, length, suc};
ghost use Rattle.fst_types.specs.declared.family.Family.{Family};
ghost use Rattle.fst_machine.specs.Standing.{LeadsBelow};
ghost use Rattle.fst_code.specs.Written.{ComesTo, Enters, Pushes, compiled};

use fst_machine::{Instr, LambdaEntry};
use std::alloc::AllocError;

/// The code that is written so far. It is written from its end: what comes behind an instruction is there already.
#[derive(Drop)]
pub(crate) struct Built {
    pub code: Vec<Instr>,
    pub lambdas: Vec<LambdaEntry>,
}

/// The place of the instruction that was written last.
pub(crate) fn top_of(out: &Built) -> u64
    ensures { result ≡ length out.now.code.items }
{
    out.code.len() as u64
}

/// Writes an instruction.
pub(crate) fn push(out: &mut Built, instr: Instr) -> Result<(), AllocError>
    requires { LeadsBelow (suc (length out.old.code.items)) instr }
    ensures { OnOk result ((fs : List Family) →
        Pushes (compiled fs out.old) (compiled fs out.new) instr) }
{
    out.code.push(instr)?;
    Ok(())
}

/// Writes a jump to a place, if that isn't the last one.
pub(crate) fn come_to(out: &mut Built, place: u64) -> Result<(), AllocError>
    requires { place ≤ length out.old.code.items }
    ensures { OnOk result ((fs : List Family) →
        ComesTo (compiled fs out.old) (compiled fs out.new) place) }
{
    if top_of(out) == place {
        return Ok(());
    }
    push(out, Instr::Jump(place))?;
    Ok(())
}

// Drops the last value, with a variable that isn't used in its place.
fn bind_unused(out: &mut Built) -> Result<(), AllocError>
    ensures { OnOk result ((fs : List Family) →
        Enters (compiled fs out.old) (compiled fs out.new) false) }
{
    push(out, Instr::Drop)?;
    push(out, Instr::Take(0))?;
    push(out, Instr::Bind)?;
    Ok(())
}

/// Makes a variable of the last value, which is dropped where the variable isn't used.
pub(crate) fn bind(out: &mut Built, used: bool) -> Result<(), AllocError>
    ensures { OnOk result ((fs : List Family) →
        Enters (compiled fs out.old) (compiled fs out.new) used) }
{
    if used {
        push(out, Instr::Bind)?;
        Ok(())
    } else {
        bind_unused(out)?;
        Ok(())
    }
}
