ghost use Rattle.std.specs.Prelude.{◌≡◌, ◌+◌, ℕ, List, OnOk, length, suc};
ghost use Rattle.fst_types.specs.declared.kind.Use.{Use};
ghost use Rattle.fst_terms.specs.CoreTree.{CoreTree, fork, lambda, let_in, make, seq, split};
ghost use Rattle.fst_terms.specs.ModelCoreView.{cores_of};
ghost use Rattle.fst_terms.specs.declared.binder.Binder.{Binder};
ghost use Rattle.fst_machine.specs.Standing.{LeadsBelow};
ghost use Rattle.fst_code.specs.Writable.{AreWritable, IsWritable};
ghost use Rattle.fst_code.specs.Written.{Leaves, Writes, WritesAll, WritesBehind, WritesUnder, compiled};

use crate::built::{Built, push, top_of};
use crate::closing::close;
use crate::given::Given;
use crate::marks::{enter_all, unmarked};
use crate::pieces::leave_all;
use crate::terms::write;
use fst_machine::Instr;
use fst_terms::Term;
use std::alloc::AllocError;

// Terms without branches, by their forms.

// A term under so many binders, and what makes variables of the last values.
#[cycle(write)]
pub(crate) fn write_under(
    given: &Given<'_>,
    out: &mut Built,
    later: &mut Vec<bool>,
    count: usize,
    body: &Term,
) -> Result<(), AllocError>
    requires { IsWritable (count + length later.old.items) (length out.old.lambdas.items) body.now }
    ensures { OnOk result ((xs : List Binder) → length xs ≡ count →
        WritesUnder (compiled given.now.families.now out.old) later.old.items
        (compiled given.now.families.now out.new) later.new.items xs body.now) }
{
    enter_all(later, count)?;
    write(given, out, later, body)?;
    leave_all(out, later, count)?;
    Ok(())
}

#[cycle(write)]
pub(crate) fn write_task(
    given: &Given<'_>,
    out: &mut Built,
    later: &mut Vec<bool>,
    body: &Term,
) -> Result<(), AllocError>
    requires { IsWritable (length later.old.items) (length out.old.lambdas.items) body.now }
    ensures { OnOk result ((at : ℕ) →
        Writes (compiled given.now.families.now out.old) later.old.items
        (compiled given.now.families.now out.new) later.new.items (fork at body.now)) }
{
    let next = top_of(out);
    let mut used = unmarked(given.alloc, later.len())?;
    push(out, Instr::Return)?;
    write(given, out, &mut used, body)?;
    close(given.alloc, out, later, &used, next, true)?;
    Ok(())
}

#[cycle(write)]
pub(crate) fn write_function(
    given: &Given<'_>,
    out: &mut Built,
    later: &mut Vec<bool>,
    body: &Term,
) -> Result<(), AllocError>
    requires { IsWritable (suc (length later.old.items)) (length out.old.lambdas.items) body.now }
    ensures { OnOk result ((at : ℕ) (u : Use) (t : ℕ) (x : Binder) →
        Writes (compiled given.now.families.now out.old) later.old.items
        (compiled given.now.families.now out.new) later.new.items (lambda at u t x body.now)) }
{
    let next = top_of(out);
    let mut used = unmarked(given.alloc, later.len())?;
    push(out, Instr::Return)?;
    write_under(given, out, &mut used, 1, body)?;
    close(given.alloc, out, later, &used, next, false)?;
    Ok(())
}

#[cycle(write)]
pub(crate) fn write_all(
    given: &Given<'_>,
    out: &mut Built,
    later: &mut Vec<bool>,
    terms: &[Term],
) -> Result<(), AllocError>
    requires { AreWritable (length later.old.items) (length out.old.lambdas.items)
        (cores_of terms.now) }
    ensures { OnOk result (WritesAll (compiled given.now.families.now out.old) later.old.items
        (compiled given.now.families.now out.new) later.new.items (cores_of terms.now)) }
{
    for i in (0..terms.len()).rev() {
        write(given, out, later, &terms[i])?;
    }
    Ok(())
}

#[cycle(write)]
pub(crate) fn write_make(
    given: &Given<'_>,
    out: &mut Built,
    later: &mut Vec<bool>,
    family: u32,
    maker: u32,
    arguments: &[Term],
) -> Result<(), AllocError>
    requires { AreWritable (length later.old.items) (length out.old.lambdas.items)
        (cores_of arguments.now) }
    ensures { OnOk result ((at : ℕ) →
        Writes (compiled given.now.families.now out.old) later.old.items
        (compiled given.now.families.now out.new) later.new.items
        (make at family maker (cores_of arguments.now))) }
{
    push(out, Instr::Make(family, maker, arguments.len() as u32))?;
    write_all(given, out, later, arguments)?;
    Ok(())
}

// The second part of two, which comes before an instruction.
#[cycle(write)]
pub(crate) fn write_second(
    given: &Given<'_>,
    out: &mut Built,
    later: &mut Vec<bool>,
    instr: Instr,
    second: &Term,
) -> Result<(), AllocError>
    requires leads { LeadsBelow (suc (length out.old.code.items)) instr }
    requires writable { IsWritable (length later.old.items)
        (length out.old.lambdas.items) second.now }
    ensures { OnOk result (WritesBehind (compiled given.now.families.now out.old) later.old.items
        (compiled given.now.families.now out.new) later.new.items instr second.now) }
{
    push(out, instr)?;
    write(given, out, later, second)?;
    Ok(())
}

#[cycle(write)]
pub(crate) fn write_then(
    given: &Given<'_>,
    out: &mut Built,
    later: &mut Vec<bool>,
    second: &Term,
) -> Result<(), AllocError>
    requires { IsWritable (length later.old.items) (length out.old.lambdas.items) second.now }
    ensures { OnOk result ((at : ℕ) (e : CoreTree) →
        Leaves (compiled given.now.families.now out.old) later.old.items
        (compiled given.now.families.now out.new) later.new.items (seq at e second.now) e) }
{
    write(given, out, later, second)?;
    push(out, Instr::Drop)?;
    Ok(())
}

#[cycle(write)]
pub(crate) fn write_let(
    given: &Given<'_>,
    out: &mut Built,
    later: &mut Vec<bool>,
    body: &Term,
) -> Result<(), AllocError>
    requires { IsWritable (suc (length later.old.items)) (length out.old.lambdas.items) body.now }
    ensures { OnOk result ((at : ℕ) (x : Binder) (e : CoreTree) →
        Leaves (compiled given.now.families.now out.old) later.old.items
        (compiled given.now.families.now out.new) later.new.items (let_in at x e body.now) e) }
{
    push(out, Instr::Unbind(1))?;
    write_under(given, out, later, 1, body)?;
    Ok(())
}

#[cycle(write)]
pub(crate) fn write_split(
    given: &Given<'_>,
    out: &mut Built,
    later: &mut Vec<bool>,
    body: &Term,
) -> Result<(), AllocError>
    requires { IsWritable (suc (suc (length later.old.items)))
        (length out.old.lambdas.items) body.now }
    ensures { OnOk result ((at : ℕ) (x y : Binder) (e : CoreTree) →
        Leaves (compiled given.now.families.now out.old) later.old.items
        (compiled given.now.families.now out.new) later.new.items (split at x y e body.now) e) }
{
    push(out, Instr::Unbind(2))?;
    write_under(given, out, later, 2, body)?;
    push(out, Instr::Split)?;
    Ok(())
}
