ghost use Rattle.std.specs.Prelude.{◌≡◌, ◌≤◌, ◌+◌, ℕ, List, IfOk, OnOk, length};
ghost use Rattle.fst_terms.specs.CoreCount.{core_arms_count, core_count};
ghost use Rattle.fst_terms.specs.CoreTree.{CoreTree, case_of, if_else, match_with, no_terms, term};
ghost use Rattle.fst_terms.specs.ModelCoreView.{core_arms_of};
ghost use Rattle.fst_code.specs.Arms.{AreWritten, IsWritten, WritesArms};
ghost use Rattle.fst_code.specs.Writable.{AreArmsWritable, AreWritable, IsWritable};
ghost use Rattle.fst_code.specs.Written.{Extends, Leaves, compiled};

use crate::arms::{case_places, mark_arms, match_places, write_starts};
use crate::built::{Built, come_to, push, top_of};
use crate::codes::ArmCode;
use crate::given::Given;
use crate::marks::{copied, mark_all};
use crate::parts::write_under;
use crate::pieces::{forget, forget_here};
use crate::terms::write;
use fst_machine::Instr;
use fst_terms::{Arm, Term};
use std::alloc::AllocError;

// Terms with branches. First the code of all branches is written, and then where each of them starts: there is dropped what
// the others alone use.

#[cycle(write)]
pub(crate) fn write_if(
    given: &Given<'_>,
    out: &mut Built,
    later: &mut Vec<bool>,
    yes: &Term,
    no: &Term,
) -> Result<(), AllocError>
    requires { AreWritable (length later.old.items) (length out.old.lambdas.items)
        (term yes.now (term no.now no_terms)) }
    ensures { OnOk result ((at : ℕ) (e : CoreTree) →
        Leaves (compiled given.now.families.now out.old) later.old.items
        (compiled given.now.families.now out.new) later.new.items
        (if_else at e yes.now no.now) e) }
{
    let next = top_of(out);
    let mut no_marks = copied(given.alloc, later)?;
    write(given, out, &mut no_marks, no)?;
    let no_start = top_of(out);
    come_to(out, next)?;
    let mut yes_marks = copied(given.alloc, later)?;
    write(given, out, &mut yes_marks, yes)?;
    let yes_start = top_of(out);
    mark_all(later, &no_marks);
    mark_all(later, &yes_marks);
    let place = forget(given.alloc, out, later, &no_marks, no_start)?;
    forget_here(given.alloc, out, later, &yes_marks, yes_start)?;
    push(out, Instr::Branch(place))?;
    Ok(())
}

// An arm of a `case` or a `match`: what makes its variables of the last values, its term, and what leaves its variables; then
// comes a place.
#[cycle(write)]
pub(crate) fn write_arm(
    given: &Given<'_>,
    out: &mut Built,
    later: &[bool],
    next: u64,
    arm: &Arm,
) -> Result<ArmCode, AllocError>
    requires place { next ≤ length out.old.code.items }
    requires writable { IsWritable (length arm.now.binders.items + length later.now)
        (length out.old.lambdas.items) arm.now.body }
    ensures more { OnOk result (Extends (compiled given.now.families.now out.old)
        (compiled given.now.families.now out.new)) }
    ensures entries { OnOk result (length out.new.lambdas.items
        ≤ length out.old.lambdas.items + core_count arm.now.body) }
    ensures arm { IfOk result (λ a.
        IsWritten (compiled given.now.families.now out.new) later.now next arm.now a) }
{
    let count = arm.binders.len();
    let mut marks = copied(given.alloc, later)?;
    come_to(out, next)?;
    push(out, Instr::Unbind(count as u32))?;
    write_under(given, out, &mut marks, count, &arm.body)?;
    let start = top_of(out);
    Ok(ArmCode { marks, start })
}

#[cycle(write)]
pub(crate) fn write_arms(
    given: &Given<'_>,
    out: &mut Built,
    later: &[bool],
    next: u64,
    arms: &[Arm],
) -> Result<Vec<ArmCode>, AllocError>
    requires place { next ≤ length out.old.code.items }
    requires writable { AreArmsWritable (length later.now) (length out.old.lambdas.items) arms.now }
    ensures more { OnOk result (Extends (compiled given.now.families.now out.old)
        (compiled given.now.families.now out.new)) }
    ensures entries { OnOk result (length out.new.lambdas.items
        ≤ length out.old.lambdas.items + core_arms_count (core_arms_of arms.now)) }
    ensures arms { IfOk result (λ codes. AreWritten
        (compiled given.now.families.now out.new) later.now next
        arms.now codes.items) }
{
    let mut codes = Vec::new(given.alloc);
    for arm in arms {
        codes.push(write_arm(given, out, later, next, arm)?)?;
    }
    Ok(codes)
}

// The code of arms, and where each of them starts.
#[cycle(write)]
pub(crate) fn write_branches(
    given: &Given<'_>,
    out: &mut Built,
    later: &mut Vec<bool>,
    arms: &[Arm],
) -> Result<Vec<u64>, AllocError>
    requires { AreArmsWritable (length later.old.items) (length out.old.lambdas.items) arms.now }
    ensures { IfOk result (λ starts. WritesArms
        (compiled given.now.families.now out.old) later.old.items
        (compiled given.now.families.now out.new) later.new.items arms.now starts.items) }
{
    let next = top_of(out);
    let codes = write_arms(given, out, later, next, arms)?;
    mark_arms(later, &codes);
    let starts = write_starts(given.alloc, out, later, &codes)?;
    Ok(starts)
}

#[cycle(write)]
pub(crate) fn write_case(
    given: &Given<'_>,
    out: &mut Built,
    later: &mut Vec<bool>,
    arms: &[Arm],
) -> Result<(), AllocError>
    requires { AreArmsWritable (length later.old.items) (length out.old.lambdas.items) arms.now }
    ensures { OnOk result ((at : ℕ) (e : CoreTree) →
        Leaves (compiled given.now.families.now out.old) later.old.items
        (compiled given.now.families.now out.new) later.new.items
        (case_of at e (core_arms_of arms.now)) e) }
{
    let starts = write_branches(given, out, later, arms)?;
    let places = case_places(given, arms, &starts)?;
    push(out, Instr::Case(places))?;
    Ok(())
}

#[cycle(write)]
pub(crate) fn write_match(
    given: &Given<'_>,
    out: &mut Built,
    later: &mut Vec<bool>,
    arms: &[Arm],
) -> Result<(), AllocError>
    requires { AreArmsWritable (length later.old.items) (length out.old.lambdas.items) arms.now }
    ensures { OnOk result ((at : ℕ) (e : CoreTree) →
        Leaves (compiled given.now.families.now out.old) later.old.items
        (compiled given.now.families.now out.new) later.new.items
        (match_with at e (core_arms_of arms.now)) e) }
{
    let starts = write_branches(given, out, later, arms)?;
    let places = match_places(given.alloc, arms, &starts)?;
    push(out, Instr::Match(places))?;
    Ok(())
}
