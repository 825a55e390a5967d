// The parts of terms with numbers in place of names: one or several, under variables, and in arms.

ghost use Rattle.std.specs.Prelude.{◌≡◌, ◌∷◌, ◌++◌, ◌+◌, [], IfOk, OnOk, length};
ghost use Rattle.fst_terms.specs.ModelCoreView.{core_arms_of, cores_of};
ghost use Rattle.fst_terms.specs.ModelView.{arms_of, terms_of};
ghost use Rattle.fst_term_faults.specs.TermFaults.{matches_faults, term_faults, terms_faults, within};
ghost use Rattle.fst_term_names.specs.CodeMeanings.{AreAdded, numbers_in, scope_in};
ghost use Rattle.fst_term_names.specs.CoreTerms.{core_arms, core_term, core_terms};
ghost use Rattle.fst_term_names.specs.TermTypes.{written_in, written_in_all, written_in_arms};

use crate::copies::{copy_binder, copy_binders};
use crate::core_terms::core_term;
use crate::meanings::{Meanings, TypeList};
use fst_locals::Locals;
use fst_term_faults::{enter_all, leave_all};
use fst_terms::{Arm, Binder, SourceArm, SourceTerm, Term};
use std::alloc::{AllocError, Global};

/// The term with numbers in place of names, in a box.
#[cycle(core)]
pub(crate) fn core_part(
    alloc: Global,
    term: &SourceTerm,
    meanings: &Meanings<'_>,
    locals: &mut Locals,
    types: &mut TypeList,
) -> Result<Box<Term>, AllocError>
    requires { term_faults (scope_in meanings.now) locals.old term.now ≡ [] }
    ensures term { IfOk result (λ t. t.value ≡
        core_term (numbers_in meanings.now) locals.old (length types.old.types.items) term.now) }
    ensures added { OnOk result
        (AreAdded (scope_in meanings.now) (written_in term.now) types.old types.new) }
    ensures kept { OnOk result (locals.new ≡ locals.old) }
{
    let made = core_term(alloc, term, meanings, locals, types)?;
    Ok(Box::new(alloc, made)?)
}

/// Two terms with numbers in place of names, of which the first one's types stand in front.
#[cycle(core)]
pub(crate) fn core_two(
    alloc: Global,
    first: &SourceTerm,
    second: &SourceTerm,
    meanings: &Meanings<'_>,
    locals: &mut Locals,
    types: &mut TypeList,
) -> Result<(Box<Term>, Box<Term>), AllocError>
    requires { term_faults (scope_in meanings.now) locals.old first.now ++
        term_faults (scope_in meanings.now) locals.old second.now ≡ [] }
    ensures first { IfOk result (λ ts. ts.0.value ≡
        core_term (numbers_in meanings.now) locals.old (length types.old.types.items) first.now) }
    ensures second { IfOk result (λ ts. ts.1.value ≡ core_term (numbers_in meanings.now) locals.old
        (length types.old.types.items + length (written_in first.now)) second.now) }
    ensures added { OnOk result
        (AreAdded (scope_in meanings.now) (written_in first.now ++ written_in second.now)
        types.old types.new) }
    ensures kept { OnOk result (locals.new ≡ locals.old) }
{
    let first = core_part(alloc, first, meanings, locals, types)?;
    let second = core_part(alloc, second, meanings, locals, types)?;
    Ok((first, second))
}

/// The term with numbers in place of names under one more variable.
#[cycle(core)]
pub(crate) fn core_under(
    alloc: Global,
    binder: &Binder,
    body: &SourceTerm,
    meanings: &Meanings<'_>,
    locals: &mut Locals,
    types: &mut TypeList,
) -> Result<(Binder, Box<Term>), AllocError>
    requires { term_faults (scope_in meanings.now) (binder.now.name ∷ locals.old) body.now ≡ [] }
    ensures binder { IfOk result (λ t. t.0 ≡ binder.now) }
    ensures body { IfOk result (λ t. t.1.value ≡ core_term (numbers_in meanings.now)
        (binder.now.name ∷ locals.old) (length types.old.types.items) body.now) }
    ensures added { OnOk result
        (AreAdded (scope_in meanings.now) (written_in body.now) types.old types.new) }
    ensures kept { OnOk result (locals.new ≡ locals.old) }
{
    let copy = copy_binder(alloc, binder)?;
    locals.enter(alloc, &binder.name)?;
    let body = core_part(alloc, body, meanings, locals, types)?;
    locals.leave();
    Ok((copy, body))
}

/// The term with numbers in place of names under two more variables, of which the second hides
/// the first.
#[cycle(core)]
pub(crate) fn core_under_both(
    alloc: Global,
    first: &Binder,
    second: &Binder,
    body: &SourceTerm,
    meanings: &Meanings<'_>,
    locals: &mut Locals,
    types: &mut TypeList,
) -> Result<(Binder, Binder, Box<Term>), AllocError>
    requires { term_faults (scope_in meanings.now) (second.now.name ∷ first.now.name ∷ locals.old)
        body.now ≡ [] }
    ensures first { IfOk result (λ t. t.0 ≡ first.now) }
    ensures second { IfOk result (λ t. t.1 ≡ second.now) }
    ensures body { IfOk result (λ t. t.2.value ≡ core_term (numbers_in meanings.now)
        (second.now.name ∷ first.now.name ∷ locals.old) (length types.old.types.items) body.now) }
    ensures added { OnOk result
        (AreAdded (scope_in meanings.now) (written_in body.now) types.old types.new) }
    ensures kept { OnOk result (locals.new ≡ locals.old) }
{
    let copy = copy_binder(alloc, first)?;
    locals.enter(alloc, &first.name)?;
    let (inner, body) = core_under(alloc, second, body, meanings, locals, types)?;
    locals.leave();
    Ok((copy, inner, body))
}

// The arm with numbers in place of names.
#[cycle(core)]
#[tactic(auto, using(crate::proofs::PartLaws::within_long, crate::proofs::PartLaws::within_left))]
fn core_arm(
    alloc: Global,
    arm: &SourceArm,
    meanings: &Meanings<'_>,
    locals: &mut Locals,
    types: &mut TypeList,
) -> Result<Arm, AllocError>
    requires { term_faults (scope_in meanings.now) (within arm.now.binders.items locals.old)
        arm.now.body ≡ [] }
    ensures label { IfOk result (λ a. a.label ≡ arm.now.label.name) }
    ensures binders { IfOk result (λ a. a.binders.items ≡ arm.now.binders.items) }
    ensures body { IfOk result (λ a. a.body ≡ core_term (numbers_in meanings.now)
        (within arm.now.binders.items locals.old) (length types.old.types.items) arm.now.body) }
    ensures added { OnOk result
        (AreAdded (scope_in meanings.now) (written_in arm.now.body) types.old types.new) }
    ensures kept { OnOk result (locals.new ≡ locals.old) }
{
    let label = arm.label.name.copy(alloc)?;
    let binders = copy_binders(alloc, &arm.binders)?;
    enter_all(alloc, &arm.binders, locals)?;
    let body = core_term(alloc, &arm.body, meanings, locals, types)?;
    leave_all(arm.binders.len(), locals);
    Ok(Arm {
        label,
        binders,
        body,
    })
}

/// Some terms with numbers in place of names, one behind the other.
#[cycle(core)]
#[tactic(auto, using(fst_term_faults::proofs::Laws::terms_height_at))]
pub(crate) fn core_terms(
    alloc: Global,
    terms: &[SourceTerm],
    meanings: &Meanings<'_>,
    locals: &mut Locals,
    types: &mut TypeList,
) -> Result<Vec<Term>, AllocError>
    requires { terms_faults (scope_in meanings.now) locals.old (terms_of terms.now) ≡ [] }
    ensures terms { IfOk result (λ ts. cores_of ts.items ≡ core_terms (numbers_in meanings.now)
        locals.old (length types.old.types.items) (terms_of terms.now)) }
    ensures added { OnOk result
        (AreAdded (scope_in meanings.now) (written_in_all (terms_of terms.now))
        types.old types.new) }
    ensures kept { OnOk result (locals.new ≡ locals.old) }
{
    let mut made = Vec::new(alloc);
    for t in terms {
        made.push(core_term(alloc, t, meanings, locals, types)?)?;
    }
    Ok(made)
}

/// Some arms with numbers in place of names, one behind the other.
#[cycle(core)]
#[tactic(auto, using(fst_term_faults::proofs::Laws::arms_height_at))]
pub(crate) fn core_arms(
    alloc: Global,
    arms: &[SourceArm],
    meanings: &Meanings<'_>,
    locals: &mut Locals,
    types: &mut TypeList,
) -> Result<Vec<Arm>, AllocError>
    requires { matches_faults (scope_in meanings.now) locals.old (arms_of arms.now) ≡ [] }
    ensures arms { IfOk result (λ bs. core_arms_of bs.items ≡ core_arms (numbers_in meanings.now)
        locals.old (length types.old.types.items) (arms_of arms.now)) }
    ensures added { OnOk result
        (AreAdded (scope_in meanings.now) (written_in_arms (arms_of arms.now))
        types.old types.new) }
    ensures kept { OnOk result (locals.new ≡ locals.old) }
{
    let mut made = Vec::new(alloc);
    for arm in arms {
        made.push(core_arm(alloc, arm, meanings, locals, types)?)?;
    }
    Ok(made)
}
