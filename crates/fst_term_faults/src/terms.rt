ghost use Rattle.std.specs.Prelude.{◌≡◌, ◌∷◌, ◌++◌, IsFalse, OnOk, Option};
ghost use Rattle.fst_terms.specs.ModelView.{arms_of, terms_of};
ghost use Rattle.fst_terms.specs.SourceAround.{has_first, wrap};
ghost use Rattle.fst_terms.specs.TermTree.{TermTree};
ghost use Rattle.fst_scopes.specs.First.{first_from};
ghost use Rattle.fst_scopes.specs.declared.fault.NameFault.{NameFault};
ghost use Rattle.fst_term_faults.specs.CodeSurroundings.{surroundings_of};
ghost use Rattle.fst_term_faults.specs.TermFaults.{cases_faults, matches_faults, term_faults, terms_faults, within};

use crate::binding::{enter_all, leave_all};
use crate::surroundings::Surroundings;
use crate::uses::{note_arguments, note_closed_type, note_maker, note_name_use, note_open_type};
use fst_locals::Locals;
use fst_scopes::NameFault;
use fst_terms::{
    Binder, SourceArm, SourceForm, SourceStep, SourceTerm, pop_source_step, source_spine_of,
};
use std::alloc::{AllocError, Global};

// Notes the faults of two terms, the first one's first.
#[cycle(terms)]
#[tactic(auto, using(fst_scopes::proofs::Laws::first_append))]
fn note_two(
    alloc: Global,
    first: &SourceTerm,
    second: &SourceTerm,
    around: &Surroundings<'_>,
    locals: &mut Locals,
    least: &mut Option<NameFault>,
) -> Result<(), AllocError>
    ensures noted { OnOk result (least.new ≡ first_from least.old
        (term_faults (surroundings_of around.now) locals.old first.now ++
        term_faults (surroundings_of around.now) locals.old second.now)) }
    ensures kept { OnOk result (locals.new ≡ locals.old) }
{
    note_term(alloc, first, around, locals, least)?;
    note_term(alloc, second, around, locals, least)
}

// Notes the faults of a term under one more variable.
#[cycle(terms)]
fn note_under(
    alloc: Global,
    binder: &Binder,
    body: &SourceTerm,
    around: &Surroundings<'_>,
    locals: &mut Locals,
    least: &mut Option<NameFault>,
) -> Result<(), AllocError>
    ensures noted { OnOk result (least.new ≡ first_from least.old
        (term_faults (surroundings_of around.now) (binder.now.name ∷ locals.old) body.now)) }
    ensures kept { OnOk result (locals.new ≡ locals.old) }
{
    locals.enter(alloc, &binder.name)?;
    note_term(alloc, body, around, locals, least)?;
    locals.leave();
    Ok(())
}

// Notes the faults of a term under two more variables, of which the second hides the first.
#[cycle(terms)]
fn note_under_both(
    alloc: Global,
    first: &Binder,
    second: &Binder,
    body: &SourceTerm,
    around: &Surroundings<'_>,
    locals: &mut Locals,
    least: &mut Option<NameFault>,
) -> Result<(), AllocError>
    ensures noted { OnOk result (least.new ≡ first_from least.old
        (term_faults (surroundings_of around.now) (second.now.name ∷ first.now.name ∷ locals.old)
        body.now)) }
    ensures kept { OnOk result (locals.new ≡ locals.old) }
{
    locals.enter(alloc, &first.name)?;
    note_under(alloc, second, body, around, locals, least)?;
    locals.leave();
    Ok(())
}

// Notes the faults of what follows an arm's pattern.
#[cycle(terms)]
#[tactic(auto, using(crate::proofs::TermLaws::within_long, crate::proofs::TermLaws::within_left))]
fn note_arm(
    alloc: Global,
    arm: &SourceArm,
    around: &Surroundings<'_>,
    locals: &mut Locals,
    least: &mut Option<NameFault>,
) -> Result<(), AllocError>
    ensures noted { OnOk result (least.new ≡ first_from least.old
        (term_faults (surroundings_of around.now) (within arm.now.binders.items locals.old)
        arm.now.body)) }
    ensures kept { OnOk result (locals.new ≡ locals.old) }
{
    enter_all(alloc, &arm.binders, locals)?;
    note_term(alloc, &arm.body, around, locals, least)?;
    leave_all(arm.binders.len(), locals);
    Ok(())
}

// Notes the faults of some terms.
#[cycle(terms)]
#[tactic(auto, using(crate::proofs::Heights::terms_height_at))]
fn note_terms(
    alloc: Global,
    terms: &[SourceTerm],
    around: &Surroundings<'_>,
    locals: &mut Locals,
    least: &mut Option<NameFault>,
) -> Result<(), AllocError>
    ensures noted { OnOk result (least.new ≡ first_from least.old
        (terms_faults (surroundings_of around.now) locals.old (terms_of terms.now))) }
    ensures kept { OnOk result (locals.new ≡ locals.old) }
{
    for t in terms {
        note_term(alloc, t, around, locals, least)?;
    }
    Ok(())
}

// Notes the faults of the arms of a `case`.
#[cycle(terms)]
#[tactic(auto, using(crate::proofs::Heights::arms_height_at))]
fn note_cases(
    alloc: Global,
    arms: &[SourceArm],
    around: &Surroundings<'_>,
    locals: &mut Locals,
    least: &mut Option<NameFault>,
) -> Result<(), AllocError>
    ensures noted { OnOk result (least.new ≡ first_from least.old
        (cases_faults (surroundings_of around.now) locals.old (arms_of arms.now))) }
    ensures kept { OnOk result (locals.new ≡ locals.old) }
{
    for arm in arms {
        let label = &arm.label;
        note_maker(
            alloc,
            label.at,
            &label.name,
            arm.binders.len(),
            around,
            least,
        )?;
        note_arm(alloc, arm, around, locals, least)?;
    }
    Ok(())
}

// Notes the faults of the arms of a `match`.
#[cycle(terms)]
#[tactic(auto, using(crate::proofs::Heights::arms_height_at))]
fn note_matches(
    alloc: Global,
    arms: &[SourceArm],
    around: &Surroundings<'_>,
    locals: &mut Locals,
    least: &mut Option<NameFault>,
) -> Result<(), AllocError>
    ensures noted { OnOk result (least.new ≡ first_from least.old
        (matches_faults (surroundings_of around.now) locals.old (arms_of arms.now))) }
    ensures kept { OnOk result (locals.new ≡ locals.old) }
{
    for arm in arms {
        note_arm(alloc, arm, around, locals, least)?;
    }
    Ok(())
}

// Notes the faults of a term that is no operation and no application.
#[cycle(terms)]
#[tactic(auto, using(fst_scopes::proofs::Laws::first_append, crate::proofs::TermLaws::length_of))]
fn note_head(
    alloc: Global,
    head: &SourceTerm,
    around: &Surroundings<'_>,
    locals: &mut Locals,
    least: &mut Option<NameFault>,
) -> Result<(), AllocError>
    requires { IsFalse (has_first head.now) }
    ensures noted { OnOk result (least.new ≡ first_from least.old
        (term_faults (surroundings_of around.now) locals.old head.now)) }
    ensures kept { OnOk result (locals.new ≡ locals.old) }
{
    match &head.form {
        SourceForm::Named(name, types) => {
            note_name_use(alloc, head.at, name, types, around, locals, least)?;
            note_arguments(alloc, types, around, least)
        }
        SourceForm::Int(_) => Ok(()),
        SourceForm::Bool(_) => Ok(()),
        SourceForm::Char(_) => Ok(()),
        SourceForm::Unit => Ok(()),
        SourceForm::Pair(first, second) => note_two(alloc, first, second, around, locals, least),
        SourceForm::Make(name, arguments) => {
            note_maker(alloc, head.at, name, arguments.len(), around, least)?;
            note_terms(alloc, arguments, around, locals, least)
        }
        SourceForm::Lambda(_, from, binder, body) => {
            note_open_type(alloc, from, around, least)?;
            note_under(alloc, binder, body, around, locals, least)
        }
        SourceForm::Apply(_, _) => unreachable!(),
        SourceForm::Let(binder, value, body) => {
            note_term(alloc, value, around, locals, least)?;
            note_under(alloc, binder, body, around, locals, least)
        }
        SourceForm::Split(first, second, value, body) => {
            note_term(alloc, value, around, locals, least)?;
            note_under_both(alloc, first, second, body, around, locals, least)
        }
        SourceForm::If(test, yes, no) => {
            note_term(alloc, test, around, locals, least)?;
            note_two(alloc, yes, no, around, locals, least)
        }
        SourceForm::Case(value, arms) => {
            note_term(alloc, value, around, locals, least)?;
            note_cases(alloc, arms, around, locals, least)
        }
        SourceForm::Operate(_, _, _) => unreachable!(),
        SourceForm::Not(body) => note_term(alloc, body, around, locals, least),
        SourceForm::New(w) => note_closed_type(alloc, w, around, least),
        SourceForm::Send(value, channel) => note_two(alloc, value, channel, around, locals, least),
        SourceForm::Receive(channel) => note_term(alloc, channel, around, locals, least),
        SourceForm::Close(channel) => note_term(alloc, channel, around, locals, least),
        SourceForm::Wait(channel) => note_term(alloc, channel, around, locals, least),
        SourceForm::Select(_, channel) => note_term(alloc, channel, around, locals, least),
        SourceForm::Match(channel, arms) => {
            note_term(alloc, channel, around, locals, least)?;
            note_matches(alloc, arms, around, locals, least)
        }
        SourceForm::Fork(body) => note_term(alloc, body, around, locals, least),
        SourceForm::Then(first, second) => note_two(alloc, first, second, around, locals, least),
    }
}

// Notes the faults of the second part of a step, around any first part whose faults were noted.
#[cycle(terms)]
#[tactic(auto, using(fst_scopes::proofs::Laws::first_append))]
fn note_step(
    alloc: Global,
    step: SourceStep<'_>,
    around: &Surroundings<'_>,
    locals: &mut Locals,
    least: &mut Option<NameFault>,
) -> Result<(), AllocError>
    ensures noted { OnOk result ((before : Option NameFault) (t : TermTree) →
        least.old ≡ first_from before (term_faults (surroundings_of around.now) locals.old t) →
        least.new ≡ first_from before
        (term_faults (surroundings_of around.now) locals.old (wrap step.entry t))) }
    ensures kept { OnOk result (locals.new ≡ locals.old) }
{
    match step {
        SourceStep::Operate(_, _, second) => note_term(alloc, second, around, locals, least),
        SourceStep::Apply(_, second) => note_term(alloc, second, around, locals, least),
    }
}

/// Notes the faults of a term under these variables, where this is in scope. Takes no more room than the term's nesting
/// asks for, however long its chains are.
#[cycle(terms)]
pub(crate) fn note_term(
    alloc: Global,
    term: &SourceTerm,
    around: &Surroundings<'_>,
    locals: &mut Locals,
    least: &mut Option<NameFault>,
) -> Result<(), AllocError>
    ensures noted { OnOk result (least.new ≡ first_from least.old
        (term_faults (surroundings_of around.now) locals.old term.now)) }
    ensures kept { OnOk result (locals.new ≡ locals.old) }
{
    let mut spine = source_spine_of(alloc, term)?;
    note_head(alloc, spine.head, around, locals, least)?;
    while let Some(step) = pop_source_step(&mut spine.steps) {
        note_step(alloc, step, around, locals, least)?;
    }
    Ok(())
}
