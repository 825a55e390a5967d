ghost use Rattle.std.specs.Prelude.{◌≡◌, ◌++◌, ◌+◌, [], ℕ, IfOk, IsFalse, OnOk, Some, length, map};
ghost use Rattle.fst_terms.specs.SourceAround.{has_first, second, wrap};
ghost use Rattle.fst_terms.specs.TermTree.{TermTree};
ghost use Rattle.fst_term_faults.specs.TermFaults.{term_faults};
ghost use Rattle.fst_term_names.specs.CodeMeanings.{AreAdded, numbers_in, scope_in};
ghost use Rattle.fst_term_names.specs.CoreTerms.{core_term};
ghost use Rattle.fst_term_names.specs.TermTypes.{begins_at, tree_of, written_in};

use crate::core_parts::{core_arms, core_part, core_terms, core_two, core_under, core_under_both};
use crate::meanings::{Meanings, TypeList};
use crate::naming::{add_closed_type, add_open_type, maker_term, name_term};
use fst_locals::Locals;
use fst_terms::{Form, SourceForm, SourceStep, SourceTerm, Term, pop_source_step, source_spine_of};
use std::alloc::{AllocError, Global};

// The term with numbers in place of names, where it is no operation and no application.
#[cycle(core)]
fn core_head(
    alloc: Global,
    head: &SourceTerm,
    meanings: &Meanings<'_>,
    locals: &mut Locals,
    types: &mut TypeList,
) -> Result<Term, AllocError>
    requires head { IsFalse (has_first head.now) }
    requires faultless { term_faults (scope_in meanings.now) locals.old head.now ≡ [] }
    ensures term { IfOk result (λ t. t ≡
        core_term (numbers_in meanings.now) locals.old (length types.old.types.items) head.now) }
    ensures added { OnOk result
        (AreAdded (scope_in meanings.now) (written_in head.now) types.old types.new) }
    ensures kept { OnOk result (locals.new ≡ locals.old) }
{
    let at = head.at;
    match &head.form {
        SourceForm::Named(name, arguments) => {
            name_term(alloc, at, name, arguments, meanings, locals, types)
        }
        SourceForm::Int(value) => Ok(Term {
            at,
            form: Form::Int(*value),
        }),
        SourceForm::Bool(value) => Ok(Term {
            at,
            form: Form::Bool(*value),
        }),
        SourceForm::Char(value) => Ok(Term {
            at,
            form: Form::Char(*value),
        }),
        SourceForm::Unit => Ok(Term {
            at,
            form: Form::Unit,
        }),
        SourceForm::Pair(first, second) => {
            let (first, second) = core_two(alloc, first, second, meanings, locals, types)?;
            Ok(Term {
                at,
                form: Form::Pair(first, second),
            })
        }
        SourceForm::Make(name, arguments) => {
            let made = core_terms(alloc, arguments, meanings, locals, types)?;
            Ok(maker_term(at, name, arguments.len(), made, meanings))
        }
        SourceForm::Lambda(uses, from, binder, body) => {
            let number = add_open_type(alloc, from, meanings, types)?;
            let (binder, body) = core_under(alloc, binder, body, meanings, locals, types)?;
            Ok(Term {
                at,
                form: Form::Lambda(*uses, number, binder, body),
            })
        }
        SourceForm::Apply(_, _) => unreachable!(),
        SourceForm::Let(binder, value, body) => {
            let value = core_part(alloc, value, meanings, locals, types)?;
            let (binder, body) = core_under(alloc, binder, body, meanings, locals, types)?;
            Ok(Term {
                at,
                form: Form::Let(binder, value, body),
            })
        }
        SourceForm::Split(first, second, value, body) => {
            let value = core_part(alloc, value, meanings, locals, types)?;
            let (first, second, body) = core_under_both(
                alloc, first, second, body, meanings, locals, types,
            )?;
            Ok(Term {
                at,
                form: Form::Split(first, second, value, body),
            })
        }
        SourceForm::If(test, yes, no) => {
            let test = core_part(alloc, test, meanings, locals, types)?;
            let (yes, no) = core_two(alloc, yes, no, meanings, locals, types)?;
            Ok(Term {
                at,
                form: Form::If(test, yes, no),
            })
        }
        SourceForm::Case(value, arms) => {
            let value = core_part(alloc, value, meanings, locals, types)?;
            let arms = core_arms(alloc, arms, meanings, locals, types)?;
            Ok(Term {
                at,
                form: Form::Case(value, arms),
            })
        }
        SourceForm::Operate(_, _, _) => unreachable!(),
        SourceForm::Not(body) => {
            let body = core_part(alloc, body, meanings, locals, types)?;
            Ok(Term {
                at,
                form: Form::Not(body),
            })
        }
        SourceForm::New(w) => Ok(Term {
            at,
            form: Form::New(add_closed_type(alloc, w, meanings, types)?),
        }),
        SourceForm::Send(value, channel) => {
            let (value, channel) = core_two(alloc, value, channel, meanings, locals, types)?;
            Ok(Term {
                at,
                form: Form::Send(value, channel),
            })
        }
        SourceForm::Receive(channel) => {
            let channel = core_part(alloc, channel, meanings, locals, types)?;
            Ok(Term {
                at,
                form: Form::Receive(channel),
            })
        }
        SourceForm::Close(channel) => {
            let channel = core_part(alloc, channel, meanings, locals, types)?;
            Ok(Term {
                at,
                form: Form::Close(channel),
            })
        }
        SourceForm::Wait(channel) => {
            let channel = core_part(alloc, channel, meanings, locals, types)?;
            Ok(Term {
                at,
                form: Form::Wait(channel),
            })
        }
        SourceForm::Select(label, channel) => {
            let label = label.copy(alloc)?;
            let channel = core_part(alloc, channel, meanings, locals, types)?;
            Ok(Term {
                at,
                form: Form::Select(label, channel),
            })
        }
        SourceForm::Match(channel, arms) => {
            let channel = core_part(alloc, channel, meanings, locals, types)?;
            let arms = core_arms(alloc, arms, meanings, locals, types)?;
            Ok(Term {
                at,
                form: Form::Match(channel, arms),
            })
        }
        SourceForm::Fork(body) => {
            let body = core_part(alloc, body, meanings, locals, types)?;
            Ok(Term {
                at,
                form: Form::Fork(body),
            })
        }
        SourceForm::Then(first, second) => {
            let (first, second) = core_two(alloc, first, second, meanings, locals, types)?;
            Ok(Term {
                at,
                form: Form::Then(first, second),
            })
        }
    }
}

// The step with numbers in place of names, around any first part whose types stand in front.
#[cycle(core)]
fn core_step(
    alloc: Global,
    step: SourceStep<'_>,
    made: Term,
    meanings: &Meanings<'_>,
    locals: &mut Locals,
    types: &mut TypeList,
) -> Result<Term, AllocError>
    requires { term_faults (scope_in meanings.now) locals.old (second step) ≡ [] }
    ensures term { IfOk result (λ whole. (n : ℕ) (t : TermTree) →
        made ≡ core_term (numbers_in meanings.now) locals.old n t →
        length types.old.types.items ≡ n + length (written_in t) →
        whole ≡ core_term (numbers_in meanings.now) locals.old n (wrap step.entry t)) }
    ensures added { OnOk result
        (AreAdded (scope_in meanings.now) (written_in (second step.entry)) types.old types.new) }
    ensures kept { OnOk result (locals.new ≡ locals.old) }
{
    let first = Box::new(alloc, made)?;
    match step {
        SourceStep::Operate(at, op, second) => {
            let second = core_part(alloc, second, meanings, locals, types)?;
            Ok(Term {
                at,
                form: Form::Operate(op, first, second),
            })
        }
        SourceStep::Apply(at, second) => {
            let second = core_part(alloc, second, meanings, locals, types)?;
            Ok(Term {
                at,
                form: Form::Apply(first, second),
            })
        }
    }
}

/// The term with numbers in place of names, under these variables, where it has no fault of names and sizes. The types in it
/// are put behind the others in order of text.
///
/// Want of memory may come at any time, and comes where a number has more than 32 bits. Takes no more room than the term's
/// nesting asks for, however long its chains are.
#[cycle(core)]
pub(crate) fn core_term(
    alloc: Global,
    term: &SourceTerm,
    meanings: &Meanings<'_>,
    locals: &mut Locals,
    types: &mut TypeList,
) -> Result<Term, AllocError>
    requires faultless { term_faults (scope_in meanings.now) locals.old term.now ≡ [] }
    ensures term { IfOk result (λ t. t ≡
        core_term (numbers_in meanings.now) locals.old (length types.old.types.items) term.now) }
    ensures types { OnOk result (map Some types.new.types.items ≡ map Some types.old.types.items ++
        map (tree_of (scope_in meanings.now)) (written_in term.now)) }
    ensures places { OnOk result (types.new.places.items ≡ types.old.places.items ++
        map begins_at (written_in term.now)) }
    ensures kept { OnOk result (locals.new ≡ locals.old) }
{
    let mut spine = source_spine_of(alloc, term)?;
    let mut made = core_head(alloc, spine.head, meanings, locals, types)?;
    while let Some(step) = pop_source_step(&mut spine.steps) {
        made = core_step(alloc, step, made, meanings, locals, types)?;
    }
    Ok(made)
}
