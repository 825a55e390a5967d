ghost use Rattle.std.specs.Prelude.{◌∷◌, codes};
ghost use Rattle.fst_terms.specs.ModelView.{arms_of, terms_of};
ghost use Rattle.fst_base.specs.Gains.{Gains};
ghost use Rattle.fst_print.specs.Unfolds.{Lightens, Unfolds};
ghost use Rattle.fst_print.specs.ModuleTexts.{arguments_text, arm_texts, term_text};
ghost use Rattle.fst_print.specs.Stack.{arms_weight, piece_text, piece_weight, term_weight, terms_weight};
ghost use Rattle.fst_type_print.specs.Texts.{joined_text, separated_text};

use crate::atoms::{push_named, push_names, push_new};
use crate::forms::{
    unfold_apply, unfold_behind, unfold_choice, unfold_if, unfold_lambda, unfold_let, unfold_make,
    unfold_operate, unfold_pair, unfold_select, unfold_send, unfold_split, unfold_then,
};
use crate::ranks::{is_no_atom, is_no_negation};
use crate::stack::{Piece, Stack, pop, push, push_enclosed, push_term};
use fst_base::push_number;
use fst_terms::{SourceArm, SourceForm, SourceTerm};
use fst_value::{push_quoted, truth_text};
use std::alloc::{AllocError, Global};

fn unfold<'a>(text: &mut String, stack: &mut Stack<'a>, t: &'a SourceTerm) -> Result<(), AllocError>
    ensures same { Unfolds result text.old text.new stack.old stack.new (term_text t.now) }
    ensures less { Lightens result stack.old stack.new (term_weight t.now) }
{
    match &t.form {
        SourceForm::Named(name, types) => push_named(text, name, types),
        SourceForm::Int(n) => push_number(text, *n),
        SourceForm::Bool(b) => text.push_str(truth_text(*b)),
        SourceForm::Char(c) => push_quoted(text, *c),
        SourceForm::Unit => text.push_str("()"),
        SourceForm::Pair(first, second) => unfold_pair(text, stack, first, second),
        SourceForm::Make(name, arguments) => unfold_make(text, stack, name, arguments),
        SourceForm::Lambda(uses, from, binder, body) => unfold_lambda(
            text, stack, *uses, from, binder, body,
        ),
        SourceForm::Apply(function, argument) => unfold_apply(stack, function, argument),
        SourceForm::Let(binder, first, second) => unfold_let(text, stack, binder, first, second),
        SourceForm::Split(left, right, first, second) => unfold_split(
            text, stack, left, right, first, second,
        ),
        SourceForm::If(test, yes, no) => unfold_if(text, stack, test, yes, no),
        SourceForm::Case(value, arms) => unfold_choice(text, stack, "case ", value, " of {", arms),
        SourceForm::Operate(op, left, right) => unfold_operate(stack, *op, left, right),
        SourceForm::Not(t) => unfold_behind(text, stack, "not ", t, is_no_negation(t)),
        SourceForm::New(of) => push_new(text, of),
        SourceForm::Send(value, channel) => unfold_send(text, stack, value, channel),
        SourceForm::Receive(end) => unfold_behind(text, stack, "receive ", end, is_no_atom(end)),
        SourceForm::Close(end) => unfold_behind(text, stack, "close ", end, is_no_atom(end)),
        SourceForm::Wait(end) => unfold_behind(text, stack, "wait ", end, is_no_atom(end)),
        SourceForm::Select(label, channel) => unfold_select(text, stack, label, channel),
        SourceForm::Match(end, arms) => unfold_choice(text, stack, "match ", end, " with {", arms),
        SourceForm::Fork(task) => unfold_behind(text, stack, "fork ", task, is_no_atom(task)),
        SourceForm::Then(first, second) => unfold_then(stack, first, second),
    }
}

fn unfold_arguments<'a>(
    text: &mut String,
    stack: &mut Stack<'a>,
    arguments: &'a [SourceTerm],
) -> Result<(), AllocError>
    ensures same { Unfolds result text.old text.new stack.old stack.new
        (arguments_text (terms_of arguments.now)) }
    ensures less { Lightens result stack.old stack.new (terms_weight (terms_of arguments.now)) }
{
    let [first, others @ ..] = arguments else {
        return Ok(());
    };
    text.push_str(" ")?;
    push(stack, Piece::Arguments(others))?;
    push_enclosed(stack, first, is_no_atom(first))
}

fn unfold_arm<'a>(
    text: &mut String,
    stack: &mut Stack<'a>,
    arm: &'a SourceArm,
    others: &'a [SourceArm],
) -> Result<(), AllocError>
    ensures same { Unfolds result text.old text.new stack.old stack.new
        (joined_text (codes ", ") (arm_texts (arms_of (arm.now ∷ others.now)))) }
    ensures less { Lightens result stack.old stack.new
        (arms_weight (arms_of (arm.now ∷ others.now))) }
{
    text.push_str(arm.label.name.as_str())?;
    push_names(text, &arm.binders)?;
    text.push_str(" -> ")?;
    push(stack, Piece::LaterArms(others))?;
    push_term(stack, &arm.body)
}

fn unfold_arms<'a>(
    text: &mut String,
    stack: &mut Stack<'a>,
    arms: &'a [SourceArm],
) -> Result<(), AllocError>
    ensures same { Unfolds result text.old text.new stack.old stack.new
        (joined_text (codes ", ") (arm_texts (arms_of arms.now))) }
    ensures less { Lightens result stack.old stack.new (arms_weight (arms_of arms.now)) }
{
    let [first, others @ ..] = arms else {
        return Ok(());
    };
    unfold_arm(text, stack, first, others)
}

fn unfold_later_arms<'a>(
    text: &mut String,
    stack: &mut Stack<'a>,
    later: &'a [SourceArm],
) -> Result<(), AllocError>
    ensures same { Unfolds result text.old text.new stack.old stack.new
        (separated_text (codes ", ") (arm_texts (arms_of later.now))) }
    ensures less { Lightens result stack.old stack.new (arms_weight (arms_of later.now)) }
{
    let [first, others @ ..] = later else {
        return Ok(());
    };
    text.push_str(", ")?;
    unfold_arm(text, stack, first, others)
}

fn unfold_piece<'a>(
    text: &mut String,
    stack: &mut Stack<'a>,
    piece: Piece<'a>,
) -> Result<(), AllocError>
    ensures same { Unfolds result text.old text.new stack.old stack.new (piece_text piece.entry) }
    ensures less { Lightens result stack.old stack.new (piece_weight piece.entry) }
{
    match piece {
        Piece::Text(s) => text.push_str(s),
        Piece::Term(t) => unfold(text, stack, t),
        Piece::Arguments(arguments) => unfold_arguments(text, stack, arguments),
        Piece::Arms(arms) => unfold_arms(text, stack, arms),
        Piece::LaterArms(arms) => unfold_later_arms(text, stack, arms),
    }
}

/// Gains the text of a term. What is still to be written stands on a stack in memory, so a term may be very deep.
pub(crate) fn push_term_text(
    alloc: Global,
    text: &mut String,
    t: &SourceTerm,
) -> Result<(), AllocError>
    ensures { Gains result text.old text.new (term_text t.now) }
{
    let mut stack = Vec::new(alloc);
    push_term(&mut stack, t)?;
    while let Some(piece) = pop(&mut stack) {
        unfold_piece(text, &mut stack, piece)?;
    }
    Ok(())
}
