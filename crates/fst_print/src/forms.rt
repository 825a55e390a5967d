//! Terms by the form at their top: how each begins is written, and its parts go on the stack.

ghost use Rattle.std.specs.Prelude.{◌++◌, ◌+◌, codes};
ghost use Rattle.fst_terms.specs.TermTree as tree;
ghost use Rattle.fst_terms.specs.ModelView.{arms_of, terms_of};
ghost use Rattle.fst_print.specs.Unfolds.{Lightens, Stacks, Unfolds};
ghost use Rattle.fst_print.specs.ModuleTexts.{arm_texts, term_text};
ghost use Rattle.fst_print.specs.Stack.{arms_weight, form_weight, term_weight};
ghost use Rattle.fst_type_print.specs.Texts.{in_parens_if, joined_text};

use crate::ranks::{is_no_atom, is_no_chain, is_no_head, is_no_left, is_no_right, op_text};
use crate::stack::{Piece, Stack, push, push_enclosed, push_term, push_text};
use fst_terms::{Binder, Op, SourceArm, SourceTerm};
use fst_type_print::{arrow_text, push_seq};
use fst_types::{Name, Use, Written};
use std::alloc::AllocError;

pub(crate) fn unfold_pair<'a>(
    text: &mut String,
    stack: &mut Stack<'a>,
    first: &'a SourceTerm,
    second: &'a SourceTerm,
) -> Result<(), AllocError>
    ensures same { Unfolds result text.old text.new stack.old stack.new
        (term_text (tree.pair 0 first.now second.now)) }
    ensures less { Lightens result stack.old stack.new
        (term_weight (tree.pair 0 first.now second.now)) }
{
    text.push_str("(")?;
    push_text(stack, ")")?;
    push_term(stack, second)?;
    push_text(stack, ", ")?;
    push_term(stack, first)
}

pub(crate) fn unfold_make<'a>(
    text: &mut String,
    stack: &mut Stack<'a>,
    name: &Name,
    arguments: &'a [SourceTerm],
) -> Result<(), AllocError>
    ensures same { Unfolds result text.old text.new stack.old stack.new
        (term_text (tree.make 0 name.now (terms_of arguments.now))) }
    ensures less { Lightens result stack.old stack.new
        (term_weight (tree.make 0 name.now (terms_of arguments.now))) }
{
    text.push_str(name.as_str())?;
    push(stack, Piece::Arguments(arguments))
}

pub(crate) fn unfold_lambda<'a>(
    text: &mut String,
    stack: &mut Stack<'a>,
    uses: Use,
    from: &Written,
    binder: &Binder,
    body: &'a SourceTerm,
) -> Result<(), AllocError>
    ensures same { Unfolds result text.old text.new stack.old stack.new
        (term_text (tree.lambda 0 uses from.now binder.now body.now)) }
    ensures less { Lightens result stack.old stack.new
        (term_weight (tree.lambda 0 uses from.now binder.now body.now)) }
{
    text.push_str("\\")?;
    text.push_str(binder.name.as_str())?;
    text.push_str(":")?;
    push_seq(text, from)?;
    text.push_str(arrow_text(uses))?;
    push_term(stack, body)
}

pub(crate) fn unfold_let<'a>(
    text: &mut String,
    stack: &mut Stack<'a>,
    binder: &Binder,
    first: &'a SourceTerm,
    second: &'a SourceTerm,
) -> Result<(), AllocError>
    ensures same { Unfolds result text.old text.new stack.old stack.new
        (term_text (tree.let_in 0 binder.now first.now second.now)) }
    ensures less { Lightens result stack.old stack.new
        (term_weight (tree.let_in 0 binder.now first.now second.now)) }
{
    text.push_str("let ")?;
    text.push_str(binder.name.as_str())?;
    text.push_str(" = ")?;
    push_term(stack, second)?;
    push_text(stack, " in ")?;
    push_term(stack, first)
}

pub(crate) fn unfold_split<'a>(
    text: &mut String,
    stack: &mut Stack<'a>,
    left: &Binder,
    right: &Binder,
    first: &'a SourceTerm,
    second: &'a SourceTerm,
) -> Result<(), AllocError>
    ensures same { Unfolds result text.old text.new stack.old stack.new
        (term_text (tree.split 0 left.now right.now first.now second.now)) }
    ensures less { Lightens result stack.old stack.new
        (term_weight (tree.split 0 left.now right.now first.now second.now)) }
{
    text.push_str("let (")?;
    text.push_str(left.name.as_str())?;
    text.push_str(", ")?;
    text.push_str(right.name.as_str())?;
    text.push_str(") = ")?;
    push_term(stack, second)?;
    push_text(stack, " in ")?;
    push_term(stack, first)
}

pub(crate) fn unfold_if<'a>(
    text: &mut String,
    stack: &mut Stack<'a>,
    test: &'a SourceTerm,
    yes: &'a SourceTerm,
    no: &'a SourceTerm,
) -> Result<(), AllocError>
    ensures same { Unfolds result text.old text.new stack.old stack.new
        (term_text (tree.if_else 0 test.now yes.now no.now)) }
    ensures less { Lightens result stack.old stack.new
        (term_weight (tree.if_else 0 test.now yes.now no.now)) }
{
    text.push_str("if ")?;
    push_term(stack, no)?;
    push_text(stack, " else ")?;
    push_term(stack, yes)?;
    push_text(stack, " then ")?;
    push_term(stack, test)
}

// A word, a term, another word, and arms in braces.
pub(crate) fn unfold_choice<'a>(
    text: &mut String,
    stack: &mut Stack<'a>,
    word: &str,
    value: &'a SourceTerm,
    behind: &'a str,
    arms: &'a [SourceArm],
) -> Result<(), AllocError>
    ensures same { Unfolds result text.old text.new stack.old stack.new
        (word.now ++ term_text value.now ++ behind.now ++ joined_text (codes ", ")
        (arm_texts (arms_of arms.now)) ++ codes "}") }
    ensures less { Lightens result stack.old stack.new
        (form_weight + (term_weight value.now + arms_weight (arms_of arms.now))) }
{
    text.push_str(word)?;
    push_text(stack, "}")?;
    push(stack, Piece::Arms(arms))?;
    push_text(stack, behind)?;
    push_term(stack, value)
}

pub(crate) fn unfold_send<'a>(
    text: &mut String,
    stack: &mut Stack<'a>,
    value: &'a SourceTerm,
    channel: &'a SourceTerm,
) -> Result<(), AllocError>
    ensures same { Unfolds result text.old text.new stack.old stack.new
        (term_text (tree.send 0 value.now channel.now)) }
    ensures less { Lightens result stack.old stack.new
        (term_weight (tree.send 0 value.now channel.now)) }
{
    text.push_str("send ")?;
    push_enclosed(stack, channel, is_no_atom(channel))?;
    push_text(stack, " ")?;
    push_enclosed(stack, value, is_no_atom(value))
}

pub(crate) fn unfold_select<'a>(
    text: &mut String,
    stack: &mut Stack<'a>,
    label: &Name,
    channel: &'a SourceTerm,
) -> Result<(), AllocError>
    ensures same { Unfolds result text.old text.new stack.old stack.new
        (term_text (tree.select 0 label.now channel.now)) }
    ensures less { Lightens result stack.old stack.new
        (term_weight (tree.select 0 label.now channel.now)) }
{
    text.push_str("select ")?;
    text.push_str(label.as_str())?;
    text.push_str(" ")?;
    push_enclosed(stack, channel, is_no_atom(channel))
}

// A word, and the operand behind it.
pub(crate) fn unfold_behind<'a>(
    text: &mut String,
    stack: &mut Stack<'a>,
    word: &str,
    t: &'a SourceTerm,
    in_parens: bool,
) -> Result<(), AllocError>
    ensures same { Unfolds result text.old text.new stack.old stack.new
        (word.now ++ in_parens_if in_parens (term_text t.now)) }
    ensures less { Lightens result stack.old stack.new (form_weight + term_weight t.now) }
{
    text.push_str(word)?;
    push_enclosed(stack, t, in_parens)
}

pub(crate) fn unfold_apply<'a>(
    stack: &mut Stack<'a>,
    function: &'a SourceTerm,
    argument: &'a SourceTerm,
) -> Result<(), AllocError>
    ensures same { Stacks result stack.old stack.new
        (term_text (tree.apply 0 function.now argument.now)) }
    ensures less { Lightens result stack.old stack.new
        (term_weight (tree.apply 0 function.now argument.now)) }
{
    push_enclosed(stack, argument, is_no_atom(argument))?;
    push_text(stack, " ")?;
    push_enclosed(stack, function, is_no_head(function))
}

pub(crate) fn unfold_operate<'a>(
    stack: &mut Stack<'a>,
    op: Op,
    left: &'a SourceTerm,
    right: &'a SourceTerm,
) -> Result<(), AllocError>
    ensures same { Stacks result stack.old stack.new
        (term_text (tree.operate 0 op left.now right.now)) }
    ensures less { Lightens result stack.old stack.new
        (term_weight (tree.operate 0 op left.now right.now)) }
{
    push_enclosed(stack, right, is_no_right(op, right))?;
    push_text(stack, " ")?;
    push_text(stack, op_text(op))?;
    push_text(stack, " ")?;
    push_enclosed(stack, left, is_no_left(op, left))
}

pub(crate) fn unfold_then<'a>(
    stack: &mut Stack<'a>,
    first: &'a SourceTerm,
    next: &'a SourceTerm,
) -> Result<(), AllocError>
    ensures same { Stacks result stack.old stack.new (term_text (tree.seq 0 first.now next.now)) }
    ensures less { Lightens result stack.old stack.new
        (term_weight (tree.seq 0 first.now next.now)) }
{
    push_term(stack, next)?;
    push_text(stack, "; ")?;
    push_enclosed(stack, first, is_no_chain(first))
}
