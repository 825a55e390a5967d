ghost use Rattle.std.specs.Prelude.{◌≡◌, ◌++◌, codes};
ghost use Rattle.fst_types.specs.WrittenTree as written;
ghost use Rattle.fst_types.specs.ModelWrittenView.{written_branches};
ghost use Rattle.fst_base.specs.Gains.{Gains};
ghost use Rattle.fst_type_print.specs.WrittenTexts.{atom_text, is_arrow, is_compound, seq_text, written_branch_texts, written_text};
ghost use Rattle.fst_type_print.specs.Texts.{in_braces, in_parens_if, joined_text, separated_text};

use crate::pieces::{base_text, push_receive, push_send};
use crate::types::arrow_text;
use fst_types::{Written, WrittenBranch, WrittenForm};
use std::alloc::AllocError;

fn is_compound(t: &Written) -> bool
    ensures { result ≡ is_compound t.now }
{
    match &t.form {
        WrittenForm::Skip | WrittenForm::Send(_) | WrittenForm::Receive(_) => false,
        WrittenForm::Close | WrittenForm::Wait => false,
        WrittenForm::Select(_) | WrittenForm::Offer(_) => false,
        WrittenForm::Seq(_, _) | WrittenForm::Rec(_, _) | WrittenForm::Arrow(_, _, _) => true,
        WrittenForm::Named(_) | WrittenForm::Plain(_) | WrittenForm::Pair(_, _) => false,
    }
}

fn is_arrow(t: &Written) -> bool
    ensures { result ≡ is_arrow t.now }
{
    match &t.form {
        WrittenForm::Skip | WrittenForm::Send(_) | WrittenForm::Receive(_) => false,
        WrittenForm::Close | WrittenForm::Wait => false,
        WrittenForm::Select(_) | WrittenForm::Offer(_) => false,
        WrittenForm::Seq(_, _) | WrittenForm::Rec(_, _) => false,
        WrittenForm::Named(_) | WrittenForm::Plain(_) | WrittenForm::Pair(_, _) => false,
        WrittenForm::Arrow(_, _, _) => true,
    }
}

#[cycle(written)]
pub fn push_written(text: &mut String, t: &Written) -> Result<(), AllocError>
    ensures { Gains result text.old text.new (written_text t.now) }
{
    match &t.form {
        WrittenForm::Skip => text.push_str("Skip"),
        WrittenForm::Send(base) => push_send(text, *base),
        WrittenForm::Receive(base) => push_receive(text, *base),
        WrittenForm::Close => text.push_str("Close"),
        WrittenForm::Wait => text.push_str("Wait"),
        WrittenForm::Select(branches) => push_choice(text, "+", branches),
        WrittenForm::Offer(branches) => push_choice(text, "&", branches),
        WrittenForm::Seq(first, second) => {
            push_atom(text, first)?;
            text.push_str(";")?;
            push_seq(text, second)
        }
        WrittenForm::Rec(name, body) => {
            text.push_str("rec ")?;
            text.push_str(name.as_str())?;
            text.push_str(". ")?;
            push_seq(text, body)
        }
        WrittenForm::Named(name) => text.push_str(name.as_str()),
        WrittenForm::Plain(base) => text.push_str(base_text(*base)),
        WrittenForm::Arrow(uses, from, to) => {
            push_seq(text, from)?;
            text.push_str(arrow_text(*uses))?;
            push_written(text, to)
        }
        WrittenForm::Pair(first, second) => push_pair(text, first, second),
    }
}

/// A type where an atomic one stands without parentheses.
#[cycle(written)]
pub fn push_atom(text: &mut String, t: &Written) -> Result<(), AllocError>
    ensures { Gains result text.old text.new (atom_text t.now) }
{
    push_enclosed(text, t, is_compound(t))
}

/// A type where no function stands without parentheses.
#[cycle(written)]
pub fn push_seq(text: &mut String, t: &Written) -> Result<(), AllocError>
    ensures { Gains result text.old text.new (seq_text t.now) }
{
    push_enclosed(text, t, is_arrow(t))
}

#[cycle(written)]
fn push_enclosed(text: &mut String, t: &Written, in_parens: bool) -> Result<(), AllocError>
    ensures { Gains result text.old text.new (in_parens_if in_parens (written_text t.now)) }
{
    if !in_parens {
        return push_written(text, t);
    }
    text.push_str("(")?;
    push_written(text, t)?;
    text.push_str(")")
}

#[cycle(written)]
fn push_pair(text: &mut String, first: &Written, second: &Written) -> Result<(), AllocError>
    ensures { Gains result text.old text.new (written_text (written.pair 0 first.now second.now)) }
{
    text.push_str("(")?;
    push_written(text, first)?;
    text.push_str(", ")?;
    push_written(text, second)?;
    text.push_str(")")
}

// A choice, whose sign says which side makes it.
#[cycle(written)]
fn push_choice(text: &mut String, sign: &str, branches: &[WrittenBranch]) -> Result<(), AllocError>
    ensures { Gains result text.old text.new
        (sign.now ++ in_braces (joined_text (codes ", ")
        (written_branch_texts (written_branches branches.now)))) }
{
    text.push_str(sign)?;
    text.push_str("{")?;
    push_branches(text, branches)?;
    text.push_str("}")
}

#[cycle(written)]
fn push_branch(text: &mut String, branch: &WrittenBranch) -> Result<(), AllocError>
    ensures { Gains result text.old text.new
        (branch.now.label ++ codes ": " ++ seq_text branch.now.body) }
{
    text.push_str(branch.label.as_str())?;
    text.push_str(": ")?;
    push_seq(text, &branch.body)
}

#[cycle(written)]
fn push_branches(text: &mut String, branches: &[WrittenBranch]) -> Result<(), AllocError>
    ensures { Gains result text.old text.new
        (joined_text (codes ", ") (written_branch_texts (written_branches branches.now))) }
{
    let [first, others @ ..] = branches else {
        return Ok(());
    };
    push_branch(text, first)?;
    push_others(text, others)
}

#[cycle(written)]
#[tactic(auto, using(fst_types::proofs::Laws::written_height_at))]
fn push_others(text: &mut String, others: &[WrittenBranch]) -> Result<(), AllocError>
    ensures { Gains result text.old text.new
        (separated_text (codes ", ") (written_branch_texts (written_branches others.now))) }
{
    for branch in others {
        text.push_str(", ")?;
        push_branch(text, branch)?;
    }
    Ok(())
}
