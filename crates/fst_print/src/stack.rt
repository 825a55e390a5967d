//! What is still to be written of a term, as a stack.

ghost use Rattle.std.specs.Prelude.{◌≡◌, [], ◌+◌, ◌≤◌, ◌++◌, MatchOption, IfSome, OnOk};
ghost use Rattle.fst_print.specs.Unfolds.{Stacks};
ghost use Rattle.fst_print.specs.ModuleTexts.{term_text};
ghost use Rattle.fst_print.specs.Stack.{piece_text, piece_weight, pieces_text, pieces_weight, term_weight};
ghost use Rattle.fst_type_print.specs.Texts.{in_parens_if};

use fst_terms::{SourceArm, SourceTerm};
use std::alloc::AllocError;

/// A part of a term that is still to be written.
#[derive(Clone, Copy)]
pub(crate) enum Piece<'a> {
    /// A text as it is.
    Text(&'a str),
    /// A term without parentheses around it.
    Term(&'a SourceTerm),
    /// The arguments of a constructor, with a space before each.
    Arguments(&'a [SourceTerm]),
    /// Arms, with a comma between each two.
    Arms(&'a [SourceArm]),
    /// Arms, with a comma before each.
    LaterArms(&'a [SourceArm]),
}

/// The pieces of which the last is written first.
pub(crate) type Stack<'a> = Vec<Piece<'a>>;

#[tactic(auto, using(crate::proofs::StackLaws::after_push))]
pub(crate) fn push<'a>(stack: &mut Stack<'a>, piece: Piece<'a>) -> Result<(), AllocError>
    ensures text { Stacks result stack.old stack.new (piece_text piece.entry) }
    ensures weight { OnOk result (pieces_weight stack.new.items ≡ piece_weight piece.entry
        + pieces_weight stack.old.items) }
{
    stack.push(piece)?;
    Ok(())
}

pub(crate) fn pop<'a>(stack: &mut Stack<'a>) -> Option<Piece<'a>>
    ensures text { MatchOption result (pieces_text stack.old.items ≡ [])
        (λ p. pieces_text stack.old.items ≡ piece_text p ++ pieces_text stack.new.items) }
    ensures weight { IfSome result (λ p.
        pieces_weight stack.old.items ≡ piece_weight p + pieces_weight stack.new.items) }
{
    stack.pop()
}

pub(crate) fn push_text<'a>(stack: &mut Stack<'a>, text: &'a str) -> Result<(), AllocError>
    ensures text { Stacks result stack.old stack.new text.now }
    ensures weight { OnOk result (pieces_weight stack.new.items ≡ 1 + pieces_weight
        stack.old.items) }
{
    push(stack, Piece::Text(text))
}

pub(crate) fn push_term<'a>(stack: &mut Stack<'a>, t: &'a SourceTerm) -> Result<(), AllocError>
    ensures text { Stacks result stack.old stack.new (term_text t.now) }
    ensures weight { OnOk result (pieces_weight stack.new.items ≡ term_weight t.now + pieces_weight
        stack.old.items) }
{
    push(stack, Piece::Term(t))
}

/// A term, in parentheses where they are asked for.
pub(crate) fn push_enclosed<'a>(
    stack: &mut Stack<'a>,
    t: &'a SourceTerm,
    in_parens: bool,
) -> Result<(), AllocError>
    ensures text { Stacks result stack.old stack.new (in_parens_if in_parens (term_text t.now)) }
    ensures weight { OnOk result (pieces_weight stack.new.items ≤ 2
        + (term_weight t.now + pieces_weight stack.old.items)) }
{
    if !in_parens {
        return push_term(stack, t);
    }
    push_text(stack, ")")?;
    push_term(stack, t)?;
    push_text(stack, "(")
}
