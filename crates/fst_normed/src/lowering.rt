//! What non-terminals become by steps that lower their norms.

ghost use Rattle.std.specs.Prelude.{◌≡◌, ◌<◌, [], ◌∷◌, All, IfOk, length, reverse};
ghost use Rattle.fst_words.specs.Words.{WordBelow};
ghost use Rattle.fst_norms.specs.Lowering.{LowerByOne, lowered};
ghost use Rattle.fst_normed.specs.Candidates.{residual};

use fst_norms::{lowered_to, norm_of};
use fst_words::{Word, push_word};
use std::alloc::{AllocError, Global};

// Drops the head of the word on a stack where its norm is at most the steps that are left, and lowers it by a step otherwise; gives how
// many steps are left then.
fn lower_head(
    norms: &[Option<u64>],
    words: &[Word],
    stack: &mut Vec<u32>,
    head: u32,
    steps: u64,
) -> Result<u64, AllocError>
    requires head { head < length words.now }
    requires stack { WordBelow (length words.now) (reverse stack.old.items) }
    requires words { All (WordBelow (length words.now)) words.now }
    requires count { length norms.now ≡ length words.now }
    requires lowering { LowerByOne norms.now words.now }
    requires steps { 0 < steps }
    ensures lowered { IfOk result (λ rest. lowered words.now rest
        (reverse stack.new.items) ≡ lowered words.now steps (head ∷ reverse stack.old.items)) }
    ensures range { IfOk result (λ rest. WordBelow (length words.now) (reverse stack.new.items)) }
    ensures less { IfOk result (λ rest. rest < steps) }
{
    let norm = norm_of(norms, head);
    if norm <= steps {
        return Ok(steps - norm);
    }
    push_word(stack, lowered_to(words, head))?;
    Ok(steps - 1)
}

// Does so with the head on the stack, if there is one; else no step is left.
#[tactic(auto, using(crate::proofs::LowerLaws::lowered_nothing))]
fn lower(
    norms: &[Option<u64>],
    words: &[Word],
    stack: &mut Vec<u32>,
    steps: u64,
) -> Result<u64, AllocError>
    requires stack { WordBelow (length words.now) (reverse stack.old.items) }
    requires words { All (WordBelow (length words.now)) words.now }
    requires count { length norms.now ≡ length words.now }
    requires lowering { LowerByOne norms.now words.now }
    requires steps { 0 < steps }
    ensures lowered { IfOk result (λ rest. lowered words.now rest
        (reverse stack.new.items) ≡ lowered words.now steps (reverse stack.old.items)) }
    ensures range { IfOk result (λ rest. WordBelow (length words.now) (reverse stack.new.items)) }
    ensures less { IfOk result (λ rest. rest < steps) }
{
    let Some(head) = stack.pop() else {
        return Ok(0);
    };
    let rest = lower_head(norms, words, stack, head, steps)?;
    Ok(rest)
}

/// What a non-terminal becomes by so many steps that lower its norm.
pub(crate) fn lowered(
    alloc: Global,
    norms: &[Option<u64>],
    words: &[Word],
    number: u32,
    steps: u64,
) -> Result<Vec<u32>, AllocError>
    requires number { number < length words.now }
    requires words { All (WordBelow (length words.now)) words.now }
    requires count { length norms.now ≡ length words.now }
    requires lowering { LowerByOne norms.now words.now }
    ensures lowered { IfOk result (λ w. w.items ≡ lowered words.now steps (number ∷ [])) }
    ensures range { IfOk result (λ w. WordBelow (length words.now) w.items) }
{
    let mut stack = Vec::new(alloc);
    stack.push(number)?;
    let mut rest = steps;
    while rest > 0 {
        rest = lower(norms, words, &mut stack, rest)?;
    }
    stack.reverse();
    Ok(stack)
}

/// What Y becomes by as many steps that lower its norm as the norm of X is.
pub(crate) fn residual(
    alloc: Global,
    norms: &[Option<u64>],
    words: &[Word],
    x: u32,
    y: u32,
) -> Result<Vec<u32>, AllocError>
    requires x { x < length words.now }
    requires y { y < length words.now }
    requires words { All (WordBelow (length words.now)) words.now }
    requires count { length norms.now ≡ length words.now }
    requires lowering { LowerByOne norms.now words.now }
    ensures residual { IfOk result (λ w. w.items ≡ residual norms.now words.now x y) }
    ensures range { IfOk result (λ w. WordBelow (length words.now) w.items) }
{
    lowered(alloc, norms, words, y, norm_of(norms, x))
}
