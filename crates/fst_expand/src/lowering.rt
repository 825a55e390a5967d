//! Steps that lower norms.

ghost use Rattle.std.specs.Prelude.{◌≡◌, ◌<◌, [], ◌∷◌, All, IfOk, OnOk, length, reverse};
ghost use Rattle.fst_words.specs.Words.{WordBelow};
ghost use Rattle.fst_norms.specs.Lowering.{lower, lowered};

use fst_norms::lowered_to;
use fst_words::{Word, push_word};
use std::alloc::{AllocError, Global};

// Lowers the head of the word on a stack.
fn lower(words: &[Word], stack: &mut Vec<u32>) -> Result<(), AllocError>
    requires range { WordBelow (length words.now) (reverse stack.old.items) }
    requires words { All (WordBelow (length words.now)) words.now }
    ensures lower { OnOk result (reverse stack.new.items ≡ lower words.now
        (reverse stack.old.items)) }
    ensures range { OnOk result (WordBelow (length words.now) (reverse stack.new.items)) }
{
    let Some(head) = stack.pop() else {
        return Ok(());
    };
    push_word(stack, lowered_to(words, head))?;
    Ok(())
}

/// What a non-terminal becomes by so many steps that lower its norm.
pub(crate) fn lowered(
    alloc: Global,
    words: &[Word],
    number: u32,
    steps: u64,
) -> Result<Vec<u32>, AllocError>
    requires number { number < length words.now }
    requires words { All (WordBelow (length words.now)) words.now }
    ensures lowered { IfOk result (λ w. w.items ≡ lowered words.now steps (number ∷ [])) }
    ensures range { IfOk result (λ w. WordBelow (length words.now) w.items) }
{
    let mut stack = Vec::new(alloc);
    stack.push(number)?;
    for _step in 0..steps {
        lower(words, &mut stack)?;
    }
    stack.reverse();
    Ok(stack)
}
