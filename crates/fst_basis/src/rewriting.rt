//! Words, one rewrite after the other.

ghost use Rattle.std.specs.Prelude.{◌≡◌, ◌++◌, ◌∷◌, ◌↔◌, ◌≤◌, [], ℕ, List, IfOk, IfSome, IfNone, IsTrue, OnOk, Some, None, false, length, min, nat_eq, reverse, true};
ghost use Rattle.std.specs.List.{starts_with};
ghost use Rattle.fst_words.specs.Marks.{is_marked};
ghost use Rattle.fst_basis.specs.Rewrites.{chained, is_marked_at, replaced, rewritten};
ghost use Rattle.fst_basis.specs.declared.proof.Rewrite.TheVariants.{Cut, Grow};
ghost use Rattle.fst_basis.specs.Parted.{word_of};

use crate::proof::{Pair, Rewrite};
use fst_words::{Word, push_word};
use std::alloc::{AllocError, Global};

/// A word in two parts: the non-terminals in front of a place, and those behind it, the first one last. So a rewrite takes the way from
/// the place of the rewrite before, and what it takes off and puts there.
#[derive(Drop)]
pub(crate) struct Parted {
    pub(crate) front: Vec<u32>,
    pub(crate) back: Vec<u32>,
}

/// How many non-terminals a word may have between two rewrites. A chain of a few bytes a rewrite can let a word grow without end.
const MOST_LETTERS: usize = 1 << 24;

// Puts a word behind the place, in front of what stands there. A word over the limit wants memory.
fn put(word: &mut Parted, y: &[u32]) -> Result<(), AllocError>
    ensures front { OnOk result (word.new.front ≡ word.old.front) }
    ensures back { OnOk result (reverse word.new.back.items ≡
        y.now ++ reverse word.old.back.items) }
{
    let letters = word.front.len().saturating_add(word.back.len());
    if letters.saturating_add(y.len()) > MOST_LETTERS {
        return Err(AllocError);
    }
    push_word(&mut word.back, y)
}

// Takes a word off the front of what stands behind the place, if it stands there.
fn take(back: &mut Vec<u32>, word: &[u32]) -> bool
    ensures taken { result ≡ true → reverse back.old.items ≡ word.now ++ reverse back.new.items }
    ensures none { result ≡ false → starts_with nat_eq (reverse back.old.items) word.now ≡ false }
{
    for n in word {
        if back.pop() != Some(*n) {
            return false;
        }
    }
    true
}

// Goes to a place, or to the end of a shorter word.
fn seek(word: &mut Parted, at: usize) -> Result<(), AllocError>
    ensures same { OnOk result (word_of word.new ≡ word_of word.old) }
    ensures place { OnOk result (length word.new.front.items ≡ min at (length (word_of word.old))) }
{
    while word.front.len() > at {
        let Some(n) = word.front.pop() else {
            return Ok(());
        };
        word.back.push(n)?;
    }
    while word.front.len() < at {
        let Some(n) = word.back.pop() else {
            return Ok(());
        };
        word.front.push(n)?;
    }
    Ok(())
}

// Puts `y` in the place of `x`, which stands at this place, or says that it doesn't.
fn replace(word: &mut Parted, at: u64, x: &[u32], y: &[u32]) -> Result<bool, AllocError>
    ensures made { IfOk result (λ b. b ≡ true →
        replaced at x.now y.now (word_of word.old) ≡ Some (word_of word.new)) }
    ensures none { IfOk result (λ b. b ≡ false →
        replaced at x.now y.now (word_of word.old) ≡ None) }
{
    let at = at as usize;
    seek(word, at)?;
    if word.front.len() < at || !take(&mut word.back, x) {
        return Ok(false);
    }
    put(word, y)?;
    Ok(true)
}

// Whether a non-terminal is marked.
fn is_marked(marks: &[bool], n: u32) -> bool
    ensures { result ≡ is_marked marks.now n }
{
    (n as usize) < marks.len() && marks[n as usize]
}

// The marked non-terminal at this place, which is taken off, or none where no such one stands there.
fn take_marked(word: &mut Parted, marks: &[bool], at: u64) -> Result<Option<u32>, AllocError>
    ensures some { IfOk result (λ o. IfSome o (λ n. (word_of word.old ≡ word.new.front.items ++ n ∷
        reverse word.new.back.items) × (length word.new.front.items ≡ at) ×
        (is_marked marks.now n ≡ true))) }
    ensures none { IfOk result (λ o. IfNone o (is_marked_at marks.now (word_of word.old) at ≡
        false)) }
{
    let at = at as usize;
    seek(word, at)?;
    if word.front.len() < at {
        return Ok(None);
    }
    let Some(n) = word.back.pop() else {
        return Ok(None);
    };
    if !is_marked(marks, n) {
        return Ok(None);
    }
    Ok(Some(n))
}

// Makes a rewrite, or says that it can't be made.
fn rewrite(
    word: &mut Parted,
    marks: &[bool],
    basis: &[Pair],
    rewrite: &Rewrite,
) -> Result<bool, AllocError>
    ensures made { IfOk result (λ b. b ≡ true →
        rewritten marks.now basis.now rewrite.now (word_of word.old) ≡ Some (word_of word.new)) }
    ensures none { IfOk result (λ b. b ≡ false →
        rewritten marks.now basis.now rewrite.now (word_of word.old) ≡ None) }
{
    match rewrite {
        Rewrite::Forth { at, pair } => match basis.get(*pair as usize) {
            None => Ok(false),
            Some(b) => replace(word, *at, b.left.as_slice(), b.right.as_slice()),
        },
        Rewrite::Back { at, pair } => match basis.get(*pair as usize) {
            None => Ok(false),
            Some(b) => replace(word, *at, b.right.as_slice(), b.left.as_slice()),
        },
        Rewrite::Cut { at, tail } => cut(word, marks, *at, tail.as_slice()),
        Rewrite::Grow { at, tail } => grow(word, marks, *at, tail.as_slice()),
    }
}

// Cuts off this word, which is all that stands behind the marked non-terminal at this place, or says that it can't be done.
fn cut(word: &mut Parted, marks: &[bool], at: u64, tail: &[u32]) -> Result<bool, AllocError>
    ensures made { IfOk result (λ b. b ≡ true → rewritten marks.now [] (Cut at tail.now)
        (word_of word.old) ≡ Some (word_of word.new)) }
    ensures none { IfOk result (λ b. b ≡ false → rewritten marks.now [] (Cut at tail.now)
        (word_of word.old) ≡ None) }
{
    let Some(n) = take_marked(word, marks, at)? else {
        return Ok(false);
    };
    if !take(&mut word.back, tail) || !word.back.is_empty() {
        return Ok(false);
    }
    word.back.push(n)?;
    Ok(true)
}

// Puts this word behind the last non-terminal, which is marked and stands at this place, or says that it can't be done.
fn grow(word: &mut Parted, marks: &[bool], at: u64, tail: &[u32]) -> Result<bool, AllocError>
    ensures made { IfOk result (λ b. b ≡ true → rewritten marks.now [] (Grow at tail.now)
        (word_of word.old) ≡ Some (word_of word.new)) }
    ensures none { IfOk result (λ b. b ≡ false → rewritten marks.now [] (Grow at tail.now)
        (word_of word.old) ≡ None) }
{
    let Some(n) = take_marked(word, marks, at)? else {
        return Ok(false);
    };
    if !word.back.is_empty() {
        return Ok(false);
    }
    put(word, tail)?;
    word.back.push(n)?;
    Ok(true)
}

/// Whether the rewrites lead from the word to the second word with the third one behind it.
pub(crate) fn joins(
    alloc: Global,
    marks: &[bool],
    basis: &[Pair],
    chain: &[Rewrite],
    from: Word,
    to: &[u32],
    rest: &[u32],
) -> Result<bool, AllocError>
    ensures { IfOk result (λ b. IsTrue b ↔
        (chained marks.now basis.now chain.now from ≡ Some (to.now ++ rest.now))) }
{
    let mut word = Parted {
        front: from.into_vec(),
        back: Vec::new(alloc),
    };
    for step in chain {
        if !rewrite(&mut word, marks, basis, step)? {
            return Ok(false);
        }
    }
    word.back.reverse();
    word.front.append(&mut word.back)?;
    Ok(is_concat(&word.front, to, rest))
}

// Whether a word is the first of two with the second behind it.
fn is_concat(word: &[u32], first: &[u32], second: &[u32]) -> bool
    ensures { IsTrue result ↔ (word.now ≡ first.now ++ second.now) }
{
    match word.strip_prefix(first) {
        None => false,
        Some(rest) => rest == second,
    }
}
