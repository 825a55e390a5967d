//! Whether words perform the same letters.

ghost use Rattle.std.specs.Prelude.{◌≡◌, ◌↔◌, ◌<◌, ◌++◌, IsTrue, length, option_map};
ghost use Rattle.fst_words.specs.Ordered.{AreOrdered};
ghost use Rattle.fst_words.specs.Words.{WordBelow, row_of, step, first_row};
ghost use Rattle.fst_basis.specs.Basis.{IsPair, same_letters};

use crate::proof::Pair;
use fst_words::{Grammar, Rule};

/// The rules of a non-terminal.
pub(crate) fn row_of(g: &Grammar, n: usize) -> &[Rule]
    requires { n < length g.now.rules.items }
    ensures row { result.now ≡ row_of g.now.rules.items n }
    ensures ordered { AreOrdered result.now }
{
    g.rules[n].as_slice()
}

/// The rules of a word's first non-terminal, by which it moves.
pub(crate) fn first_row<'a>(g: &'a Grammar, word: &[u32]) -> &'a [Rule]
    requires { WordBelow (length g.now.rules.items) word.now }
    ensures row { result.now ≡ first_row g.now.rules.items word.now }
    ensures ordered { AreOrdered result.now }
{
    match word.first() {
        None => &[],
        Some(n) => row_of(g, *n as usize),
    }
}

/// What a word becomes by a letter: the word of the rule, and what stands behind the first non-terminal.
pub(crate) fn parts_after<'a>(
    g: &'a Grammar,
    word: &'a [u32],
    letter: u32,
) -> Option<(&'a [u32], &'a [u32])>
    requires { WordBelow (length g.now.rules.items) word.now }
    ensures { option_map (λ p. p.0.now ++ p.1.now) result ≡ step g.now.rules.items word.now letter }
{
    let (first, rest) = word.split_first()?;
    let next = g.rules[*first as usize].word_for(letter)?;
    Some((next.as_slice(), rest))
}

/// Whether rules have the same letters, one after the other.
#[tactic(auto, using(crate::proofs::LetterLaws::longer_right))]
pub fn same_letters(left: &[Rule], right: &[Rule]) -> bool
    ensures { result ≡ same_letters left.now right.now }
{
    for (i, rule) in left.iter().enumerate() {
        if i >= right.len() || rule.letter != right[i].letter {
            return false;
        }
    }
    if left.len() < right.len() {
        return false;
    }
    true
}

/// Whether both words of a pair have a non-terminal, and perform the same letters.
#[tactic(auto, using(crate::proofs::LetterLaws::pair_told))]
pub(crate) fn is_pair(g: &Grammar, b: &Pair) -> bool
    requires left { WordBelow (length g.now.rules.items) b.now.left }
    requires right { WordBelow (length g.now.rules.items) b.now.right }
    ensures { IsTrue result ↔ IsPair g.now.rules.items b.now }
{
    let left = b.left.as_slice();
    let right = b.right.as_slice();
    if left.is_empty() {
        return false;
    }
    if right.is_empty() {
        return false;
    }
    same_letters(first_row(g, left), first_row(g, right))
}
