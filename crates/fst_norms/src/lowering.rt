//! Steps that lower norms, and grammars whose non-terminals all have norms.

ghost use Rattle.std.specs.Prelude.{◌≡◌, ◌<◌, ◌↔◌, [], All, IfOk, IsTrue, length};
ghost use Rattle.fst_words.specs.Words.{InRange, WordBelow, row_of};
ghost use Rattle.fst_norms.specs.Bounds.{AreAllBelow, bound_at, norm_of};
ghost use Rattle.fst_norms.specs.Norms.{IsNormed};
ghost use Rattle.fst_norms.specs.Lowering.{AreLowering, has_norm, lowered_to, lowering, word_of_norm};

use crate::bounds::weight;
use crate::rounds::norms;
use fst_base::GREATEST_NORM;
use fst_words::{Grammar, Rule, Word};
use std::alloc::{AllocError, Global};

// Whether each non-terminal of the word has a norm, and this is their sum.
fn has_norm(norms: &[Option<u64>], norm: u64, word: &[u32]) -> bool
    requires { WordBelow (length norms.now) word.now }
    ensures { result ≡ has_norm norms.now norm word.now }
{
    let mut rest = norm;
    for n in word {
        let Some(k) = norms[*n as usize] else {
            return false;
        };
        if k > rest {
            return false;
        }
        rest -= k;
    }
    rest == 0
}

// The word of the first rule whose word has this norm.
fn word_of_norm<'a>(norms: &[Option<u64>], norm: u64, rules: &'a [Rule]) -> &'a [u32]
    requires { All (λ r. WordBelow (length norms.now) r.word) rules.now }
    ensures { result.now ≡ word_of_norm norms.now norm rules.now }
{
    for rule in rules {
        if has_norm(norms, norm, rule.word.as_slice()) {
            return rule.word.as_slice();
        }
    }
    &[]
}

// What a non-terminal with this norm becomes by the least letter that lowers the norm.
fn lowering<'a>(norms: &[Option<u64>], rules: &'a [Rule], norm: Option<u64>) -> &'a [u32]
    requires { All (λ r. WordBelow (length norms.now) r.word) rules.now }
    ensures { result.now ≡ lowering norms.now rules.now norm }
{
    match norm {
        None => &[],
        Some(k) => word_of_norm(norms, k.saturating_sub(1), rules),
    }
}

// What a non-terminal becomes by the least letter that lowers its norm.
fn lowering_word(
    alloc: Global,
    g: &Grammar,
    norms: &[Option<u64>],
    n: usize,
) -> Result<Word, AllocError>
    requires range { InRange g.now.rules.items }
    requires count { length norms.now ≡ length g.now.rules.items }
    requires within { n < length g.now.rules.items }
    ensures { IfOk result (λ w. w ≡ lowering norms.now (row_of g.now.rules.items n)
        (bound_at norms.now n)) }
{
    let word = Word::of(alloc, lowering(norms, g.rules[n].as_slice(), norms[n]))?;
    Ok(word)
}

/// What each non-terminal becomes by the least letter that lowers its norm: an empty word where it has none.
pub fn lowering_words(
    alloc: Global,
    g: &Grammar,
    norms: &[Option<u64>],
) -> Result<Vec<Word>, AllocError>
    requires range { InRange g.now.rules.items }
    requires count { length norms.now ≡ length g.now.rules.items }
    ensures lowering { IfOk result (λ words. AreLowering g.now.rules.items norms.now words.items) }
    ensures range { IfOk result (λ words. All (WordBelow (length g.now.rules.items)) words.items) }
{
    let mut words = Vec::new(alloc);
    for n in 0..g.rules.len() {
        words.push(lowering_word(alloc, g, norms, n)?)?;
    }
    Ok(words)
}

/// What a non-terminal becomes, of these words by number.
pub fn lowered_to(words: &[Word], n: u32) -> &[u32]
    requires { n < length words.now }
    ensures { result.now ≡ lowered_to words.now n }
{
    words[n as usize].as_slice()
}

/// The norm of a non-terminal.
pub fn norm_of(norms: &[Option<u64>], n: u32) -> u64
    requires { n < length norms.now }
    ensures { result ≡ norm_of norms.now n }
{
    norms[n as usize].unwrap_or(0)
}

/// Whether all non-terminals have norms below 2^63.
pub fn is_normed(alloc: Global, g: &Grammar) -> Result<bool, AllocError>
    requires { InRange g.now.rules.items }
    ensures { IfOk result (λ b. IsTrue b ↔ IsNormed g.now.rules.items) }
{
    let norms = norms(alloc, g)?;
    Ok(all_normed(&norms))
}

// Whether all of these norms are there, and below 2^63.
fn all_normed(norms: &[Option<u64>]) -> bool
    ensures { IsTrue result ↔ AreAllBelow norms.now }
{
    for norm in norms {
        if weight(*norm) >= GREATEST_NORM {
            return false;
        }
    }
    true
}
