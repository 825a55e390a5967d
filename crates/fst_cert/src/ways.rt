//! Chains of up to three rewrites: by a pair of the basis, with what pruning cuts off in front of that and behind it.

ghost use Rattle.std.specs.Prelude.{◌≡◌, ◌+◌, ◌<◌, ◌^◌, Bool, List, ℕ, All, IfNone, IfOk, IfSome, OnOk, Some, drop, length, slice_get};
ghost use Rattle.fst_words.specs.Words.{WordBelow};
ghost use Rattle.fst_norms.specs.Pruned.{pruned_word};
ghost use Rattle.fst_basis.specs.declared.proof.Pair.{Pair};
ghost use Rattle.fst_basis.specs.Basis.{IsRewriteBelow};
ghost use Rattle.fst_expand.specs.Bridge.{IsWay};
ghost use Rattle.fst_cert.specs.Visited.{AreLinked, IsCutAt, LeadOn, StayBelow, pair_of};

use crate::places::Places;
use fst_basis::{Chain, Rewrite};
use fst_words::{Word, first_marked};
use std::alloc::{AllocError, Global};

// The place of a word's first marked non-terminal, if something stands behind that.
fn cut_place(marks: &[bool], word: &[u32]) -> Option<usize>
    requires { WordBelow (length marks.now) word.now }
    ensures none { IfNone result (pruned_word marks.now word.now ≡ word.now) }
    ensures some { IfSome result (IsCutAt marks.now word.now) }
{
    let at = first_marked(marks, word)?;
    if at + 1 < word.len() { Some(at) } else { None }
}

// The word up to its first marked non-terminal.
fn pruned<'a>(marks: &[bool], word: &'a [u32]) -> &'a [u32]
    requires { WordBelow (length marks.now) word.now }
    ensures { result.now ≡ pruned_word marks.now word.now }
{
    match cut_place(marks, word) {
        None => word,
        Some(at) => &word[..at + 1],
    }
}

// What stands behind a place of a word.
fn behind(alloc: Global, word: &[u32], at: usize) -> Result<Word, AllocError>
    requires { at < length word.now }
    ensures { IfOk result (λ w. w ≡ drop (at + 1) word.now) }
{
    Word::of(alloc, &word[at + 1..])
}

// Adds the rewrite that cuts off what stands behind the word's first marked non-terminal, if anything does.
fn push_cut(
    alloc: Global,
    steps: &mut Vec<Rewrite>,
    marks: &[bool],
    word: &[u32],
) -> Result<(), AllocError>
    requires { WordBelow (length marks.now) word.now }
    ensures leads { OnOk result ((basis : List Pair) →
        LeadOn marks.now basis steps.old.items steps.new.items word.now
        (pruned_word marks.now word.now)) }
    ensures below { OnOk result (StayBelow word.now steps.old.items steps.new.items) }
{
    let Some(at) = cut_place(marks, word) else {
        return Ok(());
    };
    let tail = behind(alloc, word, at)?;
    steps.push(Rewrite::Cut {
        at: at as u64,
        tail,
    })?;
    Ok(())
}

// Adds the rewrite by which it grows again.
fn push_growth(
    alloc: Global,
    steps: &mut Vec<Rewrite>,
    marks: &[bool],
    word: &[u32],
) -> Result<(), AllocError>
    requires { WordBelow (length marks.now) word.now }
    ensures leads { OnOk result ((basis : List Pair) →
        LeadOn marks.now basis steps.old.items steps.new.items (pruned_word marks.now word.now)
        word.now) }
    ensures below { OnOk result (StayBelow word.now steps.old.items steps.new.items) }
{
    let Some(at) = cut_place(marks, word) else {
        return Ok(());
    };
    let tail = behind(alloc, word, at)?;
    steps.push(Rewrite::Grow {
        at: at as u64,
        tail,
    })?;
    Ok(())
}

// Adds the exchange of the whole word by the pair at a place, if there is one.
fn push_exchange(steps: &mut Vec<Rewrite>, place: Option<u32>) -> Result<(), AllocError>
    ensures none { OnOk result (IfNone place (steps.new.items ≡ steps.old.items)) }
    ensures some { OnOk result (IfSome place (λ p. (marks : List Bool) (basis : List Pair)
        (u v : List ℕ) → slice_get basis p ≡ Some (pair_of u v) →
        LeadOn marks basis steps.old.items steps.new.items u v)) }
    ensures below { OnOk result ((n : ℕ) → All (IsRewriteBelow n) steps.old.items →
        All (IsRewriteBelow n) steps.new.items) }
{
    let Some(pair) = place else {
        return Ok(());
    };
    steps.push(Rewrite::Forth { at: 0, pair })?;
    Ok(())
}

/// The chain from one word to another, which are linked.
pub(crate) fn way(
    alloc: Global,
    places: &mut Places,
    marks: &[bool],
    left: &[u32],
    right: &[u32],
) -> Result<Chain, AllocError>
    requires few { length places.old < 2 ^ 32 }
    requires left { WordBelow (length marks.now) left.now }
    requires right { WordBelow (length marks.now) right.now }
    requires linked { AreLinked marks.now places.old left.now right.now }
    ensures way { IfOk result (IsWay (length marks.now) marks.now places.old left.now right.now) }
    ensures pairs { IfOk result (λ c. places.new ≡ places.old) }
{
    let mut steps = Vec::new(alloc);
    push_cut(alloc, &mut steps, marks, left)?;
    let place = places.place_of(pruned(marks, left), pruned(marks, right))?;
    push_exchange(&mut steps, place)?;
    push_growth(alloc, &mut steps, marks, right)?;
    Ok(Chain { steps })
}
