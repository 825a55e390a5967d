//! Whether pairs with chains are a basis that joins two words.

ghost use Rattle.std.specs.Prelude.{◌≡◌, ◌↔◌, ◌<◌, All, IfOk, IsTrue, drop, length, take};
ghost use Rattle.fst_base.specs.Agreement.{HaveSameTraces};
ghost use Rattle.fst_words.specs.Words.{LettersBelow, WordBelow, step};
ghost use Rattle.fst_basis.specs.Basis.{AreJoined, AreJoinedByRules, IsBasis, IsChainBelow, IsJoined, IsPair, IsPairBelow, IsProof, IsRewriteBelow, IsWithin};

use crate::letters::{first_row, is_pair, parts_after};
use crate::marks::is_unnormed_set;
use crate::proof::{Chain, Pair, Rewrite};
use crate::rewriting::joins;
use fst_words::{Grammar, Rule, Word, is_below, is_in_range};
use std::alloc::{AllocError, Global};

// Whether the words of a pair have the grammar's non-terminals alone.
fn is_pair_below(b: &Pair, count: usize) -> bool
    ensures { IsTrue result ↔ IsPairBelow count b.now }
{
    is_below(b.left.as_slice(), count) && is_below(b.right.as_slice(), count)
}

// Whether the words of each pair do.
fn are_below(basis: &[Pair], count: usize) -> bool
    ensures { IsTrue result ↔ All (IsPairBelow count) basis.now }
{
    for b in basis {
        if !is_pair_below(b, count) {
            return false;
        }
    }
    true
}

// Whether the word that a rewrite cuts or puts there has the grammar's non-terminals alone.
fn is_rewrite_below(rewrite: &Rewrite, count: usize) -> bool
    ensures { IsTrue result ↔ IsRewriteBelow count rewrite.now }
{
    match rewrite {
        Rewrite::Forth { .. } => true,
        Rewrite::Back { .. } => true,
        Rewrite::Cut { tail, .. } => is_below(tail.as_slice(), count),
        Rewrite::Grow { tail, .. } => is_below(tail.as_slice(), count),
    }
}

// Whether the words that the rewrites of a chain cut or put there do.
fn is_chain_below(chain: &Chain, count: usize) -> bool
    ensures { IsTrue result ↔ IsChainBelow count chain.now }
{
    chain.steps.iter().all(|r| is_rewrite_below(r, count))
}

// Whether those of each chain do.
fn are_chains_below(chains: &[Chain], count: usize) -> bool
    ensures { IsTrue result ↔ All (IsChainBelow count) chains.now }
{
    chains.iter().all(|c| is_chain_below(c, count))
}

// Whether the letters of the rules are below this number.
fn have_letters_below(rules: &[Rule], count: usize) -> bool
    ensures { IsTrue result ↔ All (λ r. r.letter < count) rules.now }
{
    rules.iter().all(|r| (r.letter as usize) < count)
}

// Whether the letters of all rules are the grammar's.
fn are_letters_below(g: &Grammar) -> bool
    ensures { IsTrue result ↔ LettersBelow (length g.now.letters.items) g.now.rules.items }
{
    let count = g.letters.len();
    g.rules
        .iter()
        .all(|rules| have_letters_below(rules.as_slice(), count))
}

// Whether all numbers are the grammar's, and there is a mark for each non-terminal.
fn is_within(
    g: &Grammar,
    marks: &[bool],
    u: &[u32],
    v: &[u32],
    basis: &[Pair],
    chains: &[Chain],
) -> bool
    ensures { IsTrue result ↔ IsWithin
        (length g.now.letters.items) g.now.rules.items marks.now u.now v.now basis.now chains.now }
{
    let count = g.rules.len();
    if !are_letters_below(g) {
        return false;
    }
    if !is_in_range(g) {
        return false;
    }
    if marks.len() != count {
        return false;
    }
    if !is_below(u, count) {
        return false;
    }
    if !is_below(v, count) {
        return false;
    }
    if !are_below(basis, count) {
        return false;
    }
    are_chains_below(chains, count)
}

// Whether the two words of each pair perform the same letters.
fn are_pairs(g: &Grammar, basis: &[Pair]) -> bool
    requires { All (IsPairBelow (length g.now.rules.items)) basis.now }
    ensures { IsTrue result ↔ All (IsPair g.now.rules.items) basis.now }
{
    for b in basis {
        if !is_pair(g, b) {
            return false;
        }
    }
    true
}

// Whether the chain joins the word of the rule, with `t` behind it, to what `w` becomes by the rule's letter.
#[tactic(auto, using(crate::proofs::ChainLaws::joined_told))]
fn is_joined(
    alloc: Global,
    g: &Grammar,
    marks: &[bool],
    basis: &[Pair],
    t: &[u32],
    w: &[u32],
    rule: &Rule,
    chain: &Chain,
) -> Result<bool, AllocError>
    requires { WordBelow (length g.now.rules.items) w.now }
    ensures { IfOk result (λ b. IsTrue b ↔ IsJoined g.now.rules.items marks.now basis.now t.now
        w.now rule.now chain.now) }
{
    let Some((word, rest)) = parts_after(g, w, rule.letter) else {
        return Ok(false);
    };
    let from = Word::concat(alloc, rule.word.as_slice(), t)?;
    let joined = joins(alloc, marks, basis, &chain.steps, from, word, rest)?;
    Ok(joined)
}

// Whether there is such a chain for each of the rules.
fn are_joined_by_rules(
    alloc: Global,
    g: &Grammar,
    marks: &[bool],
    basis: &[Pair],
    t: &[u32],
    w: &[u32],
    rules: &[Rule],
    chains: &[Chain],
) -> Result<bool, AllocError>
    requires { WordBelow (length g.now.rules.items) w.now }
    ensures { IfOk result (λ b. IsTrue b ↔ AreJoinedByRules g.now.rules.items marks.now basis.now
        t.now w.now rules.now chains.now) }
{
    if rules.len() != chains.len() {
        return Ok(false);
    }
    for (i, rule) in rules.iter().enumerate() {
        if !is_joined(alloc, g, marks, basis, t, w, rule, &chains[i])? {
            return Ok(false);
        }
    }
    Ok(true)
}

// The word behind the first non-terminal.
fn behind_first(word: &[u32]) -> &[u32]
    ensures { result.now ≡ drop 1 word.now }
{
    match word.split_first() {
        None => word,
        Some((_first, rest)) => rest,
    }
}

// The first chains, as many as this number says, and the others.
fn split(chains: &[Chain], count: usize) -> (&[Chain], &[Chain])
    ensures { (result.0.now ≡ take count chains.now) × (result.1.now ≡ drop count chains.now) }
{
    if count > chains.len() {
        return (chains, &[]);
    }
    chains.split_at(count)
}

// Whether the chains, pair by pair and letter by letter, join what the words of the pairs become.
fn are_joined(
    alloc: Global,
    g: &Grammar,
    marks: &[bool],
    basis: &[Pair],
    chains: &[Chain],
) -> Result<bool, AllocError>
    requires { All (IsPairBelow (length g.now.rules.items)) basis.now }
    ensures { IfOk result (λ b. IsTrue b ↔ AreJoined g.now.rules.items marks.now basis.now basis.now
        chains.now) }
{
    let mut rest = chains;
    for b in basis {
        let left = b.left.as_slice();
        let rules = first_row(g, left);
        let (now, later) = split(rest, rules.len());
        let t = behind_first(left);
        if !are_joined_by_rules(alloc, g, marks, basis, t, b.right.as_slice(), rules, now)? {
            return Ok(false);
        }
        rest = later;
    }
    Ok(rest.is_empty())
}

// Whether the pairs are a basis by these chains.
fn is_basis(
    alloc: Global,
    g: &Grammar,
    marks: &[bool],
    basis: &[Pair],
    chains: &[Chain],
) -> Result<bool, AllocError>
    requires count { length marks.now ≡ length g.now.rules.items }
    requires pairs { All (IsPairBelow (length g.now.rules.items)) basis.now }
    ensures { IfOk result (λ b. IsTrue b ↔ IsBasis g.now.rules.items marks.now basis.now
        chains.now) }
{
    if !is_unnormed_set(g, marks) {
        return Ok(false);
    }
    if !are_pairs(g, basis) {
        return Ok(false);
    }
    let joined = are_joined(alloc, g, marks, basis, chains)?;
    Ok(joined)
}

// Whether they are a proof that the words perform the same traces.
fn is_proof(
    alloc: Global,
    g: &Grammar,
    marks: &[bool],
    u: &[u32],
    v: &[u32],
    basis: &[Pair],
    chains: &[Chain],
) -> Result<bool, AllocError>
    ensures { IfOk result (λ b. IsTrue b ↔ IsProof
        (length g.now.letters.items) g.now.rules.items marks.now u.now v.now basis.now chains.now) }
{
    let Some((first, others)) = chains.split_first() else {
        return Ok(false);
    };
    if !is_within(g, marks, u, v, basis, chains) {
        return Ok(false);
    }
    let from = Word::of(alloc, u)?;
    if !joins(alloc, marks, basis, &first.steps, from, &[], v)? {
        return Ok(false);
    }
    let is_basis = is_basis(alloc, g, marks, basis, others)?;
    Ok(is_basis)
}

/// Whether the pairs are a basis by all chains but the first, and this one joins the two words: so they perform the same traces.
/// The chains come pair by pair and letter by letter. A number that is out of range makes it false, in the tail of a rewrite too,
/// and so does a list of marks that isn't as long as the grammar has non-terminals.
pub fn check(
    alloc: Global,
    g: &Grammar,
    unnormed: &[bool],
    u: &Word,
    v: &Word,
    basis: &[Pair],
    chains: &[Chain],
) -> Result<bool, AllocError>
    ensures proof { IfOk result (λ b. IsTrue b ↔ IsProof
        (length g.now.letters.items) g.now.rules.items unnormed.now u.now v.now basis.now
        chains.now) }
    ensures same { IfOk result (λ b. IsTrue b →
        HaveSameTraces (step g.now.rules.items) (step g.now.rules.items) u.now v.now) }
{
    let is_proof = is_proof(
        alloc,
        g,
        unnormed,
        u.as_slice(),
        v.as_slice(),
        basis,
        chains,
    )?;
    Ok(is_proof)
}
