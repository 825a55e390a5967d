//! A proof from all pairs that two words reach.

ghost use Rattle.std.specs.Prelude.{◌≡◌, ◌≢◌, ◌<◌, ◌^◌, [], ℕ, All, IfOk, drop, length};
ghost use Rattle.fst_words.specs.Ordered.{AreOrdered};
ghost use Rattle.fst_words.specs.Words.{InRange, LettersBelow, WordBelow, first_row};
ghost use Rattle.fst_norms.specs.Pruned.{AreUnnormed};
ghost use Rattle.fst_basis.specs.Basis.{AreJoined, AreJoinedByRules, IsChainBelow, IsJoined, IsPair, IsPairBelow, IsProof};
ghost use Rattle.fst_breadth.specs.Answer.{IsEqual};
ghost use Rattle.fst_cert.specs.Certificates.{HasNoEmpty};
ghost use Rattle.fst_cert.specs.Visited.{AreLinked, HasLinkedFollowers, IsClosed, IsLinkedByRule, basis_of};

use crate::places::{Places, places_of};
use crate::ways::way;
use fst_basis::{Chain, Pair, Proof};
use fst_shared::SharedPair;
use fst_words::{Grammar, Rule, Word, step};
use std::alloc::{AllocError, Global};

// The pairs, written out.
fn basis_of(alloc: Global, pairs: &[SharedPair]) -> Result<Vec<Pair>, AllocError>
    ensures { IfOk result (λ basis. basis.items ≡ basis_of pairs.now) }
{
    let mut basis = Vec::new(alloc);
    for pair in pairs {
        basis.push(Pair {
            left: pair.left.to_word(alloc)?,
            right: pair.right.to_word(alloc)?,
        })?;
    }
    Ok(basis)
}

// The rules of a word's first non-terminal, and what stands behind that.
fn first_rules<'a>(g: &'a Grammar, word: &'a [u32]) -> (&'a [Rule], &'a [u32])
    requires some { word.now ≢ [] }
    requires below { WordBelow (length g.now.rules.items) word.now }
    ensures row { result.0.now ≡ first_row g.now.rules.items word.now }
    ensures ordered { AreOrdered result.0.now }
    ensures tail { result.1.now ≡ drop 1 word.now }
{
    let (first, tail) = word.split_first().unwrap();
    (g.rules[*first as usize].as_slice(), tail)
}

// The chain from the word of the rule, with this tail, to what the word becomes by the rule's letter.
fn rule_chain(
    alloc: Global,
    g: &Grammar,
    places: &mut Places,
    marks: &[bool],
    tail: &[u32],
    word: &Word,
    rule: &Rule,
) -> Result<Chain, AllocError>
    requires grammar { InRange g.now.rules.items }
    requires count { length marks.now ≡ length g.now.rules.items }
    requires few { length places.old < 2 ^ 32 }
    requires tail { WordBelow (length g.now.rules.items) tail.now }
    requires word { WordBelow (length g.now.rules.items) word.now }
    requires rule { WordBelow (length g.now.rules.items) rule.now.word }
    requires linked { IsLinkedByRule g.now.rules.items marks.now places.old tail.now word.now
        rule.now }
    ensures joined { IfOk result (IsJoined g.now.rules.items marks.now places.old tail.now word.now
        rule.now) }
    ensures below { IfOk result (IsChainBelow (length g.now.rules.items)) }
    ensures pairs { IfOk result (λ c. places.new ≡ places.old) }
{
    let from = Word::concat(alloc, rule.word.as_slice(), tail)?;
    let to = step(alloc, g, word, rule.letter)?.unwrap();
    let chain = way(alloc, places, marks, from.as_slice(), to.as_slice())?;
    Ok(chain)
}

// The chains that join what the words of a pair become, letter by letter.
fn pair_chains(
    alloc: Global,
    g: &Grammar,
    places: &mut Places,
    marks: &[bool],
    pair: &Pair,
) -> Result<Vec<Chain>, AllocError>
    requires grammar { InRange g.now.rules.items }
    requires count { length marks.now ≡ length g.now.rules.items }
    requires few { length places.old < 2 ^ 32 }
    requires below { IsPairBelow (length g.now.rules.items) pair.now }
    requires pair { IsPair g.now.rules.items pair.now }
    requires linked { HasLinkedFollowers g.now.rules.items marks.now places.old pair.now }
    ensures joined { IfOk result (λ chains. AreJoinedByRules g.now.rules.items marks.now places.old
        (drop 1 pair.now.left) pair.now.right (first_row g.now.rules.items pair.now.left)
        chains.items) }
    ensures below { IfOk result (λ chains. All
        (IsChainBelow (length g.now.rules.items)) chains.items) }
    ensures pairs { IfOk result (λ chains. places.new ≡ places.old) }
{
    let (rules, tail) = first_rules(g, pair.left.as_slice());
    let mut chains = Vec::new(alloc);
    for rule in rules {
        let chain = rule_chain(alloc, g, places, marks, tail, &pair.right, rule)?;
        chains.push(chain)?;
    }
    Ok(chains)
}

// The chains that join what the words of the pairs become, pair by pair and letter by letter.
fn basis_chains(
    alloc: Global,
    g: &Grammar,
    places: &mut Places,
    marks: &[bool],
    basis: &[Pair],
) -> Result<Vec<Chain>, AllocError>
    requires grammar { InRange g.now.rules.items }
    requires count { length marks.now ≡ length g.now.rules.items }
    requires closed { IsClosed g.now.rules.items marks.now basis.now }
    requires places { places.old ≡ basis.now }
    ensures joined { IfOk result (λ chains. AreJoined g.now.rules.items marks.now basis.now
        basis.now chains.items) }
    ensures below { IfOk result (λ chains. All
        (IsChainBelow (length g.now.rules.items)) chains.items) }
{
    let mut chains = Vec::new(alloc);
    for pair in basis {
        let mut row = pair_chains(alloc, g, places, marks, pair)?;
        chains.append(&mut row)?;
    }
    Ok(chains)
}

// The chain that joins the two words, and those that join what the words of the pairs become.
fn all_chains(
    alloc: Global,
    g: &Grammar,
    marks: &[bool],
    x: &[u32],
    y: &[u32],
    basis: &[Pair],
) -> Result<Vec<Chain>, AllocError>
    requires grammar { InRange g.now.rules.items }
    requires letters { LettersBelow (length g.now.letters.items) g.now.rules.items }
    requires unnormed { AreUnnormed g.now.rules.items marks.now }
    requires left { WordBelow (length g.now.rules.items) x.now }
    requires right { WordBelow (length g.now.rules.items) y.now }
    requires closed { IsClosed g.now.rules.items marks.now basis.now }
    requires linked { AreLinked marks.now basis.now x.now y.now }
    ensures { IfOk result (λ chains. IsProof (length g.now.letters.items) g.now.rules.items
        marks.now x.now y.now basis.now chains.items) }
{
    let mut places = places_of(alloc, basis)?;
    let first = way(alloc, &mut places, marks, x, y)?;
    let mut others = basis_chains(alloc, g, &mut places, marks, basis)?;
    let mut chains = Vec::new(alloc);
    chains.push(first)?;
    chains.append(&mut others)?;
    Ok(chains)
}

/// The proof, from all pairs of different words that two words reach once they are pruned, that the two words perform the same traces: the
/// pairs are its basis, in their order. It takes about the length of the pairs' words times the rules of their first non-terminals.
pub(crate) fn visited_proof(
    alloc: Global,
    g: &Grammar,
    marks: &[bool],
    x: &Word,
    y: &Word,
    pairs: &[SharedPair],
) -> Result<Proof, AllocError>
    requires grammar { InRange g.now.rules.items }
    requires letters { LettersBelow (length g.now.letters.items) g.now.rules.items }
    requires unnormed { AreUnnormed g.now.rules.items marks.now }
    requires left { WordBelow (length g.now.rules.items) x.now }
    requires right { WordBelow (length g.now.rules.items) y.now }
    requires reached { (budget : ℕ) × IsEqual g.now.rules.items marks.now x.now y.now budget
        pairs.now }
    requires few { length pairs.now < 2 ^ 32 }
    requires words { All HasNoEmpty (basis_of pairs.now) }
    ensures proof { IfOk result (λ p. IsProof (length g.now.letters.items) g.now.rules.items
        marks.now x.now y.now p.basis.items p.chains.items) }
    ensures basis { IfOk result (λ p. p.basis.items ≡ basis_of pairs.now) }
{
    let basis = basis_of(alloc, pairs)?;
    let chains = all_chains(alloc, g, marks, x.as_slice(), y.as_slice(), &basis)?;
    Ok(Proof { basis, chains })
}
