//! The chains that join what the words of pairs become, once the pairs have all cuts.

ghost use Rattle.std.specs.Prelude.{◌≡◌, List, ℕ, ◌<◌, ◌++◌, ◌^◌, All, IfOk, length, slice_get, Some};
ghost use Rattle.fst_words.specs.Words.{LettersBelow, WordBelow};
ghost use Rattle.fst_shared.specs.Shared.{Keeps, word_of};
ghost use Rattle.fst_basis.specs.declared.proof.Chain.{Chain};
ghost use Rattle.fst_basis.specs.declared.proof.Pair.{Pair};
ghost use Rattle.fst_basis.specs.Basis.{IsChainBelow, IsPair, IsProof};
ghost use Rattle.fst_shared.specs.Numbers.{AreNumbered};
ghost use Rattle.fst_expand.specs.Bridge.{AreFit, HaveRoom, IsFront, IsParts, IsWay};
ghost use Rattle.fst_expand.specs.Expansion.{AreFollowedBy, AreSettled, HaveRooms, parts_pair};
ghost use Rattle.fst_expand.specs.Measures.{AreMeasures};

use crate::bridge::{Front, bridge};
use crate::following::{places_of, rules_of};
use crate::measures::Measures;
use crate::table::Table;
use fst_basis::{Chain, Rewrite};
use fst_words::Word;
use std::alloc::{AllocError, Global};

fn copy_rewrite(alloc: Global, rewrite: &Rewrite) -> Result<Rewrite, AllocError>
    ensures { IfOk result (λ r. r ≡ rewrite.now) }
{
    match rewrite {
        Rewrite::Forth { at, pair } => Ok(Rewrite::Forth {
            at: *at,
            pair: *pair,
        }),
        Rewrite::Back { at, pair } => Ok(Rewrite::Back {
            at: *at,
            pair: *pair,
        }),
        Rewrite::Cut { at, tail } => Ok(Rewrite::Cut {
            at: *at,
            tail: Word::of(alloc, tail.as_slice())?,
        }),
        Rewrite::Grow { at, tail } => Ok(Rewrite::Grow {
            at: *at,
            tail: Word::of(alloc, tail.as_slice())?,
        }),
    }
}

#[tactic(auto, using(crate::proofs::PlaceLaws::taken))]
fn copy_steps(alloc: Global, steps: &[Rewrite]) -> Result<Vec<Rewrite>, AllocError>
    ensures { IfOk result (λ copy. copy.items ≡ steps.now) }
{
    let mut copy = Vec::new(alloc);
    for rewrite in steps {
        copy.push(copy_rewrite(alloc, rewrite)?)?;
    }
    Ok(copy)
}

// The chain that joins what two words become by a letter: that of an earlier letter that leads to the same words, if the place is that of
// one.
fn chain_letter(
    alloc: Global,
    m: &Measures<'_>,
    table: &mut Table,
    left: &Front<'_>,
    right: &Front<'_>,
    chains: &[Chain],
    place: usize,
    room: usize,
) -> Result<Chain, AllocError>
    requires measured { AreMeasures m.now.grammar.now.rules.items m.now.marks.now m.now.norms.now
        m.now.lowering.now }
    requires left { IsFront (length m.now.lowering.now) m.now.marks.now table.old.words
        left.now.word.now left.now.tail }
    requires right { IsFront (length m.now.lowering.now) m.now.marks.now table.old.words
        right.now.word.now right.now.tail }
    requires fit { AreFit m.now.marks.now (length m.now.lowering.now) table.old.pairs }
    requires before { (c : Chain) → slice_get chains.now place ≡ Some c →
        IsWay (length m.now.lowering.now) m.now.marks.now table.old.pairs
        (left.now.word.now ++ word_of table.old.words left.now.tail)
        (right.now.word.now ++ word_of table.old.words right.now.tail) c }
    requires room { HaveRoom m.now.marks.now m.now.norms.now m.now.lowering.now
        (left.now.word.now ++ word_of table.old.words left.now.tail)
        (right.now.word.now ++ word_of table.old.words right.now.tail) table.old.pairs room }
    requires most { room < 2 ^ 32 }
    ensures way { IfOk result (IsWay (length m.now.lowering.now) m.now.marks.now table.old.pairs
        (left.now.word.now ++ word_of table.old.words left.now.tail)
        (right.now.word.now ++ word_of table.old.words right.now.tail)) }
    ensures same { IfOk result (λ c. table.new.pairs ≡ table.old.pairs) }
    ensures kept { IfOk result (λ c. Keeps table.old.words table.new.words) }
{
    if place < chains.len() {
        let steps = copy_steps(alloc, &chains[place].steps)?;
        return Ok(Chain { steps });
    }
    let chain = bridge(alloc, m, table, left, right, room)?;
    Ok(chain)
}

// The chains that join what the words of a pair become, letter by letter.
fn chain_rules(
    alloc: Global,
    m: &Measures<'_>,
    table: &mut Table,
    left: (u32, u32),
    right: (u32, u32),
    room: usize,
) -> Result<Vec<Chain>, AllocError>
    requires measured { AreMeasures m.now.grammar.now.rules.items m.now.marks.now m.now.norms.now
        m.now.lowering.now }
    requires numbered { (words : List (List ℕ)) ×
        AreNumbered words m.now.grammar.now.rules.items m.now.numbers.now }
    requires left { IsParts (length m.now.lowering.now) m.now.marks.now table.old.words left }
    requires right { IsParts (length m.now.lowering.now) m.now.marks.now table.old.words right }
    requires pair { IsPair m.now.grammar.now.rules.items (parts_pair table.old.words left right) }
    requires rooms { HaveRooms m.now.grammar.now.rules.items m.now.marks.now m.now.norms.now
        m.now.lowering.now table.old.pairs room (parts_pair table.old.words left right) }
    requires fit { AreFit m.now.marks.now (length m.now.lowering.now) table.old.pairs }
    requires most { room < 2 ^ 32 }
    ensures joined { IfOk result (AreFollowedBy m.now.grammar.now.rules.items m.now.marks.now
        table.old.pairs (parts_pair table.old.words left right)) }
    ensures below { IfOk result (λ chains. All
        (IsChainBelow (length m.now.lowering.now)) chains.items) }
    ensures same { IfOk result (λ chains. table.new.pairs ≡ table.old.pairs) }
{
    let rules = rules_of(m.grammar, left.0);
    let others = rules_of(m.grammar, right.0);
    let places = places_of(alloc, m, left.0, right.0)?;
    let mut chains = Vec::new(alloc);
    for (i, rule) in rules.iter().enumerate() {
        let from = Front {
            word: rule.word.as_slice(),
            tail: left.1,
        };
        let to = Front {
            word: others[i].word.as_slice(),
            tail: right.1,
        };
        let chain = chain_letter(alloc, m, table, &from, &to, &chains, places[i], room)?;
        chains.push(chain)?;
    }
    Ok(chains)
}

// The chains of the pair at a place.
fn chain_pair(
    alloc: Global,
    m: &Measures<'_>,
    table: &mut Table,
    at: usize,
    room: usize,
) -> Result<Vec<Chain>, AllocError>
    requires measured { AreMeasures m.now.grammar.now.rules.items m.now.marks.now m.now.norms.now
        m.now.lowering.now }
    requires numbered { (words : List (List ℕ)) ×
        AreNumbered words m.now.grammar.now.rules.items m.now.numbers.now }
    requires at { at < length table.old.pairs }
    requires settled { AreSettled m.now.grammar.now.rules.items m.now.marks.now m.now.norms.now
        m.now.lowering.now table.old.pairs room }
    requires fit { AreFit m.now.marks.now (length m.now.lowering.now) table.old.pairs }
    requires most { room < 2 ^ 32 }
    ensures joined { IfOk result (λ chains. (b : Pair) → slice_get table.old.pairs at ≡ Some b →
        AreFollowedBy m.now.grammar.now.rules.items m.now.marks.now table.old.pairs b chains) }
    ensures below { IfOk result (λ chains. All
        (IsChainBelow (length m.now.lowering.now)) chains.items) }
    ensures same { IfOk result (λ chains. table.new.pairs ≡ table.old.pairs) }
{
    let (left, right) = table.key(at);
    let left = table.parts(left);
    let right = table.parts(right);
    let chains = chain_rules(alloc, m, table, left, right, room)?;
    Ok(chains)
}

/// The chain that joins two words, and those that join what the words of the pairs become, pair by pair and letter by letter.
pub(crate) fn chains_of(
    alloc: Global,
    m: &Measures<'_>,
    table: &mut Table,
    u: &[u32],
    v: &[u32],
    room: usize,
) -> Result<Vec<Chain>, AllocError>
    requires measured { AreMeasures m.now.grammar.now.rules.items m.now.marks.now m.now.norms.now
        m.now.lowering.now }
    requires numbered { (words : List (List ℕ)) ×
        AreNumbered words m.now.grammar.now.rules.items m.now.numbers.now }
    requires letters { LettersBelow (length m.now.grammar.now.letters.items)
        m.now.grammar.now.rules.items }
    requires left { WordBelow (length m.now.grammar.now.rules.items) u.now }
    requires right { WordBelow (length m.now.grammar.now.rules.items) v.now }
    requires first { HaveRoom m.now.marks.now m.now.norms.now m.now.lowering.now u.now v.now
        table.old.pairs room }
    requires settled { AreSettled m.now.grammar.now.rules.items m.now.marks.now m.now.norms.now
        m.now.lowering.now table.old.pairs room }
    requires fit { AreFit m.now.marks.now (length m.now.lowering.now) table.old.pairs }
    requires most { room < 2 ^ 32 }
    ensures proof { IfOk result (λ chains. IsProof
        (length m.now.grammar.now.letters.items) m.now.grammar.now.rules.items m.now.marks.now u.now
        v.now table.old.pairs chains.items) }
    ensures same { IfOk result (λ chains. table.new.pairs ≡ table.old.pairs) }
{
    table.each_once();
    let from = Front { word: u, tail: 0 };
    let to = Front { word: v, tail: 0 };
    let first = bridge(alloc, m, table, &from, &to, room)?;
    let mut chains = Vec::new(alloc);
    chains.push(first)?;
    for at in 0..table.len() {
        let mut row = chain_pair(alloc, m, table, at, room)?;
        chains.append(&mut row)?;
    }
    Ok(chains)
}
