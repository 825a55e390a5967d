//! Pairs of words, followed by their letters: the cuts that two words lead to.

ghost use Rattle.std.specs.Prelude.{◌≡◌, List, ℕ, ◌<◌, ◌≤◌, ◌+◌, ◌++◌, ◌^◌, All, IfNone, IfOk, IfSome, length, slice_get, Some, true};
ghost use Rattle.fst_words.specs.Words.{InRange, WordBelow, row_of};
ghost use Rattle.fst_words.specs.Ordered.{AreOrdered};
ghost use Rattle.fst_shared.specs.Shared.{Keeps, word_of};
ghost use Rattle.fst_basis.specs.declared.proof.Pair.{Pair};
ghost use Rattle.fst_basis.specs.Basis.{same_letters};
ghost use Rattle.fst_shared.specs.Numbers.{AreNumbered};
ghost use Rattle.fst_expand.specs.Bridge.{AreFit, HaveMet, HaveNoRoom, IsFront, IsParts, Meet};
ghost use Rattle.fst_expand.specs.Expansion.{IsFollowed, IsStuck, LackRoom, parts_pair};
ghost use Rattle.fst_expand.specs.Repeats.{ArePlaces};
ghost use Rattle.fst_expand.specs.Measures.{AreMeasures};

use crate::bridge::{Front, meet};
use crate::measures::Measures;
use crate::repeats::first_places;
use crate::table::Table;
use fst_basis::same_letters;
use fst_words::{Grammar, Rule};
use std::alloc::{AllocError, Global};

/// The rules of a non-terminal.
pub(crate) fn rules_of(g: &Grammar, n: u32) -> &[Rule]
    requires range { InRange g.now.rules.items }
    requires within { n < length g.now.rules.items }
    ensures row { result.now ≡ row_of g.now.rules.items n }
    ensures ordered { AreOrdered result.now }
    ensures below { All (λ r. WordBelow (length g.now.rules.items) r.word) result.now }
{
    g.rules[n as usize].as_slice()
}

// Adds the cuts of what two words become by a letter, and gives how many heads are dropped: as many as by an earlier letter that leads to
// the same words, if the place is that of one.
fn follow_letter(
    alloc: Global,
    m: &Measures<'_>,
    table: &mut Table,
    left: &Front<'_>,
    right: &Front<'_>,
    counts: &[usize],
    place: usize,
    room: usize,
) -> Result<Option<usize>, AllocError>
    requires measured { AreMeasures m.now.grammar.now.rules.items m.now.marks.now m.now.norms.now
        m.now.lowering.now }
    requires left { IsFront (length m.now.lowering.now) m.now.marks.now table.old.words
        left.now.word.now left.now.tail }
    requires right { IsFront (length m.now.lowering.now) m.now.marks.now table.old.words
        right.now.word.now right.now.tail }
    requires fit { AreFit m.now.marks.now (length m.now.lowering.now) table.old.pairs }
    requires before { (h : ℕ) → slice_get counts.now place ≡ Some h →
        HaveMet m.now.marks.now m.now.norms.now m.now.lowering.now
        (left.now.word.now ++ word_of table.old.words left.now.tail)
        (right.now.word.now ++ word_of table.old.words right.now.tail) table.old.pairs h }
    requires room { length table.old.pairs ≤ room }
    requires most { room < 2 ^ 32 }
    ensures met { IfOk result (λ o. IfSome o
        (Meet m.now.marks.now m.now.norms.now m.now.lowering.now
        (left.now.word.now ++ word_of table.old.words left.now.tail)
        (right.now.word.now ++ word_of table.old.words right.now.tail) table.old.pairs
        table.new.pairs)) }
    ensures crowded { IfOk result (λ o. IfNone o
        (HaveNoRoom m.now.marks.now m.now.norms.now m.now.lowering.now
        (left.now.word.now ++ word_of table.old.words left.now.tail)
        (right.now.word.now ++ word_of table.old.words right.now.tail) table.old.pairs
        table.new.pairs room)) }
    ensures room { IfOk result (λ o. IfSome o (λ heads. length table.new.pairs + heads ≤ room)) }
    ensures kept { IfOk result (λ o. Keeps table.old.words table.new.words) }
{
    if place < counts.len() {
        let heads = counts[place];
        if heads > room - table.len() {
            return Ok(None);
        }
        return Ok(Some(heads));
    }
    match meet(alloc, m, table, left, right, room)? {
        None => Ok(None),
        Some(joined) => Ok(Some(joined.heads)),
    }
}

// Adds the cuts of what the words of a pair become by each letter, and gives how many heads are dropped, or none where pairs and heads
// are together more than there is room for.
fn follow_rules(
    alloc: Global,
    m: &Measures<'_>,
    table: &mut Table,
    left: (u32, u32),
    right: (u32, u32),
    places: &[usize],
    room: usize,
) -> Result<Option<usize>, AllocError>
    requires measured { AreMeasures m.now.grammar.now.rules.items m.now.marks.now m.now.norms.now
        m.now.lowering.now }
    requires left { IsParts (length m.now.lowering.now) m.now.marks.now table.old.words left }
    requires right { IsParts (length m.now.lowering.now) m.now.marks.now table.old.words right }
    requires letters { same_letters (row_of m.now.grammar.now.rules.items left.0)
        (row_of m.now.grammar.now.rules.items right.0) ≡ true }
    requires places { ArePlaces (row_of m.now.grammar.now.rules.items left.0)
        (row_of m.now.grammar.now.rules.items right.0) places.now }
    requires fit { AreFit m.now.marks.now (length m.now.lowering.now) table.old.pairs }
    requires room { length table.old.pairs ≤ room }
    requires most { room < 2 ^ 32 }
    ensures followed { IfOk result (λ o. IfSome o
        (IsFollowed m.now.grammar.now.rules.items m.now.marks.now m.now.norms.now m.now.lowering.now
        (parts_pair table.old.words left right) table.old.pairs table.new.pairs)) }
    ensures lack { IfOk result (λ o. IfNone o
        (LackRoom m.now.grammar.now.rules.items m.now.marks.now m.now.norms.now m.now.lowering.now
        (parts_pair table.old.words left right) table.old.pairs table.new.pairs room)) }
    ensures room { IfOk result (λ o. IfSome o (λ heads. length table.new.pairs + heads ≤ room)) }
{
    let rules = rules_of(m.grammar, left.0);
    let others = rules_of(m.grammar, right.0);
    let mut counts = Vec::new(alloc);
    let mut heads = 0usize;
    for (i, rule) in rules.iter().enumerate() {
        let from = Front {
            word: rule.word.as_slice(),
            tail: left.1,
        };
        let to = Front {
            word: others[i].word.as_slice(),
            tail: right.1,
        };
        let place = places[i];
        let left_room = room - heads;
        let Some(count) = follow_letter(alloc, m, table, &from, &to, &counts, place, left_room)?
        else {
            return Ok(None);
        };
        counts.push(count)?;
        heads += count;
    }
    Ok(Some(heads))
}

/// For each letter of two non-terminals an earlier one by which their rules have the same words, or itself.
pub(crate) fn places_of(
    alloc: Global,
    m: &Measures<'_>,
    left: u32,
    right: u32,
) -> Result<Vec<usize>, AllocError>
    requires measured { AreMeasures m.now.grammar.now.rules.items m.now.marks.now m.now.norms.now
        m.now.lowering.now }
    requires numbered { (words : List (List ℕ)) ×
        AreNumbered words m.now.grammar.now.rules.items m.now.numbers.now }
    requires left { left < length m.now.grammar.now.rules.items }
    requires right { right < length m.now.grammar.now.rules.items }
    requires count { length (row_of m.now.grammar.now.rules.items right) ≡ length
        (row_of m.now.grammar.now.rules.items left) }
    ensures { IfOk result (λ places. ArePlaces (row_of m.now.grammar.now.rules.items left)
        (row_of m.now.grammar.now.rules.items right) places.items) }
{
    let left_numbers = m.numbers[left as usize].as_slice();
    let right_numbers = m.numbers[right as usize].as_slice();
    let places = first_places(alloc, left_numbers, right_numbers)?;
    Ok(places)
}

/// Adds the cuts of what the words of a pair become by each letter, and gives how many heads are dropped, or none where the words
/// perform different letters, or where pairs and heads are together more than there is room for.
pub(crate) fn follow(
    alloc: Global,
    m: &Measures<'_>,
    table: &mut Table,
    at: usize,
    room: usize,
) -> Result<Option<usize>, AllocError>
    requires measured { AreMeasures m.now.grammar.now.rules.items m.now.marks.now m.now.norms.now
        m.now.lowering.now }
    requires numbered { (words : List (List ℕ)) ×
        AreNumbered words m.now.grammar.now.rules.items m.now.numbers.now }
    requires fit { AreFit m.now.marks.now (length m.now.lowering.now) table.old.pairs }
    requires at { at < length table.old.pairs }
    requires room { length table.old.pairs ≤ room }
    requires most { room < 2 ^ 32 }
    ensures followed { IfOk result (λ o. IfSome o
        (λ heads. (b : Pair) → slice_get table.old.pairs at ≡ Some b →
        IsFollowed m.now.grammar.now.rules.items m.now.marks.now m.now.norms.now m.now.lowering.now
        b table.old.pairs table.new.pairs heads)) }
    ensures stuck { IfOk result (λ o. IfNone o
        ((b : Pair) → slice_get table.old.pairs at ≡ Some b →
        IsStuck m.now.grammar.now.rules.items m.now.marks.now m.now.norms.now m.now.lowering.now b
        table.old.pairs table.new.pairs room)) }
    ensures room { IfOk result (λ o. IfSome o (λ heads. length table.new.pairs + heads ≤ room)) }
{
    let (left, right) = table.key(at);
    let Some(left) = table.split_first(left) else {
        return Ok(None);
    };
    let Some(right) = table.split_first(right) else {
        return Ok(None);
    };
    if !same_letters(rules_of(m.grammar, left.0), rules_of(m.grammar, right.0)) {
        return Ok(None);
    }
    let places = places_of(alloc, m, left.0, right.0)?;
    let heads = follow_rules(alloc, m, table, left, right, &places, room)?;
    Ok(heads)
}
