//! Ways between words that aren't pruned.

ghost use Rattle.std.specs.Prelude.{◌≡◌, ◌<◌, ◌≤◌, ◌+◌, ◌++◌, ◌^◌, ◌↔◌, [], IfNone, IfOk, IfSome, IsTrue, OnOk, Some, ℕ, drop, length, slice_index_or, take, true, false};
ghost use Rattle.fst_words.specs.Marks.{has_marked, is_marked};
ghost use Rattle.fst_words.specs.Words.{WordBelow};
ghost use Rattle.fst_words.specs.Marks.{cut};
ghost use Rattle.fst_shared.specs.Shared.{Keeps, word_of};
ghost use Rattle.fst_basis.specs.Rewrites.{chained};
ghost use Rattle.fst_expand.specs.Bridge.{AreCutOff, AreFit, HaveNoRoom, HaveRoom, IsFront, IsWay, Meet, cutting, growing};
ghost use Rattle.fst_expand.specs.Measures.{AreMeasures};
ghost use Rattle.fst_basis.specs.Basis.{AreExchanges};

use crate::joining::{Joined, join};
use crate::measures::Measures;
use crate::table::Table;
use fst_basis::{Chain, Rewrite};
use fst_words::Word;
use std::alloc::{AllocError, Global};

// The place of the first marked non-terminal.
fn first_marked(marks: &[bool], word: &[u32]) -> Option<usize>
    requires { WordBelow (length marks.now) word.now }
    ensures none { IfNone result (has_marked marks.now word.now ≡ false) }
    ensures within { IfSome result (λ at. at < length word.now) }
    ensures marked { IfSome result (λ at. (d : ℕ) →
        is_marked marks.now (slice_index_or word.now at d) ≡ true) }
    ensures before { IfSome result (λ at. has_marked marks.now (take at word.now) ≡ false) }
{
    for (i, n) in word.iter().enumerate() {
        if marks[*n as usize] {
            return Some(i);
        }
    }
    None
}

/// A word, with one of the table behind it.
#[derive(Drop)]
pub(crate) struct Front<'a> {
    pub(crate) word: &'a [u32],
    pub(crate) tail: u32,
}

// What stands behind so many non-terminals of a word, and a word of the table.
fn behind(alloc: Global, table: &Table, front: &Front<'_>, count: usize) -> Result<Word, AllocError>
    requires count { count ≤ length front.now.word.now }
    requires tail { front.now.tail < length table.now.words }
    ensures { IfOk result (λ w. w ≡ drop count front.now.word.now ++ word_of table.now.words
        front.now.tail) }
{
    let rest = table.to_word(alloc, front.tail)?;
    let word = Word::concat(alloc, &front.word[count..], rest.as_slice())?;
    Ok(word)
}

fn is_empty(word: &Word) -> bool
    ensures { IsTrue result ↔ (word.now ≡ []) }
{
    word.as_slice().is_empty()
}

// What pruning cuts off a word with another behind it, and the place of the marked non-terminal in front of that, or none where it cuts
// nothing.
fn cut_off(
    alloc: Global,
    marks: &[bool],
    table: &Table,
    front: &Front<'_>,
) -> Result<Option<(u64, Word)>, AllocError>
    requires { IsFront (length marks.now) marks.now table.now.words front.now.word.now
        front.now.tail }
    ensures parts { IfOk result (AreCutOff marks.now
        (cut marks.now front.now.word.now (word_of table.now.words front.now.tail))
        (front.now.word.now ++ word_of table.now.words front.now.tail)) }
    ensures below { IfOk result (λ o. IfSome o (λ c. WordBelow (length marks.now) c.1)) }
{
    let Some(at) = first_marked(marks, front.word) else {
        return Ok(None);
    };
    let rest = behind(alloc, table, front, at + 1)?;
    if is_empty(&rest) {
        return Ok(None);
    }
    Ok(Some((at as u64, rest)))
}

// Adds the rewrite that cuts something off.
fn push_cut(steps: &mut Vec<Rewrite>, cut: Option<(u64, Word)>) -> Result<(), AllocError>
    ensures { OnOk result (steps.new.items ≡ steps.old.items ++ cutting cut) }
{
    if let Some((at, tail)) = cut {
        steps.push(Rewrite::Cut { at, tail })?;
    }
    Ok(())
}

// Adds the rewrite that puts it there.
fn push_growth(steps: &mut Vec<Rewrite>, cut: Option<(u64, Word)>) -> Result<(), AllocError>
    ensures { OnOk result (steps.new.items ≡ steps.old.items ++ growing cut) }
{
    if let Some((at, tail)) = cut {
        steps.push(Rewrite::Grow { at, tail })?;
    }
    Ok(())
}

// The rewrites, behind what cuts something off, and in front of what puts something there.
fn framed(
    alloc: Global,
    cut: Option<(u64, Word)>,
    steps: Vec<Rewrite>,
    grow: Option<(u64, Word)>,
) -> Result<Vec<Rewrite>, AllocError>
    ensures { IfOk result (λ framed. framed.items ≡ cutting cut ++ (steps.items ++ growing grow)) }
{
    let mut framed = Vec::new(alloc);
    let mut steps = steps;
    push_cut(&mut framed, cut)?;
    framed.append(&mut steps)?;
    push_growth(&mut framed, grow)?;
    Ok(framed)
}

// The numbers of two words, pruned.
fn pruned_words(
    marks: &[bool],
    table: &mut Table,
    left: &Front<'_>,
    right: &Front<'_>,
) -> Result<(u32, u32), AllocError>
    requires left { left.now.tail < length table.old.words }
    requires right { right.now.tail < length table.old.words }
    requires left_below { WordBelow (length marks.now) left.now.word.now }
    requires right_below { WordBelow (length marks.now) right.now.word.now }
    ensures left { IfOk result (λ r. word_of table.new.words r.0 ≡ cut marks.now left.now.word.now
        (word_of table.old.words left.now.tail)) }
    ensures right { IfOk result (λ r. word_of table.new.words r.1 ≡ cut marks.now right.now.word.now
        (word_of table.old.words right.now.tail)) }
    ensures left_within { IfOk result (λ r. r.0 < length table.new.words) }
    ensures right_within { IfOk result (λ r. r.1 < length table.new.words) }
    ensures kept { IfOk result (λ r. Keeps table.old.words table.new.words) }
    ensures pairs { IfOk result (λ r. table.new.pairs ≡ table.old.pairs) }
{
    let from = table.prepend(marks, left.word, left.tail)?;
    let to = table.prepend(marks, right.word, right.tail)?;
    Ok((from, to))
}

/// Adds the cuts of two words, pruned, and gives the way from one to the other with the number of heads that are dropped, or none where
/// the pairs and these heads are together more than there is room for.
pub(crate) fn meet(
    alloc: Global,
    m: &Measures<'_>,
    table: &mut Table,
    left: &Front<'_>,
    right: &Front<'_>,
    room: usize,
) -> Result<Option<Joined>, AllocError>
    requires measured { AreMeasures m.now.grammar.now.rules.items m.now.marks.now m.now.norms.now
        m.now.lowering.now }
    requires left { IsFront (length m.now.lowering.now) m.now.marks.now table.old.words
        left.now.word.now left.now.tail }
    requires right { IsFront (length m.now.lowering.now) m.now.marks.now table.old.words
        right.now.word.now right.now.tail }
    requires fit { AreFit m.now.marks.now (length m.now.lowering.now) table.old.pairs }
    requires room { length table.old.pairs ≤ room }
    requires most { room < 2 ^ 32 }
    ensures leads { IfOk result (λ o. IfSome o
        (λ j. chained m.now.marks.now table.new.pairs j.steps.items
        (cut m.now.marks.now left.now.word.now (word_of table.old.words left.now.tail)) ≡ Some
        (cut m.now.marks.now right.now.word.now (word_of table.old.words right.now.tail)))) }
    ensures exchanges { IfOk result (λ o. IfSome o (λ j. AreExchanges j.steps.items)) }
    ensures met { IfOk result (λ o. IfSome o
        (λ j. Meet m.now.marks.now m.now.norms.now m.now.lowering.now
        (left.now.word.now ++ word_of table.old.words left.now.tail)
        (right.now.word.now ++ word_of table.old.words right.now.tail) table.old.pairs
        table.new.pairs j.heads)) }
    ensures crowded { IfOk result (λ o. IfNone o
        (HaveNoRoom m.now.marks.now m.now.norms.now m.now.lowering.now
        (left.now.word.now ++ word_of table.old.words left.now.tail)
        (right.now.word.now ++ word_of table.old.words right.now.tail) table.old.pairs
        table.new.pairs room)) }
    ensures room { IfOk result (λ o. IfSome o (λ j. length table.new.pairs + j.heads ≤ room)) }
    ensures kept { IfOk result (λ o. Keeps table.old.words table.new.words) }
{
    let (from, to) = pruned_words(m.marks, table, left, right)?;
    let joined = join(alloc, m.norms, m.lowering, table, from, to, room)?;
    Ok(joined)
}

/// The way from one word to another whose cuts are all there.
pub(crate) fn bridge(
    alloc: Global,
    m: &Measures<'_>,
    table: &mut Table,
    left: &Front<'_>,
    right: &Front<'_>,
    room: usize,
) -> Result<Chain, AllocError>
    requires measured { AreMeasures m.now.grammar.now.rules.items m.now.marks.now m.now.norms.now
        m.now.lowering.now }
    requires left { IsFront (length m.now.lowering.now) m.now.marks.now table.old.words
        left.now.word.now left.now.tail }
    requires right { IsFront (length m.now.lowering.now) m.now.marks.now table.old.words
        right.now.word.now right.now.tail }
    requires fit { AreFit m.now.marks.now (length m.now.lowering.now) table.old.pairs }
    requires room { HaveRoom m.now.marks.now m.now.norms.now m.now.lowering.now
        (left.now.word.now ++ word_of table.old.words left.now.tail)
        (right.now.word.now ++ word_of table.old.words right.now.tail) table.old.pairs room }
    requires most { room < 2 ^ 32 }
    ensures way { IfOk result (IsWay (length m.now.lowering.now) m.now.marks.now table.old.pairs
        (left.now.word.now ++ word_of table.old.words left.now.tail)
        (right.now.word.now ++ word_of table.old.words right.now.tail)) }
    ensures same { IfOk result (λ c. table.new.pairs ≡ table.old.pairs) }
    ensures kept { IfOk result (λ c. Keeps table.old.words table.new.words) }
{
    let cut = cut_off(alloc, m.marks, table, left)?;
    let grow = cut_off(alloc, m.marks, table, right)?;
    let found = meet(alloc, m, table, left, right, room)?;
    table.each_once();
    let joined = found.unwrap();
    let steps = framed(alloc, cut, joined.steps, grow)?;
    Ok(Chain { steps })
}
