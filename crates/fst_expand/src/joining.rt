//! The way from one word to another by cuts.

ghost use Rattle.std.specs.Prelude.{◌≡◌, ◌≢◌, ◌<◌, ◌≤◌, ◌+◌, ◌^◌, ℕ, List, Option, Some, All, IfNone, IfOk, IfSome, OnOk, length};
ghost use Rattle.fst_words.specs.Words.{WordBelow};
ghost use Rattle.fst_shared.specs.Shared.{Keeps, word_of};
ghost use Rattle.fst_basis.specs.declared.proof.Pair.{Pair};
ghost use Rattle.fst_expand.specs.Cuts.{dropped, head_norm};
ghost use Rattle.fst_expand.specs.Trail.{AreBelow, HasNoDrop, IsCrowded, IsJoining, IsUnderway, noted};

use crate::dropping::{drop_left, drop_right, next_drop};
use crate::table::Table;
use fst_basis::Rewrite;
use fst_types::Side;
use fst_words::Word;
use std::alloc::{AllocError, Global};

/// How far the way is found: the two words that are left, with so many heads in front of each, the rewrites that lead to the left one,
/// and those that lead on from the right one, the last one first.
#[derive(Drop)]
pub(crate) struct Walk {
    left: u32,
    right: u32,
    heads: usize,
    before: Vec<Rewrite>,
    after: Vec<Rewrite>,
}

// Adds the exchange by a cut, if there is one.
fn note(steps: &mut Vec<Rewrite>, heads: usize, cut: Option<u32>) -> Result<(), AllocError>
    ensures { OnOk result (steps.new.items ≡ noted steps.old.items heads cut) }
{
    if let Some(pair) = cut {
        steps.push(Rewrite::Forth {
            at: heads as u64,
            pair,
        })?;
    }
    Ok(())
}

// Drops the head of this side, which has this norm.
fn drop_next(
    alloc: Global,
    norms: &[Option<u64>],
    words: &[Word],
    table: &mut Table,
    walk: &mut Walk,
    side: Side,
    norm: u64,
) -> Result<(), AllocError>
    requires left { walk.old.left < length table.old.words }
    requires right { walk.old.right < length table.old.words }
    requires left_range { WordBelow (length words.now) (word_of table.old.words walk.old.left) }
    requires right_range { WordBelow (length words.now) (word_of table.old.words walk.old.right) }
    requires other { word_of table.old.words walk.old.left ≢ word_of table.old.words
        walk.old.right }
    requires drop { dropped (head_norm norms.now (word_of table.old.words walk.old.left))
        (head_norm norms.now (word_of table.old.words walk.old.right)) ≡ Some (side, norm) }
    requires words { All (WordBelow (length words.now)) words.now }
    requires room { walk.old.heads < 2 ^ 32 }
    ensures underway { OnOk result ((x y : List ℕ) (old : List Pair) →
        IsUnderway norms.now words.now x y old table.old walk.old →
        IsUnderway norms.now words.now x y old table.new walk.new) }
    ensures heads { OnOk result (walk.new.heads ≡ walk.old.heads + 1) }
    ensures kept { OnOk result (Keeps table.old.words table.new.words) }
{
    match side {
        Side::Left => {
            let rests = drop_left(alloc, words, table, norm, walk.left, walk.right)?;
            note(&mut walk.after, walk.heads, rests.cut)?;
            walk.left = rests.left;
            walk.right = rests.right;
        }
        Side::Right => {
            let rests = drop_right(alloc, words, table, norm, walk.left, walk.right)?;
            note(&mut walk.before, walk.heads, rests.cut)?;
            walk.left = rests.left;
            walk.right = rests.right;
        }
    }
    walk.heads += 1;
    Ok(())
}

/// The rewrites that lead from one word to another, and how many heads are dropped on the way.
#[derive(Drop)]
pub(crate) struct Joined {
    pub(crate) steps: Vec<Rewrite>,
    pub(crate) heads: usize,
}

// Goes on where no head is dropped, by the pair of the two words, unless they are the same.
fn finish(table: &mut Table, walk: Walk) -> Result<Joined, AllocError>
    requires left { walk.left < length table.old.words }
    requires right { walk.right < length table.old.words }
    ensures joining { IfOk result (λ j.
        (norms : List (Option ℕ)) (words : List (List ℕ)) (x y : List ℕ) (old : List Pair) →
        IsUnderway norms words x y old table.old walk →
        HasNoDrop norms (word_of table.old.words walk.left) (word_of table.old.words walk.right) →
        IsJoining norms words x y old table.new.pairs j.steps.items j.heads) }
    ensures heads { IfOk result (λ j. j.heads ≡ walk.heads) }
    ensures kept { IfOk result (λ j. Keeps table.old.words table.new.words) }
{
    let mut steps = walk.before;
    let cut = table.number(walk.left, walk.right)?;
    note(&mut steps, walk.heads, cut)?;
    let mut after = walk.after;
    after.reverse();
    steps.append(&mut after)?;
    Ok(Joined {
        steps,
        heads: walk.heads,
    })
}

/// The way from one word to another by their cuts, which are added to the pairs, or none where the pairs and the heads that are dropped
/// on the way are together more than there is room for.
pub(crate) fn join(
    alloc: Global,
    norms: &[Option<u64>],
    words: &[Word],
    table: &mut Table,
    left: u32,
    right: u32,
    room: usize,
) -> Result<Option<Joined>, AllocError>
    requires left { left < length table.old.words }
    requires right { right < length table.old.words }
    requires below { AreBelow (length words.now) (word_of table.old.words left)
        (word_of table.old.words right) table.old.pairs }
    requires words { All (WordBelow (length words.now)) words.now }
    requires count { length norms.now ≡ length words.now }
    requires room { length table.old.pairs ≤ room }
    requires most { room < 2 ^ 32 }
    ensures joined { IfOk result (λ o. IfSome o
        (λ j. IsJoining norms.now words.now (word_of table.old.words left)
        (word_of table.old.words right) table.old.pairs table.new.pairs j.steps.items j.heads)) }
    ensures crowded { IfOk result (λ o. IfNone o
        (IsCrowded norms.now words.now (word_of table.old.words left)
        (word_of table.old.words right) table.old.pairs table.new.pairs room)) }
    ensures room { IfOk result (λ o. IfSome o (λ j. length table.new.pairs + j.heads ≤ room)) }
    ensures kept { IfOk result (λ o. Keeps table.old.words table.new.words) }
{
    let mut walk = Walk {
        left,
        right,
        heads: 0,
        before: Vec::new(alloc),
        after: Vec::new(alloc),
    };
    while let Some((side, norm)) = next_drop(norms, table, walk.left, walk.right) {
        drop_next(alloc, norms, words, table, &mut walk, side, norm)?;
        if table.len() + walk.heads > room {
            return Ok(None);
        }
    }
    let joined = finish(table, walk)?;
    if table.len() + joined.heads > room {
        return Ok(None);
    }
    Ok(Some(joined))
}
