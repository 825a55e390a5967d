//! Which head of two words is dropped, and what is left of the words then.

ghost use Rattle.std.specs.Prelude.{◌≡◌, ◌≢◌, ◌<◌, [], Some, All, IfNone, IfOk, IfSome, length};
ghost use Rattle.fst_types.specs.declared.side.Side.TheVariants.{Left, Right};
ghost use Rattle.fst_words.specs.Words.{WordBelow};
ghost use Rattle.fst_shared.specs.Shared.{Keeps, word_of};
ghost use Rattle.fst_expand.specs.Cuts.{dropped, exact, head_cut, head_norm, left_rest, right_rest};
ghost use Rattle.fst_expand.specs.Table.{AreNumbered};
ghost use Rattle.fst_expand.specs.Trail.{HasNoDrop};

use crate::lowering::lowered;
use crate::table::Table;
use fst_base::GREATEST_NORM;
use fst_types::Side;
use fst_words::Word;
use std::alloc::{AllocError, Global};

// The most steps by which the other head is lowered.
const MOST_STEPS: u64 = 4096;

// A norm, where it is below 2^63.
fn exact(norm: Option<u64>) -> Option<u64>
    ensures { result ≡ exact norm }
{
    match norm {
        None => None,
        Some(k) => { if k < GREATEST_NORM { Some(k) } else { None } }
    }
}

// Of two heads with these norms, which is dropped, and its norm.
fn dropped(left: Option<u64>, right: Option<u64>) -> Option<(Side, u64)>
    ensures { result ≡ dropped left right }
{
    let (Some(j), Some(k)) = (left, right) else {
        return None;
    };
    if j <= k {
        if j <= MOST_STEPS {
            Some((Side::Left, j))
        } else {
            None
        }
    } else if k <= MOST_STEPS {
        Some((Side::Right, k))
    } else {
        None
    }
}

// The norm of a word's head, where it has one below 2^63.
fn head_norm(norms: &[Option<u64>], table: &Table, word: u32) -> Option<u64>
    requires word { word < length table.now.words }
    requires range { WordBelow (length norms.now) (word_of table.now.words word) }
    ensures { result ≡ head_norm norms.now (word_of table.now.words word) }
{
    match table.head(word) {
        None => None,
        Some(n) => exact(norms[n as usize]),
    }
}

/// Whose head of two words is dropped, and its norm, or none where the words are the same or no head is.
pub(crate) fn next_drop(
    norms: &[Option<u64>],
    table: &Table,
    left: u32,
    right: u32,
) -> Option<(Side, u64)>
    requires left { left < length table.now.words }
    requires right { right < length table.now.words }
    requires left_range { WordBelow (length norms.now) (word_of table.now.words left) }
    requires right_range { WordBelow (length norms.now) (word_of table.now.words right) }
    ensures none { IfNone result (HasNoDrop norms.now (word_of table.now.words left)
        (word_of table.now.words right)) }
    ensures some { IfSome result (λ d. dropped (head_norm norms.now (word_of table.now.words left))
        (head_norm norms.now (word_of table.now.words right)) ≡ Some d) }
    ensures other { IfSome result (λ d.
        word_of table.now.words left ≢ word_of table.now.words right) }
{
    if table.same(left, right) {
        return None;
    }
    dropped(
        head_norm(norms, table, left),
        head_norm(norms, table, right),
    )
}

/// What is left of two words once a head is dropped, and the number of the cut, if there is one.
#[derive(Drop)]
pub(crate) struct Rests {
    pub(crate) left: u32,
    pub(crate) right: u32,
    pub(crate) cut: Option<u32>,
}

/// Drops the head of the left word, which has this norm.
pub(crate) fn drop_left(
    alloc: Global,
    words: &[Word],
    table: &mut Table,
    norm: u64,
    left: u32,
    right: u32,
) -> Result<Rests, AllocError>
    requires left { left < length table.old.words }
    requires right { right < length table.old.words }
    requires left_some { word_of table.old.words left ≢ [] }
    requires right_some { word_of table.old.words right ≢ [] }
    requires range { WordBelow (length words.now) (word_of table.old.words right) }
    requires words { All (WordBelow (length words.now)) words.now }
    ensures left { IfOk result (λ r. word_of table.new.words r.left ≡ left_rest words.now Left norm
        (word_of table.old.words left)) }
    ensures right { IfOk result (λ r. word_of table.new.words r.right ≡ right_rest words.now Left
        norm (word_of table.old.words right)) }
    ensures left_within { IfOk result (λ r. r.left < length table.new.words) }
    ensures right_within { IfOk result (λ r. r.right < length table.new.words) }
    ensures cut { IfOk result (λ r. AreNumbered
        (head_cut words.now Left norm (word_of table.old.words left)
        (word_of table.old.words right)) table.old.pairs table.new.pairs r.cut) }
    ensures kept { IfOk result (λ r. Keeps table.old.words table.new.words) }
{
    let (head, left_rest) = table.parts(left);
    let (other, right_tail) = table.parts(right);
    let lower = lowered(alloc, words, other, norm)?;
    let right_rest = table.concat(&lower, right_tail)?;
    let from = table.headed(head, &lower)?;
    let to = table.headed(other, &[])?;
    let cut = table.number(from, to)?;
    Ok(Rests {
        left: left_rest,
        right: right_rest,
        cut,
    })
}

/// Drops the head of the right word, which has this norm.
pub(crate) fn drop_right(
    alloc: Global,
    words: &[Word],
    table: &mut Table,
    norm: u64,
    left: u32,
    right: u32,
) -> Result<Rests, AllocError>
    requires left { left < length table.old.words }
    requires right { right < length table.old.words }
    requires left_some { word_of table.old.words left ≢ [] }
    requires right_some { word_of table.old.words right ≢ [] }
    requires range { WordBelow (length words.now) (word_of table.old.words left) }
    requires words { All (WordBelow (length words.now)) words.now }
    ensures left { IfOk result (λ r. word_of table.new.words r.left ≡ left_rest words.now Right norm
        (word_of table.old.words left)) }
    ensures right { IfOk result (λ r. word_of table.new.words r.right ≡ right_rest words.now Right
        norm (word_of table.old.words right)) }
    ensures left_within { IfOk result (λ r. r.left < length table.new.words) }
    ensures right_within { IfOk result (λ r. r.right < length table.new.words) }
    ensures cut { IfOk result (λ r. AreNumbered
        (head_cut words.now Right norm (word_of table.old.words left)
        (word_of table.old.words right)) table.old.pairs table.new.pairs r.cut) }
    ensures kept { IfOk result (λ r. Keeps table.old.words table.new.words) }
{
    let (other, left_tail) = table.parts(left);
    let (head, right_rest) = table.parts(right);
    let lower = lowered(alloc, words, other, norm)?;
    let left_rest = table.concat(&lower, left_tail)?;
    let from = table.headed(other, &[])?;
    let to = table.headed(head, &lower)?;
    let cut = table.number(from, to)?;
    Ok(Rests {
        left: left_rest,
        right: right_rest,
        cut,
    })
}
