//! The least trace that tells two words apart.

ghost use Rattle.std.specs.Prelude.{IfOk, length};
ghost use Rattle.fst_types.specs.Order.{label_cmp};
ghost use Rattle.fst_types.specs.Differences.{IsLeastDistinguishingTrace};
ghost use Rattle.fst_base.specs.Order.{IsRising};
ghost use Rattle.fst_words.specs.Words.{InRange, LettersBelow, WordBelow, label_step};
ghost use Rattle.fst_words.specs.Differences.{Differ};

use crate::answers::Found;
use crate::breadth::search;
use fst_base::MOST_LISTED;
use fst_norms::unnormed;
use fst_types::{Label, Side};
use fst_words::{Grammar, Word};
use std::alloc::{AllocError, Global};

/// The least trace that one of two words alone performs, and whose it is. There is one, and the search for it lists no more pairs than the
/// limit: past that it wants memory.
pub fn least(
    alloc: Global,
    g: &Grammar,
    u: &Word,
    v: &Word,
) -> Result<(Vec<Label>, Side), AllocError>
    requires grammar { InRange g.now.rules.items }
    requires letters { LettersBelow (length g.now.letters.items) g.now.rules.items }
    requires rising { IsRising label_cmp g.now.letters.items }
    requires left { WordBelow (length g.now.rules.items) u.now }
    requires right { WordBelow (length g.now.rules.items) v.now }
    requires differ { Differ g.now.rules.items u.now v.now }
    ensures { IfOk result (λ d. IsLeastDistinguishingTrace
        (label_step g.now.letters.items g.now.rules.items)
        (label_step g.now.letters.items g.now.rules.items) label_cmp u.now v.now d.0.items d.1) }
{
    let marks = unnormed(alloc, g)?;
    match search(alloc, g, &marks, u, v, MOST_LISTED)? {
        Found::Differ(trace, side) => Ok((trace, side)),
        Found::Equal(_) => unreachable!(),
        Found::Spent(_) => Err(AllocError),
    }
}
