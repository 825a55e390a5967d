ghost use Rattle.std.specs.Prelude.{◌≡◌, ◌<◌, ℕ, IfOk, length, sum_by};
ghost use Rattle.std.specs.Bool.{OnTrue, OnFalse};
ghost use Rattle.fst_words.specs.Words.{InRange};
ghost use Rattle.fst_norms.specs.Norms.{IsNormOrNone};
ghost use Rattle.fst_norms.specs.Bounds.{weight, bound_at, IsSound, IsSettledAt};

use crate::bounds::{best_bound, weight};
use crate::estimate::first_bounds;
use fst_words::Grammar;
use std::alloc::{AllocError, Global};

// Lowers each bound to the best one by the rules, and says whether one was lowered.
fn improve(g: &Grammar, bounds: &mut Vec<Option<u64>>) -> bool
    requires range { InRange g.now.rules.items }
    requires len { length bounds.old.items ≡ length g.now.rules.items }
    requires sound { IsSound g.now.rules.items bounds.old.items }
    ensures len { length bounds.new.items ≡ length bounds.old.items }
    ensures sound { IsSound g.now.rules.items bounds.new.items }
    ensures lower { OnTrue result (sum_by weight bounds.new.items < sum_by weight
        bounds.old.items) }
    ensures settled { OnFalse result ((n : ℕ) → IsSettledAt g.now.rules.items bounds.new.items n) }
{
    let mut changed = false;
    for n in 0..g.rules.len() {
        let best = best_bound(bounds, g.rules[n].as_slice());
        if weight(best) < weight(bounds[n]) {
            bounds[n] = best;
            changed = true;
        }
    }
    changed
}

/// The norm of each non-terminal, the length of a shortest trace of letters that takes it to the empty word,
/// or none where no trace does. A norm above 2^63 is given as 2^63.
pub fn norms(alloc: Global, g: &Grammar) -> Result<Vec<Option<u64>>, AllocError>
    requires { InRange g.now.rules.items }
    ensures len { IfOk result (λ norms. length norms.items ≡ length g.now.rules.items) }
    ensures each { IfOk result (λ norms. (n : ℕ) →
        IsNormOrNone g.now.rules.items n (bound_at norms.items n)) }
{
    let mut bounds = first_bounds(alloc, g)?;
    while improve(g, &mut bounds) {}
    Ok(bounds)
}
