ghost use Rattle.std.specs.Prelude.{suc, All, IfOk, IsTrue, ◌↔◌};
ghost use Rattle.fst_types.specs.Tree.{Tree};
ghost use Rattle.fst_lts.specs.Step.{step};
ghost use Rattle.fst_base.specs.Agreement.{AgreeTo, BothOrNeither};

use crate::moves::{labels, step_opening};
use fst_types::{Label, MOST_OPEN, Ty};
use std::alloc::{AllocError, Global};

/// Whether two types agree to a depth, straight from the definition: for small types and depths, since it
/// walks through every trace up to that length.
pub fn agree_to(alloc: Global, s: &Ty, r: &Ty, depth: u32) -> Result<bool, AllocError>
    ensures { IfOk result (λ agrees. IsTrue agrees ↔ AgreeTo step step depth s.now r.now) }
{
    agree_within(alloc, s, r, depth, MOST_OPEN)
}

// The same by a call that may open so many levels, those of the steps among them.
#[cycle(agree)]
fn agree_within(alloc: Global, s: &Ty, r: &Ty, depth: u32, left: u32) -> Result<bool, AllocError>
    ensures { IfOk result (λ agrees. IsTrue agrees ↔ AgreeTo step step depth s.now r.now) }
{
    if depth == 0 {
        return Ok(true);
    }
    if left == 0 {
        return Err(AllocError);
    }
    agree_deeper(alloc, s, r, depth - 1, left - 1)
}

// Whether two types agree one deeper than this depth.
#[cycle(agree)]
fn agree_deeper(alloc: Global, s: &Ty, r: &Ty, depth: u32, left: u32) -> Result<bool, AllocError>
    ensures { IfOk result (λ agrees. IsTrue agrees ↔ AgreeTo step step (suc depth) s.now r.now) }
{
    let first = labels(alloc, s)?;
    if !agree_after_all(alloc, s, r, &first, depth, left)? {
        return Ok(false);
    }
    let second = labels(alloc, r)?;
    agree_after_all(alloc, s, r, &second, depth, left)
}

// Whether both types move by each of the labels or neither does, and then agree to the depth.
#[cycle(agree)]
fn agree_after_all(
    alloc: Global,
    s: &Ty,
    r: &Ty,
    labels: &[Label],
    depth: u32,
    left: u32,
) -> Result<bool, AllocError>
    ensures { IfOk result (λ agrees. IsTrue agrees ↔ All
        (λ a. BothOrNeither (AgreeTo step step depth) (step s.now a) (step r.now a)) labels.now) }
{
    for label in labels {
        if !agree_after(alloc, s, r, label, depth, left)? {
            return Ok(false);
        }
    }
    Ok(true)
}

#[cycle(agree)]
fn agree_after(
    alloc: Global,
    s: &Ty,
    r: &Ty,
    label: &Label,
    depth: u32,
    left: u32,
) -> Result<bool, AllocError>
    ensures { IfOk result (λ agrees. IsTrue agrees ↔ BothOrNeither (AgreeTo step step depth)
        (step s.now label.now) (step r.now label.now)) }
{
    match (
        step_opening(alloc, s, label, left)?,
        step_opening(alloc, r, label, left)?,
    ) {
        (None, None) => Ok(true),
        (None, Some(_)) => Ok(false),
        (Some(_), None) => Ok(false),
        (Some(x), Some(y)) => agree_within(alloc, &x, &y, depth, left),
    }
}
