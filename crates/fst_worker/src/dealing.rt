//! Tasks are dealt out to shares, and taken in again.

ghost use Rattle.std.specs.Prelude.{◌≡◌, ◌<◌, ◌++◌, [], All, IfOk, IsPermutation, OnOk, length};
ghost use Rattle.fst_worker.specs.Shares.{all_of, all_tasks};
ghost use Rattle.fst_worker.specs.Dealing.{IsEmpty, IsDealt};

use crate::shares::Share;
use fst_safety::TypedTask;
use std::alloc::{AllocError, Global};

// So many shares with no task.
fn empty_shares(alloc: Global, count: usize) -> Result<Vec<Share>, AllocError>
    ensures len { IfOk result (λ ss. length ss.items ≡ count) }
    ensures empty { IfOk result (λ ss. All IsEmpty ss.items) }
{
    let mut shares = Vec::new(alloc);
    for _ in 0..count {
        shares.push(Share {
            tasks: Vec::new(alloc),
            forked: Vec::new(alloc),
            ended: Vec::new(alloc),
            events: 0,
            moved: false,
            refused: false,
        })?;
    }
    Ok(shares)
}

/// Deals tasks out: the k-th, counted from 0, goes to the share k modulo the number of shares.
pub(crate) fn deal(
    alloc: Global,
    tasks: Vec<TypedTask>,
    count: usize,
) -> Result<Vec<Share>, AllocError>
    requires { 0 < count }
    ensures { IfOk result (λ ss. IsDealt tasks.items ss.items) }
{
    let mut shares = empty_shares(alloc, count)?;
    let mut at = 0;
    for task in tasks {
        let share = &mut shares[at];
        share.tasks.push(task)?;
        at += 1;
        if at == count {
            at = 0;
        }
    }
    Ok(shares)
}

// Adds the tasks of a share to those that go on and to those that have ended.
fn take_in(
    share: Share,
    tasks: &mut Vec<TypedTask>,
    ended: &mut Vec<TypedTask>,
) -> Result<(), AllocError>
    ensures { OnOk result (IsPermutation (all_of share ++ (tasks.old.items ++ ended.old.items))
        (tasks.new.items ++ ended.new.items)) }
{
    let Share {
        tasks: mut own,
        mut forked,
        ended: mut over,
        ..
    } = share;
    tasks.append(&mut own)?;
    tasks.append(&mut forked)?;
    ended.append(&mut over)?;
    Ok(())
}

/// Takes the tasks of all shares in, those that go on in the order of their paths, and those that have ended beside others.
pub(crate) fn gather(
    alloc: Global,
    shares: Vec<Share>,
    ended: &mut Vec<TypedTask>,
) -> Result<Vec<TypedTask>, AllocError>
    ensures { IfOk result (λ ts. IsPermutation (all_tasks shares.items ++ ended.old.items)
        (ts.items ++ ended.new.items)) }
{
    let mut tasks = Vec::new(alloc);
    for share in shares {
        take_in(share, &mut tasks, ended)?;
    }
    tasks.sort_by(|one: &TypedTask, other: &TypedTask| {
        one.task.path().as_slice().cmp(other.task.path().as_slice())
    })?;
    Ok(tasks)
}
