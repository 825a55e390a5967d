//! The end of a run: its channels are closed, the tasks whose offer was taken are told so, and the machine goes on.

ghost use Rattle.std.specs.Prelude.{◌≡◌, ◌+◌, ◌≤◌, ◌<◌, ◌++◌, ℕ, IfOk, IsTrue, OnOk, sum_by, true};
ghost use Rattle.std.specs.List.Sorted.{IsStrictlySortedBy};
ghost use Rattle.fst_lts.specs.Histories.{last_stamp};
ghost use Rattle.fst_runs.specs.Configs.{same_side};
ghost use Rattle.fst_worker.specs.Closing.{name_cmp, names_of};
ghost use Rattle.fst_worker.specs.Records.{histories_of, stands_on};
ghost use Rattle.fst_worker.specs.Ending.{AreBare, AreTellable, AreToldTo, IsBare, IsTellable, IsToldTo, TellsWaiting, ends_of};

use crate::closing::closed_at;
use fst_cell::{Closed, End};
use fst_machine::{Answer, Code};
use fst_safety::{KeptEntry, TypedTask};
use fst_types::{EndName, Entry, Event, Path, Side};
use fst_vm::Task;
use std::alloc::{AllocError, Global};

// A task whose ends were taken from it: its machine, its clock, its log, and the name of its end that waits, if one does.
#[derive(Drop)]
pub(crate) struct Bare {
    task: Task,
    clock: u64,
    log: Vec<KeptEntry>,
    waits: Option<EndName>,
}

/// The log of the task with a path.
#[derive(Drop)]
pub(crate) struct TaskLog {
    pub(crate) path: Path,
    pub(crate) entries: Vec<KeptEntry>,
}

// The name of the end that waits.
fn waiting(alloc: Global, bag: &[End]) -> Result<Option<EndName>, AllocError>
    ensures { IfOk result (TellsWaiting bag.now) }
{
    for end in bag {
        if end.waiting() {
            let name = end.name().copy(alloc)?;
            return Ok(Some(name));
        }
    }
    Ok(None)
}

// Takes the ends of a task and puts them behind others.
fn strip(alloc: Global, task: TypedTask, ends: &mut Vec<End>) -> Result<Bare, AllocError>
    ensures bare { IfOk result (IsBare task) }
    ensures ends { OnOk result (ends.new.items ≡ ends.old.items
        ++ (task.bag.items ++ task.retired.items)) }
{
    let TypedTask {
        task,
        mut bag,
        mut retired,
        clock,
        log,
        ..
    } = task;
    let waits = waiting(alloc, bag.as_slice())?;
    ends.append(&mut bag)?;
    ends.append(&mut retired)?;
    Ok(Bare {
        task,
        clock,
        log,
        waits,
    })
}

/// Takes the ends of tasks and puts them behind others.
pub(crate) fn strip_all(
    alloc: Global,
    tasks: Vec<TypedTask>,
    ends: &mut Vec<End>,
) -> Result<Vec<Bare>, AllocError>
    ensures bare { IfOk result (λ bs. AreBare tasks.items bs.items) }
    ensures ends { OnOk result (ends.new.items ≡ ends.old.items ++ ends_of tasks.items) }
{
    let mut bare = Vec::new(alloc);
    for task in tasks {
        bare.push(strip(alloc, task, ends)?)?;
    }
    Ok(bare)
}

// Whether the sides are the same.
fn is_same_side(one: Side, other: Side) -> bool
    ensures { result ≡ same_side one other }
{
    match (one, other) {
        (Side::Left, Side::Left) => true,
        (Side::Right, Side::Right) => true,
        _ => false,
    }
}

// Whether the offer of this side stands.
fn stands(side: Side, offered: &Option<(Side, Event)>) -> bool
    ensures { result ≡ stands_on side offered.now }
{
    match offered {
        Some((of, _)) => is_same_side(side, *of),
        None => false,
    }
}

// The stamp of the last entry.
fn latest(entries: &[Entry]) -> u64
    ensures { result ≡ last_stamp entries.now }
{
    match entries.last() {
        Some(entry) => entry.stamp,
        None => 0,
    }
}

// Tells a task whose offer was taken that it was, with the stamp of the last entry of its channel. The task with its clock, and
// its log.
fn tell(
    alloc: Global,
    code: &Code,
    bare: Bare,
    closed: &[Closed],
) -> Result<((Task, u64), TaskLog), AllocError>
    requires order { IsStrictlySortedBy name_cmp (names_of closed.now) }
    requires can { IsTellable code.now bare closed.now }
    ensures { IfOk result (λ p. (d : IsTellable code.now bare closed.now) →
        IsToldTo code.now (histories_of d.run.pairs) d.thread p.0.0 p.0.1 p.1) }
{
    let Bare {
        mut task,
        clock,
        log: mut entries,
        waits,
    } = bare;
    let path = task.path().copy(alloc)?;
    let Some(name) = waits else {
        return Ok(((task, clock), TaskLog { path, entries }));
    };
    let Some(channel) = closed_at(closed, &name.channel) else {
        unreachable!()
    };
    if stands(name.side, &channel.offered) {
        return Ok(((task, clock), TaskLog { path, entries }));
    }
    let Ok(asked) = task.advance(code) else {
        return Err(AllocError);
    };
    let Ok(()) = task.resume(code, Answer::Sent) else {
        return Err(AllocError);
    };
    let stamp = latest(channel.history.entries.as_slice());
    entries.push(KeptEntry::new(alloc, asked, Answer::Sent, stamp)?)?;
    Ok(((task, stamp), TaskLog { path, entries }))
}

/// Tells all tasks whose offers were taken. The tasks with their clocks, and their logs, in the same order.
pub(crate) fn tell_all(
    alloc: Global,
    code: &Code,
    bare: Vec<Bare>,
    closed: &[Closed],
) -> Result<(Vec<(Task, u64)>, Vec<TaskLog>), AllocError>
    requires order { IsStrictlySortedBy name_cmp (names_of closed.now) }
    requires can { AreTellable code.now bare.items closed.now }
    ensures { IfOk result (λ p. (d : AreTellable code.now bare.items closed.now) →
        AreToldTo code.now (histories_of d.run.pairs) d.run.threads p.0.items p.1.items) }
{
    let mut tasks = Vec::new(alloc);
    let mut logs = Vec::new(alloc);
    for one in bare {
        let (task, log) = tell(alloc, code, one, closed)?;
        tasks.push(task)?;
        logs.push(log)?;
    }
    Ok((tasks, logs))
}
