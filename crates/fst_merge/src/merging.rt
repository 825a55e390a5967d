//! The events of a record, each once and in order.

ghost use Rattle.std.specs.Prelude.{◌≡◌, ◌++◌, IfOk, IsPermutation, OnOk};
ghost use Rattle.std.specs.List.Sorted.{IsSorted};
ghost use Rattle.fst_runs.specs.Order.{lesser, path_of};
ghost use Rattle.fst_records.specs.Gathering.{event_at, gathered, getter};
ghost use Rattle.fst_merge.specs.Getters.{ForParts, receipt_cmp};
ghost use Rattle.fst_merge.specs.Merging.{AreMerged, AreOfRecord, event_cmp};
ghost use Rattle.fst_merge.specs.Receipts.{deed_of, parts_in, parts_of_task};

use crate::receipts::{Receipt, getter, receipts};
use fst_process::{Done, Mark, TaskMarks};
use fst_runs::{CoreEvent, Stamped};
use fst_types::{ChannelName, Path};
use std::alloc::{AllocError, Global};
use std::cmp::Ordering;

/// The events of a record that fits, given the marks of all its tasks in any order: each event once, sorted by stamps and then by
/// paths, where two tasks that meet count by the lesser of their paths. They are a run with these stamps, which leads from `main`
/// to the tasks and histories of the record.
pub fn merge(alloc: Global, tasks: &[TaskMarks]) -> Result<Vec<Stamped>, AllocError>
    ensures { IfOk result (λ es. (d : AreOfRecord tasks.now) → AreMerged tasks.now d es.items) }
{
    let receipts = receipts(alloc, tasks)?;
    let mut events = gather(alloc, &receipts, tasks)?;
    sort(&mut events)?;
    Ok(events)
}

// The events that the marks of tasks begin.
fn gather(
    alloc: Global,
    receipts: &[Receipt<'_>],
    tasks: &[TaskMarks],
) -> Result<Vec<Stamped>, AllocError>
    requires { IsSorted receipt_cmp receipts.now }
    ensures { IfOk result (λ es. ForParts receipts.now (λ all.
        es.items ≡ gathered all (parts_in tasks.now))) }
{
    let mut events = Vec::new(alloc);
    for task in tasks {
        add_task(alloc, &mut events, receipts, task)?;
    }
    Ok(events)
}

// Adds the events that the marks of a task begin.
fn add_task(
    alloc: Global,
    events: &mut Vec<Stamped>,
    receipts: &[Receipt<'_>],
    task: &TaskMarks,
) -> Result<(), AllocError>
    requires { IsSorted receipt_cmp receipts.now }
    ensures { OnOk result (ForParts receipts.now (λ all.
        events.new.items ≡ events.old.items ++ gathered all (parts_of_task task.now))) }
{
    for mark in &task.marks {
        add_mark(alloc, events, receipts, &task.path, mark)?;
    }
    Ok(())
}

// Adds the event that a mark of the task with this path begins, if it begins one.
fn add_mark(
    alloc: Global,
    events: &mut Vec<Stamped>,
    receipts: &[Receipt<'_>],
    path: &Path,
    mark: &Mark,
) -> Result<(), AllocError>
    requires { IsSorted receipt_cmp receipts.now }
    ensures { OnOk result (ForParts receipts.now (λ all.
        events.new.items ≡ events.old.items ++
        event_at all path.now mark.now.stamp (deed_of mark.now.done))) }
{
    let event = match &mark.done {
        Done::Local => CoreEvent::Local(path.copy(alloc)?),
        Done::Made(_) => CoreEvent::New(path.copy(alloc)?),
        Done::Forked(_) => CoreEvent::Fork(path.copy(alloc)?),
        Done::Put(end, _) => meeting(alloc, receipts, path, &end.channel, mark.stamp)?,
        Done::Got(_, _) => return Ok(()),
    };
    events.push(Stamped {
        event,
        stamp: mark.stamp,
    })?;
    Ok(())
}

// The event in which the task with this path sends over a channel at this stamp.
fn meeting(
    alloc: Global,
    receipts: &[Receipt<'_>],
    sender: &Path,
    channel: &ChannelName,
    stamp: u64,
) -> Result<CoreEvent, AllocError>
    requires { IsSorted receipt_cmp receipts.now }
    ensures { IfOk result (λ e. ForParts receipts.now (λ all.
        e ≡ CoreEvent.Meet sender.now (getter all channel.now stamp) channel.now)) }
{
    let receiver = match getter(receipts, channel, stamp) {
        Some(path) => path.copy(alloc)?,
        None => Path::of(alloc, &[])?,
    };
    Ok(CoreEvent::Meet(sender.copy(alloc)?, receiver, channel.copy(alloc)?))
}

// Puts events in the order of their stamps and paths.
fn sort(events: &mut Vec<Stamped>) -> Result<(), AllocError>
    ensures same { IsPermutation events.old.items events.new.items }
    ensures sorted { OnOk result (IsSorted event_cmp events.new.items) }
{
    events.sort_by(by_place)
}

// How two events compare: by their stamps, and then by their paths.
fn by_place(one: &Stamped, other: &Stamped) -> Ordering
    ensures { result ≡ event_cmp one.now other.now }
{
    match one.stamp.cmp(&other.stamp) {
        Ordering::Equal => {
            let path = path_of(&one.event);
            path.as_slice().cmp(path_of(&other.event).as_slice())
        }
        by_stamp => by_stamp,
    }
}

// The path by which an event is placed.
fn path_of(event: &CoreEvent) -> &Path
    ensures { result.now ≡ path_of event.now }
{
    match event {
        CoreEvent::Local(path) => path,
        CoreEvent::New(path) => path,
        CoreEvent::Fork(path) => path,
        CoreEvent::Meet(sender, receiver, _) => lesser(sender, receiver),
    }
}

// The lesser of two paths.
fn lesser<'a>(one: &'a Path, other: &'a Path) -> &'a Path
    ensures { result.now ≡ lesser one.now other.now }
{
    if other.as_slice().cmp(one.as_slice()).is_lt() {
        other
    } else {
        one
    }
}
