//! A run whose tasks go no further by turns is finished on the machine.

ghost use Rattle.std.specs.Prelude.{◌≡◌, ◌+◌, ◌<◌, ◌≤◌, ℕ, All, IfOk, length, map};
ghost use Rattle.fst_process.specs.Marks.{forks_behind};
ghost use Rattle.fst_records.specs.Growing.{alone};
ghost use Rattle.fst_worker.specs.Finishing.{AreMarksOf, AreRunOf, IsFinished, IsLogged, IsSettled, IsUpTo, alone_in, alone_of, entries_of};

use crate::closing::close_all;
use crate::ending::{TaskLog, strip_all, tell_all};
use crate::marking::{joined, log_marks};
use crate::workers::Logged;
use fst_cell::Closed;
use fst_machine::{Answer, Code};
use fst_process::{Config, Outcome, TaskMarks, run_from, run_marked};
use fst_safety::{KeptEntry, TypedTask, stays_law};
use fst_types::ChannelHistory;
use std::alloc::{AllocError, Global};

/// A run that the machine can go on with, and the logs of its tasks up to there.
#[derive(Drop)]
pub(crate) struct Settled {
    config: Config,
    logs: Vec<TaskLog>,
}

impl Settled {
    // The run alone.
    fn without_logs(self) -> Config
        ensures { result ≡ self.config }
    {
        self.config
    }
}

/// What becomes of a run: all its channels are closed, each task whose offer was taken is told so, and the machine goes on from
/// there. The events of the record that this makes count among the steps. Where memory is wanting, the tasks are dropped.
pub(crate) fn finish(
    alloc: Global,
    code: &Code,
    tasks: Vec<TypedTask>,
    steps: u64,
) -> Result<Outcome, AllocError>
    requires few { steps < 4294967295 }
    requires run { AreRunOf code.now tasks.items }
    ensures { IfOk result (IsFinished code.now tasks.items steps) }
{
    let Some(settled) = settle(alloc, code, tasks, steps)? else {
        return Ok(Outcome::OutOfSteps);
    };
    let config = settled.without_logs();
    run_from(config, code, steps)
}

/// The same, with the marks of what the tasks have done, in the record and from there on.
pub(crate) fn finish_logged(
    alloc: Global,
    code: &Code,
    tasks: Vec<TypedTask>,
    steps: u64,
) -> Result<Logged, AllocError>
    requires few { steps < 4294967295 }
    requires run { AreRunOf code.now tasks.items }
    ensures { IfOk result (IsLogged code.now tasks.items steps) }
{
    let Some(settled) = settle(alloc, code, tasks, steps)? else {
        return Ok(Logged::OutOfSteps);
    };
    let Settled { config, logs } = settled;
    let (outcome, more) = run_marked(alloc, config, code, steps)?;
    match outcome {
        Outcome::Done(report) => {
            let first = marks_of(alloc, logs)?;
            let marks = joined(alloc, first, more)?;
            Ok(Logged::Done(report, marks))
        }
        Outcome::OutOfSteps => Ok(Logged::OutOfSteps),
    }
}

// Closes all channels of a run and tells each task whose offer was taken that it was. None where the events of the record that
// this makes are more than the steps.
fn settle(
    alloc: Global,
    code: &Code,
    tasks: Vec<TypedTask>,
    steps: u64,
) -> Result<Option<Settled>, AllocError>
    requires few { steps < 4294967295 }
    requires run { AreRunOf code.now tasks.items }
    ensures { IfOk result (IsSettled code.now tasks.items steps) }
{
    stays_law();
    let alone = count_alone(tasks.as_slice(), steps);
    let mut ends = Vec::new(alloc);
    let bare = strip_all(alloc, tasks, &mut ends)?;
    let closed = close_all(alloc, ends)?;
    let (told, logs) = tell_all(alloc, code, bare, closed.as_slice())?;
    let events = count_entries(closed.as_slice(), alone, steps);
    if events > steps {
        return Ok(None);
    }
    let channels = histories(alloc, closed)?;
    let config = Config::resumed(alloc, code, told, channels, events)?;
    Ok(Some(Settled { config, logs }))
}

// The marks of logs, in the same order.
fn marks_of(alloc: Global, logs: Vec<TaskLog>) -> Result<Vec<TaskMarks>, AllocError>
    requires { All (λ l. forks_behind 0 l.entries.items < 4294967295) logs.items }
    ensures { IfOk result (λ ts. AreMarksOf logs.items ts.items) }
{
    let mut tasks = Vec::new(alloc);
    for log in logs {
        let TaskLog { path, entries } = log;
        tasks.push(log_marks(alloc, path, entries)?)?;
    }
    Ok(tasks)
}

// 1 for an entry for what a task does alone.
fn one_alone(entry: &KeptEntry) -> u64
    ensures { result ≡ alone entry.now.answer }
{
    match entry.told() {
        None => 1,
        Some(Answer::Go) => 1,
        Some(Answer::Made(_)) => 1,
        Some(Answer::Forked) => 1,
        Some(Answer::Sent) => 0,
        Some(Answer::Got(_)) => 0,
    }
}

// How many entries of a log are for what the task does alone.
fn count_log(log: &[KeptEntry]) -> u64
    ensures value { result ≡ alone_in log.now }
    ensures few { result ≤ length log.now }
{
    let mut count = 0;
    for entry in log {
        count += one_alone(entry);
    }
    count
}

// How many entries of the logs are for what the tasks do alone. Where they are more than `steps`, not all are counted.
fn count_alone(tasks: &[TypedTask], steps: u64) -> u64
    requires { steps < 4294967295 }
    ensures { IsUpTo steps (alone_of tasks.now) result }
{
    let mut count = 0;
    for task in tasks {
        if count <= steps {
            count += count_log(task.log.as_slice());
        }
    }
    count
}

// The count, with the entries of the histories. Where that is more than `steps`, not all are counted.
fn count_entries(closed: &[Closed], alone: u64, steps: u64) -> u64
    requires few { steps < 4294967295 }
    ensures { (n : ℕ) → IsUpTo steps n alone → IsUpTo steps (n + entries_of closed.now) result }
{
    let mut count = alone;
    for channel in closed {
        if count <= steps {
            count += channel.history.entries.len() as u64;
        }
    }
    count
}

// The histories of closed channels.
fn histories(alloc: Global, closed: Vec<Closed>) -> Result<Vec<ChannelHistory>, AllocError>
    ensures { IfOk result (λ hs. hs.items ≡ map (λ c. c.history) closed.items) }
{
    let mut channels = Vec::new(alloc);
    for channel in closed {
        channels.push(channel.history)?;
    }
    Ok(channels)
}
