//! A run on several workers, from its beginning to its end.

ghost use Rattle.std.specs.Prelude.{◌<◌, ◌≤◌, ◌++◌, IfOk};
ghost use Rattle.fst_safety.specs.Tasks.{CanBegin};
ghost use Rattle.fst_worker.specs.Working.{IsLoggedOut, IsOnRecord, IsWholeRun, IsWorkedOut};

use crate::dealing::{deal, gather};
use crate::finishing::{finish, finish_logged};
use crate::rounds::{round, tries_of};
use crate::tries::Progress;
use fst_io::Gate;
use fst_machine::Code;
use fst_process::{Outcome, Report, TaskMarks};
use fst_safety::TypedTask;
use std::alloc::{AllocError, Global};
use std::thread::Threads;

// How many rounds there are at most. No run comes so far: of two rounds one moves a task.
const ROUNDS: u64 = u64::MAX;

// How much the clocks may grow in a round, but for one event: then the tasks that were forked in it move, too.
const SLICE: u64 = 4096;

// Where nothing was forked in the last round they may grow by so many times what they are besides, since each round starts threads.
const GROWTH: u64 = 3;

/// What a run on several workers comes to, with the marks of what its tasks have done.
#[derive(Drop)]
pub enum Logged {
    /// Its report, and what each task has done.
    Done(Report, Vec<TaskMarks>),
    /// It has more events than steps.
    OutOfSteps,
}

/// What becomes of the run of a module that has derivations, on so many workers. Before each round the tasks left are dealt out:
/// the k-th in the order of their paths, counted from 0, goes to the share k modulo the number of shares, of which there are as
/// many as workers, but none that would be empty, unless it is the second of the first round. In a round the clocks grow by a
/// slice. The rounds end where the events or the clock of a task exceed the steps, where too much was tried in vain, and where a
/// round moves no task and one with a single share moves none either. The run is then finished on the machine.
///
/// The answer is that of the module's least run, whatever the number of workers and in whichever order they move: its report, or
/// that it has more events than the steps. And it is the report of a record that fits the module, has at most so many events and
/// allows no other, or that a record that fits has more events. Where memory is wanting, the tasks are dropped.
pub fn run_workers<R: Threads + Sync, G: Gate + Sync>(
    rt: &R,
    alloc: Global,
    code: &Code,
    steps: u64,
    workers: u32,
    gate: &G,
) -> Result<Outcome, AllocError>
    requires few { steps < 4294967295 }
    requires workers { 0 < workers }
    requires right { CanBegin code.now }
    ensures answer { IfOk result (IsWorkedOut code.now steps) }
    ensures recorded { IfOk result (IsOnRecord code.now steps) }
{
    let tasks = all_rounds(rt, alloc, code, steps, workers as usize, gate)?;
    finish(alloc, code, tasks, steps)
}

/// The same, with the marks of what the tasks have done: those of the logs of the record whose report it is. With one worker there
/// are no rounds.
pub fn run_logged<R: Threads + Sync, G: Gate + Sync>(
    rt: &R,
    alloc: Global,
    code: &Code,
    steps: u64,
    workers: u32,
    gate: &G,
) -> Result<Logged, AllocError>
    requires few { steps < 4294967295 }
    requires workers { 0 < workers }
    requires right { CanBegin code.now }
    ensures { IfOk result (IsLoggedOut code.now steps) }
{
    let tasks = logged_rounds(rt, alloc, code, steps, workers as usize, gate)?;
    finish_logged(alloc, code, tasks, steps)
}

// The task of `main` alone.
fn first_task(alloc: Global, code: &Code) -> Result<Vec<TypedTask>, AllocError>
    requires { CanBegin code.now }
    ensures { IfOk result (λ ts. IsWholeRun code.now ts.items) }
{
    let mut tasks = Vec::new(alloc);
    tasks.push(TypedTask::start(alloc, code)?)?;
    Ok(tasks)
}

// The tasks after the last round. For one worker there is none: the machine marks what happens without a log.
fn logged_rounds<R: Threads + Sync, G: Gate + Sync>(
    rt: &R,
    alloc: Global,
    code: &Code,
    steps: u64,
    workers: usize,
    gate: &G,
) -> Result<Vec<TypedTask>, AllocError>
    requires few { steps < 4294967295 }
    requires workers { 0 < workers }
    requires right { CanBegin code.now }
    ensures { IfOk result (λ ts. IsWholeRun code.now ts.items) }
{
    if workers == 1 {
        return first_task(alloc, code);
    }
    all_rounds(rt, alloc, code, steps, workers, gate)
}

// The tasks after the last round.
fn all_rounds<R: Threads + Sync, G: Gate + Sync>(
    rt: &R,
    alloc: Global,
    code: &Code,
    steps: u64,
    workers: usize,
    gate: &G,
) -> Result<Vec<TypedTask>, AllocError>
    requires few { steps < 4294967295 }
    requires workers { 0 < workers }
    requires right { CanBegin code.now }
    ensures { IfOk result (λ ts. IsWholeRun code.now ts.items) }
{
    let mut tasks = first_task(alloc, code)?;
    let mut ended = Vec::new(alloc);
    let mut so_far = Progress::start();
    let mut is_first = true;
    let mut single = false;
    for _ in 0..ROUNDS {
        let count = if single {
            1
        } else {
            share_count(workers, tasks.len(), is_first)
        };
        let made = one_round(
            rt, alloc, code, tasks, &mut ended, count, steps, so_far, gate,
        )?;
        tasks = made.tasks;
        so_far = made.so_far;
        if so_far.ends(steps) || (single && !made.moved) {
            break;
        }
        single = !made.moved;
        is_first = false;
    }
    tasks.append(&mut ended)?;
    Ok(tasks)
}

// How many shares so many tasks are dealt out to: as many as there are workers, but none that would be empty, unless it is the
// second of the first round.
fn share_count(workers: usize, tasks: usize, is_first: bool) -> usize
    requires { 0 < workers }
    ensures { 0 < result }
{
    let least = if is_first { 2 } else { 1 };
    let count = if tasks > least { tasks } else { least };
    if count < workers { count } else { workers }
}

// The events and clocks that a round may come to where the rounds have come so far: a slice more, but no more than the steps.
fn round_limit(steps: u64, so_far: Progress) -> u64
    ensures { result ≤ steps }
{
    let growth = if so_far.forked {
        0
    } else {
        so_far.clock.saturating_mul(GROWTH)
    };
    let limit = so_far.clock.saturating_add(SLICE).saturating_add(growth);
    if limit < steps { limit } else { steps }
}

// What a round comes to: the tasks left, in the order of their paths, how far the rounds have come, and whether a share moved.
#[derive(Drop)]
struct Round {
    tasks: Vec<TypedTask>,
    so_far: Progress,
    moved: bool,
}

// Deals the tasks out to so many shares, moves these, and takes the tasks in again, those that have ended beside others.
fn one_round<R: Threads + Sync, G: Gate + Sync>(
    rt: &R,
    alloc: Global,
    code: &Code,
    tasks: Vec<TypedTask>,
    ended: &mut Vec<TypedTask>,
    count: usize,
    steps: u64,
    so_far: Progress,
    gate: &G,
) -> Result<Round, AllocError>
    requires few { steps < 4294967295 }
    requires count { 0 < count }
    requires right { CanBegin code.now }
    requires run { IsWholeRun code.now (tasks.items ++ ended.old.items) }
    ensures { IfOk result (λ r. IsWholeRun code.now (r.tasks.items ++ ended.new.items)) }
{
    let mut shares = deal(alloc, tasks, count)?;
    let tries = tries_of(shares.as_slice(), so_far);
    let limit = round_limit(steps, so_far);
    let moved = round(rt, code, &mut shares, limit, &tries, gate)?;
    let so_far = so_far.after(shares.as_slice(), &tries);
    let tasks = gather(alloc, shares, ended)?;
    Ok(Round {
        tasks,
        so_far,
        moved,
    })
}
