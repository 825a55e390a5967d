ghost use Rattle.std.specs.Prelude.{◌≡◌, ◌<◌, ◌++◌, IfOk, OnOk, List};
ghost use Rattle.fst_machine.specs.declared.request.Answer.TheVariants.{Forked};
ghost use Rattle.fst_runs.specs.Configs.{Path, child_path};
ghost use Rattle.fst_runs.specs.Logs.{forks_after};
ghost use Rattle.fst_process.specs.declared.marks.Mark.{Mark};
ghost use Rattle.fst_process.specs.Marks.{AreMarks, done_by, forks_behind, marks_from};
ghost use Rattle.fst_process.specs.Marking.{marks_in};
ghost use Rattle.fst_worker.specs.Marking.{all_at, one_at};

use fst_machine::{Answer, Request};
use fst_process::{Done, Mark, TaskMarks, in_path_order};
use fst_runs::LogEntry;
use fst_safety::KeptEntry;
use fst_types::Path;
use std::alloc::{AllocError, Global};
use std::collections::BTreeMap;
use std::collections::btree_map::Entry;

// The path of the task that is forked next.
fn child_path(alloc: Global, path: &Path, forked: u32) -> Result<Path, AllocError>
    requires { forked < 4294967295 }
    ensures { IfOk result (λ p. p ≡ child_path path.now forked) }
{
    let mut numbers = Vec::from_slice(alloc, path.as_slice())?;
    numbers.push(forked + 1)?;
    let made = Path::of(alloc, &numbers)?;
    Ok(made)
}

// How many tasks a task has forked after an answer.
fn forks_after(answer: &Answer, forked: u32) -> u32
    requires { forks_after answer.now forked < 4294967296 }
    ensures { result ≡ forks_after answer.now forked }
{
    match answer {
        Answer::Forked => forked + 1,
        _ => forked,
    }
}

// What a task that has forked so many has done where it asked for this and was told that.
fn done_by(
    alloc: Global,
    path: &Path,
    forked: u32,
    asked: Request,
    answer: Answer,
) -> Result<Done, AllocError>
    requires { answer ≡ Forked → forked < 4294967295 }
    ensures { IfOk result (λ d. d ≡ done_by path.now forked asked answer) }
{
    match answer {
        Answer::Go => Ok(Done::Local),
        Answer::Made(name) => match asked {
            Request::New(_) => Ok(Done::Made(name)),
            _ => Ok(Done::Local),
        },
        Answer::Forked => match asked {
            Request::Fork => {
                let child = child_path(alloc, path, forked)?;
                Ok(Done::Forked(child))
            }
            _ => Ok(Done::Local),
        },
        Answer::Sent => match asked {
            Request::Put(end, event) => Ok(Done::Put(end, event)),
            _ => Ok(Done::Local),
        },
        Answer::Got(event) => match asked {
            Request::Get(end) => Ok(Done::Got(end, event)),
            _ => Ok(Done::Local),
        },
    }
}

/// The marks of what the task with a path has done, by its log.
pub(crate) fn log_marks(
    alloc: Global,
    path: Path,
    log: Vec<KeptEntry>,
) -> Result<TaskMarks, AllocError>
    requires { forks_behind 0 log.items < 4294967295 }
    ensures path { IfOk result (λ t. t.path ≡ path) }
    ensures marks { IfOk result (λ t. t.marks.items ≡ marks_from path 0 log.items) }
{
    let mut marks = Vec::with_capacity(alloc, log.len())?;
    let mut forked: u32 = 0;
    for kept in log {
        let LogEntry {
            asked,
            answer,
            stamp,
        } = kept.entry();
        let behind = forks_after(&answer, forked);
        let done = done_by(alloc, &path, forked, asked, answer)?;
        marks.push(Mark { done, stamp })?;
        forked = behind;
    }
    Ok(TaskMarks { path, marks })
}

// Puts the marks of a task behind those that it has.
fn add(
    alloc: Global,
    all: &mut BTreeMap<Vec<u32>, Vec<Mark>>,
    task: TaskMarks,
) -> Result<(), AllocError>
    ensures { OnOk result ((p : Path) → marks_in all.new.entries p ≡
        marks_in all.old.entries p ++ one_at task p) }
{
    let TaskMarks { path, mut marks } = task;
    let key = Vec::from_slice(alloc, path.as_slice())?;
    match all.entry(key)? {
        Entry::Occupied(mut entry) => {
            entry.get_mut().append(&mut marks)?;
        }
        Entry::Vacant(entry) => {
            entry.insert(marks);
        }
    }
    Ok(())
}

// Puts the marks of each of these tasks behind those that it has.
fn add_all(
    alloc: Global,
    all: &mut BTreeMap<Vec<u32>, Vec<Mark>>,
    tasks: Vec<TaskMarks>,
) -> Result<(), AllocError>
    ensures { OnOk result ((p : Path) → marks_in all.new.entries p ≡
        marks_in all.old.entries p ++ all_at tasks.items p) }
{
    for task in tasks {
        add(alloc, all, task)?;
    }
    Ok(())
}

/// Of each task the marks of the first list and then those of the second, in the order of paths.
pub(crate) fn joined(
    alloc: Global,
    first: Vec<TaskMarks>,
    more: Vec<TaskMarks>,
) -> Result<Vec<TaskMarks>, AllocError>
    ensures { IfOk result (λ ts. (f g : Path → List Mark) → AreMarks first.items f →
        AreMarks more.items g → AreMarks ts.items (λ p. f p ++ g p)) }
{
    let mut all = BTreeMap::new(alloc);
    add_all(alloc, &mut all, first)?;
    add_all(alloc, &mut all, more)?;
    let tasks = in_path_order(alloc, all)?;
    Ok(tasks)
}
