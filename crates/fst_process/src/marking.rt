ghost use Rattle.std.specs.Prelude.{◌≡◌, ◌+◌, ◌++◌, ◌^◌, ◌<◌, true, Some, suc, IfOk, OnOk};
ghost use Rattle.fst_vm.specs.Slot.{is_live};
ghost use Rattle.fst_process.specs.KeptOf.{kept_of};
ghost use Rattle.fst_paths.specs.Paths.{AreInOrder};
ghost use Rattle.fst_process.specs.Firing.{IsPossible};
ghost use Rattle.fst_process.specs.Runs.{CanRunFrom};
ghost use Rattle.fst_process.specs.Marks.{IsMarkedOutcomeFrom};
ghost use Rattle.fst_process.specs.Marking.{marks_in, step_marks, tasks_of, with_mark, with_marks, CanHappen, AddsMarks};

use crate::config::Config;
use crate::kept::opposite;
use crate::marks::{Done, Mark, TaskMarks};
use fst_machine::{Code, Request};
use fst_runs::CoreEvent;
use fst_types::{ChannelName, EndName, Path};
use fst_vm::Outcome;
use std::alloc::{AllocError, Global};
use std::collections::BTreeMap;

// Adds a mark to those of a task.
fn add_mark(
    alloc: Global,
    all: &mut BTreeMap<Vec<u32>, Vec<Mark>>,
    path: &Path,
    mark: Mark,
) -> Result<(), AllocError>
    ensures { OnOk result (marks_in all.new.entries ≡
        with_mark path.now mark (marks_in all.old.entries)) }
{
    match all.get_mut(path.as_slice()) {
        Some(marks) => {
            marks.push(mark)?;
            Ok(())
        }
        None => {
            let key = Vec::from_slice(alloc, path.as_slice())?;
            let mut marks = Vec::new(alloc);
            marks.push(mark)?;
            all.insert(key, marks)?;
            Ok(())
        }
    }
}

// Adds the marks of so many steps of a task with this clock.
fn push_steps(marks: &mut Vec<Mark>, clock: u64, count: u64) -> Result<(), AllocError>
    requires { clock + count < 2 ^ 64 }
    ensures { OnOk result (marks.new.items ≡ marks.old.items ++ step_marks clock count) }
{
    for i in 0..count {
        marks.push(Mark {
            done: Done::Local,
            stamp: clock + i + 1,
        })?;
    }
    Ok(())
}

// Adds them to those of the task with this path.
fn add_steps(
    alloc: Global,
    all: &mut BTreeMap<Vec<u32>, Vec<Mark>>,
    path: &Path,
    clock: u64,
    count: u64,
) -> Result<(), AllocError>
    requires { clock + count < 2 ^ 64 }
    ensures { OnOk result (marks_in all.new.entries ≡
        with_marks path.now (step_marks clock count) (marks_in all.old.entries)) }
{
    match all.get_mut(path.as_slice()) {
        Some(marks) => push_steps(marks, clock, count),
        None => {
            let key = Vec::from_slice(alloc, path.as_slice())?;
            let mut marks = Vec::new(alloc);
            push_steps(&mut marks, clock, count)?;
            all.insert(key, marks)?;
            Ok(())
        }
    }
}

/// The marks of all tasks, in the order of their paths.
pub fn in_path_order(
    alloc: Global,
    all: BTreeMap<Vec<u32>, Vec<Mark>>,
) -> Result<Vec<TaskMarks>, AllocError>
    ensures items { IfOk result (λ ts. ts.items ≡ tasks_of all.entries) }
    ensures ordered { OnOk result (AreInOrder all.entries) }
{
    let mut tasks = Vec::new(alloc);
    for (key, marks) in all {
        let path = Path::of(alloc, key.as_slice())?;
        tasks.push(TaskMarks { path, marks })?;
    }
    Ok(tasks)
}

impl Config {
    // Adds what tasks do in an event that is about to happen.
    fn mark(
        &self,
        code: &Code,
        all: &mut BTreeMap<Vec<u32>, Vec<Mark>>,
        event: &CoreEvent,
    ) -> Result<(), AllocError>
        requires { ∥ IsPossible code.now (kept_of self.now) event.now ∥₁ }
        ensures { OnOk result (AddsMarks (kept_of self.now) event.now (marks_in all.old.entries)
            (marks_in all.new.entries)) }
    {
        match event {
            CoreEvent::Local(path) => self.mark_alone(all, path, Done::Local),
            CoreEvent::New(path) => {
                let maker = path.copy(self.alloc)?;
                let count = self.channels.made(path.as_slice()) + 1;
                let name = ChannelName {
                    maker,
                    count: count as u32,
                };
                self.mark_alone(all, path, Done::Made(name))
            }
            CoreEvent::Fork(path) => {
                let (child, _) = self.tasks.slot(path).task.child(code)?;
                let forked = child.path().copy(self.alloc)?;
                self.mark_alone(all, path, Done::Forked(forked))
            }
            CoreEvent::Meet(sender, receiver, channel) => {
                self.mark_both(all, sender, receiver, channel)
            }
        }
    }

    // Adds that a task is about to do this alone.
    fn mark_alone(
        &self,
        all: &mut BTreeMap<Vec<u32>, Vec<Mark>>,
        path: &Path,
        done: Done,
    ) -> Result<(), AllocError>
        requires there { is_live ((kept_of self.now).tasks path.now) ≡ true }
        requires few { (s : _) → (kept_of self.now).tasks path.now ≡ Some s →
            s.clock < 4294967295 }
        ensures { OnOk result ((s : _) → (kept_of self.now).tasks path.now ≡ Some s →
            marks_in all.new.entries ≡
            with_mark path.now (record { done = done; stamp = suc s.clock })
            (marks_in all.old.entries)) }
    {
        let stamp = self.tasks.slot(path).clock + 1;
        add_mark(self.alloc, all, path, Mark { done, stamp })
    }

    // Adds what two tasks do that are about to meet.
    fn mark_both(
        &self,
        all: &mut BTreeMap<Vec<u32>, Vec<Mark>>,
        sender: &Path,
        receiver: &Path,
        channel: &ChannelName,
    ) -> Result<(), AllocError>
        requires { ∥ CanHappen (kept_of self.now)
            (CoreEvent.Meet sender.now receiver.now channel.now) ∥₁ }
        ensures { OnOk result (AddsMarks (kept_of self.now)
            (CoreEvent.Meet sender.now receiver.now channel.now) (marks_in all.old.entries)
            (marks_in all.new.entries)) }
    {
        let first = self.tasks.slot(sender);
        let second = self.tasks.slot(receiver);
        match &first.request {
            Request::Put(end, event) => {
                let last = self.last_stamp(channel);
                let stamp = first.clock.max(second.clock).max(last) + 1;
                let own = end.copy(self.alloc)?;
                let sent = event.copy(self.alloc)?;
                let put = Mark {
                    done: Done::Put(own, sent),
                    stamp,
                };
                add_mark(self.alloc, all, sender, put)?;
                let name = end.channel.copy(self.alloc)?;
                let other = EndName {
                    channel: name,
                    side: opposite(end.side),
                };
                let received = event.copy(self.alloc)?;
                let got = Mark {
                    done: Done::Got(other, received),
                    stamp,
                };
                add_mark(self.alloc, all, receiver, got)
            }
            _ => Ok(()),
        }
    }
}

/// What the least run from a configuration comes to, as `run_from` says, and what tasks do in it: each task that does something,
/// in the order of their paths. Where memory is wanting, the configuration is dropped.
pub fn run_marked(
    alloc: Global,
    mut config: Config,
    code: &Code,
    steps: u64,
) -> Result<(Outcome, Vec<TaskMarks>), AllocError>
    requires few { steps < 4294967295 }
    requires right { ∥ CanRunFrom code.now config.events (kept_of config) ∥₁ }
    ensures { IfOk result (λ r. IsMarkedOutcomeFrom code.now config.events steps
        (kept_of config) r.0 r.1.items) }
{
    let mut marks = BTreeMap::new(alloc);
    while config.events <= steps {
        match config.next()? {
            Some(CoreEvent::Local(path)) => {
                let clock = config.tasks.slot(&path).clock;
                let count = config.step_on(code, &path, steps)?;
                add_steps(alloc, &mut marks, &path, clock, count)?;
            }
            Some(event) => {
                config.mark(code, &mut marks, &event)?;
                config.fire(code, &event)?;
            }
            None => {
                let report = config.report()?;
                let tasks = in_path_order(alloc, marks)?;
                return Ok((Outcome::Done(report), tasks));
            }
        }
    }
    let tasks = in_path_order(alloc, marks)?;
    Ok((Outcome::OutOfSteps, tasks))
}
