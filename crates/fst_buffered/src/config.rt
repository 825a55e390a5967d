ghost use Rattle.std.specs.Prelude.{◌≡◌, ◌≤◌, ◌<◌, ◌+◌, true, Some, IfOk, OnOk, length};
ghost use Rattle.fst_vm.specs.Tasks.{HasNext};
ghost use Rattle.fst_runs.specs.Configs.{channel_name, other};
ghost use Rattle.fst_buffered.specs.Answers.{CanRun};
ghost use Rattle.fst_buffered.specs.Channels.{IsNext, IsWhole, after_put, further, opened, seen};
ghost use Rattle.fst_buffered.specs.Kept.{CanGoOn, CanStart, HasGoneOn, IsBegun, SettlesIn, added, changed, moves, tested};
ghost use Rattle.fst_buffered.specs.KeptOf.{kept_of};
ghost use Rattle.fst_buffered.specs.Moving.{can_take};
ghost use Rattle.fst_buffered.specs.Running.{IsAsking, IsConfig, IsKept, IsNextTask, IsReported};

use crate::kept::{Channel, advance_among, asker, opposite, put_among, seen};
use crate::notes::{can, mark, note};
use crate::report::histories;
use fst_machine::{Answer, Code, Request};
use fst_paths::Channels;
use fst_types::{ChannelName, EndName, Event, Path, Ty};
use fst_vm::{Report, Slot, Task, Tasks, has_ended, move_on, step_on};
use std::alloc::{AllocError, Global};
use std::collections::BTreeSet;

/// All tasks and all channels of a buffered run, and the paths of the tasks that can move.
#[derive(Drop)]
pub(crate) struct Config {
    pub(crate) alloc: Global,
    pub(crate) tasks: Tasks,
    channels: Channels<Channel>,
    ready: BTreeSet<Vec<u32>>,
    // how many events have happened
    pub(crate) events: u64,
}

impl Config {
    /// The task of `main` alone, and no channel.
    pub(crate) fn start(alloc: Global, code: &Code, capacity: u32) -> Result<Config, AllocError>
        requires start { ∥ CanStart code.now ∥₁ }
        requires capacity { 0 < capacity }
        ensures begun { IfOk result (λ v. IsBegun code.now capacity (kept_of v)) }
        ensures events { IfOk result (λ v. v.events ≡ 0) }
    {
        let mut config = Config {
            alloc,
            tasks: Tasks::new(alloc),
            channels: Channels::new(alloc),
            ready: BTreeSet::new(alloc),
            events: 0,
        };
        let task = Task::start(alloc, code)?;
        config.settle(code, task, capacity)?;
        Ok(config)
    }

    /// The path of the least task that can move.
    pub(crate) fn next(&self) -> Result<Option<Path>, AllocError>
        ensures { IfOk result (IsNextTask (kept_of self.now)) }
    {
        match self.ready.first() {
            Some(key) => {
                let path = Path::of(self.alloc, key.as_slice())?;
                Ok(Some(path))
            }
            None => Ok(None),
        }
    }

    /// The report of what has happened, and for each channel how many entries one side has not taken.
    pub(crate) fn report(self) -> Result<(Report, Vec<u64>), AllocError>
        requires { ∥ IsConfig (kept_of self) ∥₁ }
        ensures { IfOk result (λ r. IsReported (kept_of self) self.events r.0 r.1.items) }
    {
        let Config {
            alloc,
            tasks,
            channels,
            events,
            ..
        } = self;
        let waiting = tasks.waiting(alloc)?;
        let result = tasks.result();
        let (channels, unread) = histories(alloc, channels.by_maker)?;
        let report = Report {
            result,
            waiting,
            channels,
            events,
        };
        Ok((report, unread))
    }

    /// Puts a task in with what it asks for.
    pub(crate) fn settle(
        &mut self,
        code: &Code,
        mut task: Task,
        capacity: u32,
    ) -> Result<(), AllocError>
        requires next { ∥ HasNext code.now task ∥₁ }
        requires capacity { 0 < capacity }
        ensures settles { OnOk result (SettlesIn code.now capacity task (kept_of self.old)
            (kept_of self.new)) }
        ensures events { self.new.events ≡ self.old.events }
    {
        let request = task.advance(code)?;
        note(
            self.alloc,
            &mut self.channels,
            &mut self.ready,
            code.types.len(),
            capacity,
            task.path(),
            &request,
        )?;
        self.tasks.put_in(
            self.alloc,
            Slot {
                task,
                request,
                clock: 0,
            },
        )
    }

    /// Gives a task an answer, after which it goes on to what it asks for then.
    pub(crate) fn go_on(
        &mut self,
        code: &Code,
        path: &Path,
        answer: Answer,
        capacity: u32,
    ) -> Result<(), AllocError>
        requires can { ∥ CanGoOn code.now (kept_of self.old) path.now answer ∥₁ }
        requires capacity { 0 < capacity }
        ensures goes { OnOk result (HasGoneOn code.now capacity path.now answer (kept_of self.old)
            (kept_of self.new)) }
        ensures events { self.new.events ≡ self.old.events }
    {
        match self.tasks.live.get_mut(path.as_slice()) {
            Some(slot) => {
                move_on(slot, code, answer, 0)?;
                note(
                    self.alloc,
                    &mut self.channels,
                    &mut self.ready,
                    code.types.len(),
                    capacity,
                    path,
                    &slot.request,
                )?;
                if has_ended(&slot.request) {
                    return self.tasks.set_aside(path);
                }
                Ok(())
            }
            None => Ok(()),
        }
    }

    /// Has the least task that can move step as often as it asks to, until there are more events than these. Each step is counted.
    pub(crate) fn step_on(
        &mut self,
        code: &Code,
        path: &Path,
        steps: u64,
        capacity: u32,
    ) -> Result<(), AllocError>
        requires asks { IsAsking (kept_of self.old) path.now Request.Step }
        requires next { IsNextTask (kept_of self.old) (Some path.now) }
        requires kept { IsKept code.now capacity self.old.events (kept_of self.old) }
        requires right { ∥ CanRun code.now capacity ∥₁ }
        requires capacity { 0 < capacity }
        requires few { steps < 4294967295 }
        requires more { self.old.events ≤ steps }
        ensures kept { OnOk result (IsKept code.now capacity self.new.events (kept_of self.new)) }
        ensures some { OnOk result (self.old.events < self.new.events) }
        ensures most { OnOk result (self.new.events ≤ steps + 1) }
    {
        match self.tasks.live.get_mut(path.as_slice()) {
            Some(slot) => {
                let count = step_on(slot, code, steps + 1 - self.events)?;
                note(
                    self.alloc,
                    &mut self.channels,
                    &mut self.ready,
                    code.types.len(),
                    capacity,
                    path,
                    &slot.request,
                )?;
                self.events += count;
                if has_ended(&slot.request) {
                    return self.tasks.set_aside(path);
                }
                Ok(())
            }
            None => unreachable!(),
        }
    }

    // Whether the task with a path is there and can move, where the module has so many types.
    fn moves(&self, path: &Path, types: usize, capacity: u32) -> bool
        requires { 0 < capacity }
        ensures { result ≡ moves types capacity (kept_of self.now) path.now }
    {
        match self.tasks.live.get(path.as_slice()) {
            Some(slot) => can(&self.channels, &slot.request, types, capacity),
            None => false,
        }
    }

    /// Tests again whether a task, if any, can move, where the module has so many types.
    pub(crate) fn test(
        &mut self,
        task: Option<Path>,
        types: usize,
        capacity: u32,
    ) -> Result<(), AllocError>
        requires { 0 < capacity }
        ensures tested { OnOk result (kept_of self.new ≡ tested types capacity task
            (kept_of self.old)) }
        ensures events { self.new.events ≡ self.old.events }
    {
        match task {
            Some(path) => {
                let able = self.moves(&path, types, capacity);
                mark(self.alloc, &mut self.ready, &path, able)
            }
            None => Ok(()),
        }
    }

    /// The task that asked last at the other end.
    pub(crate) fn partner(&self, end: &EndName) -> Result<Option<Path>, AllocError>
        ensures { IfOk result (λ o. o ≡ (kept_of self.now).asker (other end.now)) }
    {
        match self.channels.get(&end.channel) {
            Some(channel) => match asker(channel, opposite(end.side)) {
                Some(path) => {
                    let own = path.copy(self.alloc)?;
                    Ok(Some(own))
                }
                None => Ok(None),
            },
            None => Ok(None),
        }
    }

    /// What is next at an end.
    pub(crate) fn next_at(&self, end: &EndName) -> Result<Event, AllocError>
        requires { can_take end.now.side ((kept_of self.now).channels end.now.channel) ≡ true }
        ensures { IfOk result (λ ev. (j : _) (e : _) →
            (kept_of self.now).channels end.now.channel ≡ Some j → IsNext end.now.side j e →
            e.event ≡ ev) }
    {
        match self.channels.get(&end.channel) {
            Some(channel) => channel.entries[seen(channel, end.side)]
                .event
                .copy(self.alloc),
            None => unreachable!(),
        }
    }

    /// Puts something in at an end whose side's view is whole.
    pub(crate) fn put_at(&mut self, end: &EndName, event: Event) -> Result<(), AllocError>
        requires { (j : _) → (kept_of self.old).channels end.now.channel ≡ Some j →
            IsWhole end.now.side j }
        ensures put { OnOk result (kept_of self.new ≡ changed end.now.channel
            (after_put end.now.side event) (kept_of self.old)) }
        ensures events { self.new.events ≡ self.old.events }
    {
        match self.channels.by_maker.get_mut(end.channel.maker.as_slice()) {
            Some(channels) => put_among(channels, end.channel.count, end.side, event),
            None => Ok(()),
        }
    }

    /// Takes what is next at an end, whose event was read before.
    pub(crate) fn take_at(&mut self, end: &EndName)
        requires { (j : _) → (kept_of self.old).channels end.now.channel ≡ Some j →
            seen end.now.side j ≤ length j.history }
        ensures taken { kept_of self.new ≡ changed end.now.channel (further end.now.side)
            (kept_of self.old) }
        ensures events { self.new.events ≡ self.old.events }
    {
        if let Some(channels) = self.channels.by_maker.get_mut(end.channel.maker.as_slice()) {
            advance_among(channels, end.channel.count, end.side);
        }
    }

    /// Adds a channel of a task.
    pub(crate) fn add_channel(
        &mut self,
        maker: &Path,
        declared: Ty,
    ) -> Result<ChannelName, AllocError>
        requires { (kept_of self.old).made maker.now < 4294967295 }
        ensures name { IfOk result (λ h. h ≡ channel_name maker.now
            ((kept_of self.old).made maker.now)) }
        ensures opened { IfOk result (λ h. kept_of self.new ≡ added h (opened declared)
            (kept_of self.old)) }
        ensures events { self.new.events ≡ self.old.events }
    {
        let entries = Vec::new(self.alloc);
        let channel = Channel {
            declared,
            entries,
            left: 0,
            right: 0,
            left_asker: None,
            right_asker: None,
        };
        let count = self.channels.push(maker, channel)?;
        Ok(ChannelName {
            maker: maker.copy(self.alloc)?,
            count: count as u32,
        })
    }
}
