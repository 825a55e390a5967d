ghost use Rattle.std.specs.Prelude.{◌≡◌, ◌+◌, ◌<◌, ◌≤◌, true, Some, IfOk, OnOk, suc, max};
ghost use Rattle.std.specs.Option.{option_copied};
ghost use Rattle.fst_lts.specs.Histories.{last_stamp};
ghost use Rattle.fst_vm.specs.Tasks.{HasNext};
ghost use Rattle.fst_runs.specs.Configs.{channel_name};
ghost use Rattle.fst_process.specs.Kept.{nothing, partner, changed, added, opened, passed};
ghost use Rattle.fst_process.specs.KeptOf.{kept_of, channel_of};
ghost use Rattle.fst_process.specs.Firing.{Settles, CanGoOn, HasGoneOn, HasStepped, CanStart, IsBegun};
ghost use Rattle.fst_process.specs.Nexts.{event_with, event_of, IsNext, TellsMoving};
ghost use Rattle.fst_process.specs.Reports.{IsConfig, IsReported};
ghost use Rattle.fst_process.specs.Runs.{CanRunFrom};

use crate::kept::{Channel, asker, last_stamp, opposite, record_among};
use crate::notes::{note, note_again};
use crate::report::histories;
use fst_machine::{Answer, Code, Request};
use fst_paths::Channels;
use fst_runs::CoreEvent;
use fst_types::{ChannelName, EndName, Event, Path, Ty};
use fst_vm::{Report, Slot, Task, Tasks, has_ended, move_on, step_on};
use std::alloc::{AllocError, Global};
use std::collections::BTreeSet;

/// All tasks and all channels of a run, and the paths of the tasks that can move.
#[derive(Drop)]
pub struct Config {
    pub(crate) alloc: Global,
    pub(crate) tasks: Tasks,
    pub(crate) channels: Channels<Channel>,
    ready: BTreeSet<Vec<u32>>,
    // how many events have happened
    pub(crate) events: u64,
}

impl Config {
    /// No task, and no channel, where so many events have happened.
    pub(crate) fn empty(alloc: Global, events: u64) -> Config
        ensures nothing { kept_of result ≡ nothing }
        ensures events { result.events ≡ events }
    {
        Config {
            alloc,
            tasks: Tasks::new(alloc),
            channels: Channels::new(alloc),
            ready: BTreeSet::new(alloc),
            events,
        }
    }

    /// The task of `main` alone, and no channel.
    pub fn start(alloc: Global, code: &Code) -> Result<Config, AllocError>
        requires { ∥ CanStart code.now ∥₁ }
        ensures begun { IfOk result (λ v. IsBegun code.now (kept_of v)) }
        ensures events { IfOk result (λ v. v.events ≡ 0) }
    {
        let mut config = Config::empty(alloc, 0);
        let task = Task::start(alloc, code)?;
        config.settle(code, task, 0)?;
        Ok(config)
    }

    /// Whether the task with a path can move.
    pub fn can_move(&self, task: &Path) -> bool
        ensures noted { result ≡ (kept_of self.now).ready task.now }
        ensures moves { TellsMoving (kept_of self.now) task.now result }
    {
        self.ready.contains(task.as_slice())
    }

    /// The event of the first task that can move.
    pub(crate) fn next(&self) -> Result<Option<CoreEvent>, AllocError>
        ensures { IfOk result (IsNext (kept_of self.now)) }
    {
        match self.ready.first() {
            Some(key) => {
                let event = self.event_of(key.as_slice())?;
                Ok(event)
            }
            None => Ok(None),
        }
    }

    /// The report of what has happened.
    pub(crate) fn report(self) -> Result<Report, AllocError>
        requires { ∥ IsConfig (kept_of self) ∥₁ }
        ensures { IfOk result (IsReported (kept_of self) self.events) }
    {
        let Config {
            alloc,
            tasks,
            channels,
            events,
            ..
        } = self;
        let waiting = tasks.waiting(alloc)?;
        let result = tasks.result();
        let channels = histories(alloc, channels.by_maker)?;
        Ok(Report {
            result,
            waiting,
            channels,
            events,
        })
    }

    // The event of the task with this path.
    fn event_of(&self, path: &[u32]) -> Result<Option<CoreEvent>, AllocError>
        ensures { IfOk result (λ o. o ≡ event_of (kept_of self.now) path.now) }
    {
        match self.tasks.live.get(path) {
            Some(slot) => {
                let event = self.event_with(path, &slot.request)?;
                Ok(event)
            }
            None => Ok(None),
        }
    }

    // The event of a task that asks for this.
    fn event_with(&self, path: &[u32], request: &Request) -> Result<Option<CoreEvent>, AllocError>
        ensures { IfOk result (λ o. o ≡ event_with (kept_of self.now) path.now request.now) }
    {
        let own = Path::of(self.alloc, path)?;
        match request {
            Request::Step => Ok(Some(CoreEvent::Local(own))),
            Request::New(_) => Ok(Some(CoreEvent::New(own))),
            Request::Fork => Ok(Some(CoreEvent::Fork(own))),
            Request::Put(end, _) => match self.partner(end) {
                Some(partner) => {
                    let receiver = partner.copy(self.alloc)?;
                    let channel = end.channel.copy(self.alloc)?;
                    Ok(Some(CoreEvent::Meet(own, receiver, channel)))
                }
                None => Ok(None),
            },
            Request::Get(end) => match self.partner(end) {
                Some(partner) => {
                    let sender = partner.copy(self.alloc)?;
                    let channel = end.channel.copy(self.alloc)?;
                    Ok(Some(CoreEvent::Meet(sender, own, channel)))
                }
                None => Ok(None),
            },
            Request::Ended => Ok(None),
        }
    }

    // The task that asks at the other end.
    fn partner<'a>(&'a self, end: &EndName) -> Option<&'a Path>
        ensures { option_copied result ≡ partner (kept_of self.now) end.now }
    {
        match self.channels.get(&end.channel) {
            Some(channel) => asker(channel, opposite(end.side)),
            None => None,
        }
    }

    /// The stamp of the last entry of a channel.
    pub(crate) fn last_stamp(&self, channel: &ChannelName) -> u64
        ensures { (j : _) → (kept_of self.now).channels channel.now ≡ Some j →
            result ≡ last_stamp j.history }
    {
        match self.channels.get(channel) {
            Some(channel) => last_stamp(&channel.entries),
            None => 0,
        }
    }

    /// Puts a task in with what it asks for.
    pub(crate) fn settle(
        &mut self,
        code: &Code,
        mut task: Task,
        clock: u64,
    ) -> Result<(), AllocError>
        requires { ∥ HasNext code.now task ∥₁ }
        ensures settles { OnOk result (Settles code.now task clock (kept_of self.old)
            (kept_of self.new)) }
        ensures events { self.new.events ≡ self.old.events }
    {
        let request = task.advance(code)?;
        note(
            self.alloc,
            &mut self.channels,
            &mut self.ready,
            code.types.len(),
            task.path(),
            &request,
        )?;
        self.tasks.put_in(
            self.alloc,
            Slot {
                task,
                request,
                clock,
            },
        )
    }

    /// Gives a task that can move an answer, after which it goes on to what it asks for then. Its clock counts one more,
    /// and is at least this.
    pub(crate) fn go_on(
        &mut self,
        code: &Code,
        path: &Path,
        answer: Answer,
        least: u64,
    ) -> Result<(), AllocError>
        requires { ∥ CanGoOn code.now (kept_of self.old) path.now answer ∥₁ }
        ensures { OnOk result (HasGoneOn code.now path.now answer least (kept_of self.old)
            (kept_of self.new)) }
    {
        match self.tasks.live.get_mut(path.as_slice()) {
            Some(slot) => {
                move_on(slot, code, answer, least)?;
                note_again(
                    self.alloc,
                    &mut self.channels,
                    &mut self.ready,
                    code.types.len(),
                    path,
                    &slot.request,
                )?;
                if has_ended(&slot.request) {
                    return self.tasks.set_aside(path);
                }
                Ok(())
            }
            None => Ok(()),
        }
    }

    /// Has the first task that can move step as often as it asks to, until there are more events than these, and answers how often
    /// that was. Each step is counted.
    pub(crate) fn step_on(
        &mut self,
        code: &Code,
        path: &Path,
        steps: u64,
    ) -> Result<u64, AllocError>
        requires first { IsNext (kept_of self.old) (Some (CoreEvent.Local path.now)) }
        requires right { ∥ CanRunFrom code.now self.old.events (kept_of self.old) ∥₁ }
        requires few { steps < 4294967295 }
        requires more { self.old.events ≤ steps }
        ensures steps { IfOk result (λ i. HasStepped code.now path.now i (kept_of self.old)
            (kept_of self.new)) }
        ensures counted { IfOk result (λ i. self.new.events ≡ self.old.events + i) }
        ensures some { IfOk result (λ i. 0 < i) }
        ensures most { IfOk result (λ i. i ≤ steps + 1) }
    {
        match self.tasks.live.get_mut(path.as_slice()) {
            Some(slot) => {
                let count = step_on(slot, code, steps + 1 - self.events)?;
                note_again(
                    self.alloc,
                    &mut self.channels,
                    &mut self.ready,
                    code.types.len(),
                    path,
                    &slot.request,
                )?;
                self.events += count;
                if has_ended(&slot.request) {
                    self.tasks.set_aside(path)?;
                    return Ok(count);
                }
                Ok(count)
            }
            None => unreachable!(),
        }
    }

    /// Puts a channel in behind those that its maker has, and answers how many these are then.
    pub(crate) fn push_channel(
        &mut self,
        maker: &Path,
        channel: Channel,
    ) -> Result<usize, AllocError>
        ensures count { IfOk result (λ n. n ≡ suc ((kept_of self.old).made maker.now)) }
        ensures added { OnOk result (kept_of self.new ≡
            added (channel_name maker.now ((kept_of self.old).made maker.now)) (channel_of channel)
            (kept_of self.old)) }
        ensures events { self.new.events ≡ self.old.events }
    {
        self.channels.push(maker, channel)
    }

    /// Adds a channel of a task.
    pub(crate) fn add_channel(
        &mut self,
        maker: &Path,
        declared: Ty,
    ) -> Result<ChannelName, AllocError>
        requires { (kept_of self.old).made maker.now < 4294967295 }
        ensures name { IfOk result (λ h. h ≡ channel_name maker.now
            ((kept_of self.old).made maker.now)) }
        ensures opened { IfOk result (λ h. kept_of self.new ≡ opened h declared
            (kept_of self.old)) }
    {
        let entries = Vec::new(self.alloc);
        let channel = Channel {
            declared,
            entries,
            left: None,
            right: None,
        };
        let count = self.push_channel(maker, channel)?;
        Ok(ChannelName {
            maker: maker.copy(self.alloc)?,
            count: count as u32,
        })
    }

    /// Adds what passes over a channel between two tasks with these clocks, and answers its stamp.
    pub(crate) fn record(
        &mut self,
        channel: &ChannelName,
        event: Event,
        sent: u64,
        got: u64,
    ) -> Result<u64, AllocError>
        requires sent { sent < 4294967295 }
        requires got { got < 4294967295 }
        requires stamps { (j : _) → (kept_of self.old).channels channel.now ≡ Some j →
            last_stamp j.history < 4294967296 }
        ensures stamp { IfOk result (λ stamp. (j : _) →
            (kept_of self.old).channels channel.now ≡ Some j →
            stamp ≡ suc (max (max sent got) (last_stamp j.history))) }
        ensures passed { IfOk result (λ stamp. kept_of self.new ≡ changed channel.now
            (passed (record { event = event; stamp = stamp; sent = sent; got = got }))
            (kept_of self.old)) }
    {
        match self.channels.by_maker.get_mut(channel.maker.as_slice()) {
            Some(channels) => {
                let stamp = record_among(channels, channel.count, event, sent, got)?;
                Ok(stamp)
            }
            None => Ok(0),
        }
    }
}
