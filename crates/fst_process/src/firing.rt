ghost use Rattle.std.specs.Prelude.{◌≡◌, ◌<◌, suc, OnOk};
ghost use Rattle.fst_process.specs.KeptOf.{kept_of};
ghost use Rattle.fst_process.specs.Firing.{IsPossible, Happens};

use crate::config::Config;
use fst_machine::{Answer, Code, Request};
use fst_runs::CoreEvent;
use fst_types::{ChannelName, Path, copy as copy_type};
use std::alloc::AllocError;

impl Config {
    /// Makes an event happen, which is counted. Where memory is wanting, the configuration isn't one any more.
    pub fn fire(&mut self, code: &Code, event: &CoreEvent) -> Result<(), AllocError>
        requires possible { ∥ IsPossible code.now (kept_of self.old) event.now ∥₁ }
        requires few { self.old.events < 4294967295 }
        ensures happens { OnOk result (Happens code.now (kept_of self.old) event.now
            (kept_of self.new)) }
        ensures counted { OnOk result (self.new.events ≡ suc self.old.events) }
    {
        let events = self.events + 1;
        self.go(code, event)?;
        self.events = events;
        Ok(())
    }

    // Makes an event happen, which isn't counted.
    fn go(&mut self, code: &Code, event: &CoreEvent) -> Result<(), AllocError>
        requires { ∥ IsPossible code.now (kept_of self.old) event.now ∥₁ }
        ensures { OnOk result (Happens code.now (kept_of self.old) event.now (kept_of self.new)) }
    {
        match event {
            CoreEvent::Local(path) => self.step(code, path),
            CoreEvent::New(path) => self.open(code, path),
            CoreEvent::Fork(path) => self.fork(code, path),
            CoreEvent::Meet(sender, receiver, channel) => {
                self.meet(code, sender, receiver, channel)
            }
        }
    }

    // A task makes a step alone.
    fn step(&mut self, code: &Code, path: &Path) -> Result<(), AllocError>
        requires { ∥ IsPossible code.now (kept_of self.old) (CoreEvent.Local path.now) ∥₁ }
        ensures { OnOk result (Happens code.now (kept_of self.old) (CoreEvent.Local path.now)
            (kept_of self.new)) }
    {
        self.go_on(code, path, Answer::Go, 0)
    }

    // A task makes a channel.
    fn open(&mut self, code: &Code, path: &Path) -> Result<(), AllocError>
        requires { ∥ IsPossible code.now (kept_of self.old) (CoreEvent.New path.now) ∥₁ }
        ensures { OnOk result (Happens code.now (kept_of self.old) (CoreEvent.New path.now)
            (kept_of self.new)) }
    {
        match &self.tasks.slot(path).request {
            Request::New(number) => {
                let declared = copy_type(self.alloc, &code.types[*number as usize])?;
                let name = self.add_channel(path, declared)?;
                self.go_on(code, path, Answer::Made(name), 0)
            }
            _ => Ok(()),
        }
    }

    // A task makes a task.
    fn fork(&mut self, code: &Code, path: &Path) -> Result<(), AllocError>
        requires { ∥ IsPossible code.now (kept_of self.old) (CoreEvent.Fork path.now) ∥₁ }
        ensures { OnOk result (Happens code.now (kept_of self.old) (CoreEvent.Fork path.now)
            (kept_of self.new)) }
    {
        let parent = self.tasks.slot(path);
        let clock = parent.clock;
        let (child, _) = parent.task.child(code)?;
        self.go_on(code, path, Answer::Forked, 0)?;
        self.settle(code, child, clock + 1)
    }

    // The first task sends what the second receives.
    fn meet(
        &mut self,
        code: &Code,
        sender: &Path,
        receiver: &Path,
        channel: &ChannelName,
    ) -> Result<(), AllocError>
        requires { ∥ IsPossible code.now (kept_of self.old)
            (CoreEvent.Meet sender.now receiver.now channel.now) ∥₁ }
        ensures { OnOk result (Happens code.now (kept_of self.old)
            (CoreEvent.Meet sender.now receiver.now channel.now) (kept_of self.new)) }
    {
        let first = self.tasks.slot(sender);
        let second = self.tasks.slot(receiver);
        match &first.request {
            Request::Put(_, event) => {
                let sent = first.clock;
                let got = second.clock;
                let answer = Answer::Got(event.copy(self.alloc)?);
                let passed = event.copy(self.alloc)?;
                let stamp = self.record(channel, passed, sent, got)?;
                self.go_on(code, sender, Answer::Sent, stamp)?;
                self.go_on(code, receiver, answer, stamp)
            }
            _ => Ok(()),
        }
    }
}
