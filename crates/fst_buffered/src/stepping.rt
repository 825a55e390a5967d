ghost use Rattle.std.specs.Prelude.{◌≡◌, ◌<◌, suc, OnOk};
ghost use Rattle.fst_buffered.specs.KeptOf.{kept_of};
ghost use Rattle.fst_buffered.specs.Running.{CanDo, IsAsking, Steps};

use crate::config::Config;
use fst_machine::{Answer, Code, Request};
use fst_types::{EndName, Event, Path, copy as copy_type};
use std::alloc::AllocError;

impl Config {
    /// Has a task do what it asks for, which is counted. Where memory is wanting, the configuration isn't one any more.
    pub(crate) fn step(&mut self, code: &Code, path: &Path, capacity: u32) -> Result<(), AllocError>
        requires can { ∥ CanDo code.now capacity (kept_of self.old) path.now ∥₁ }
        requires capacity { 0 < capacity }
        requires few { self.old.events < 4294967295 }
        ensures steps { OnOk result (Steps code.now capacity (kept_of self.old) path.now
            (kept_of self.new)) }
        ensures counted { OnOk result (self.new.events ≡ suc self.old.events) }
    {
        let events = self.events + 1;
        self.act(code, path, capacity)?;
        self.events = events;
        Ok(())
    }

    // Has a task do what it asks for, which isn't counted.
    fn act(&mut self, code: &Code, path: &Path, capacity: u32) -> Result<(), AllocError>
        requires can { ∥ CanDo code.now capacity (kept_of self.old) path.now ∥₁ }
        requires capacity { 0 < capacity }
        ensures { OnOk result (Steps code.now capacity (kept_of self.old) path.now
            (kept_of self.new)) }
    {
        match &self.tasks.slot(path).request {
            Request::Step => self.go_on(code, path, Answer::Go, capacity),
            Request::New(number) => {
                let number = *number;
                self.open(code, path, number, capacity)
            }
            Request::Fork => self.fork(code, path, capacity),
            Request::Put(end, event) => {
                let end = end.copy(self.alloc)?;
                let event = event.copy(self.alloc)?;
                self.put(code, path, &end, event, capacity)
            }
            Request::Get(end) => {
                let end = end.copy(self.alloc)?;
                self.take(code, path, &end, capacity)
            }
            Request::Ended => Ok(()),
        }
    }

    // A task makes a channel whose left end has the type with this number.
    fn open(
        &mut self,
        code: &Code,
        path: &Path,
        number: u32,
        capacity: u32,
    ) -> Result<(), AllocError>
        requires can { ∥ CanDo code.now capacity (kept_of self.old) path.now ∥₁ }
        requires asks { IsAsking (kept_of self.old) path.now (Request.New number) }
        requires capacity { 0 < capacity }
        ensures { OnOk result (Steps code.now capacity (kept_of self.old) path.now
            (kept_of self.new)) }
    {
        let declared = copy_type(self.alloc, &code.types[number as usize])?;
        let name = self.add_channel(path, declared)?;
        self.go_on(code, path, Answer::Made(name), capacity)
    }

    // A task makes a task.
    fn fork(&mut self, code: &Code, path: &Path, capacity: u32) -> Result<(), AllocError>
        requires can { ∥ CanDo code.now capacity (kept_of self.old) path.now ∥₁ }
        requires asks { IsAsking (kept_of self.old) path.now Request.Fork }
        requires capacity { 0 < capacity }
        ensures { OnOk result (Steps code.now capacity (kept_of self.old) path.now
            (kept_of self.new)) }
    {
        let (child, _) = self.tasks.slot(path).task.child(code)?;
        self.go_on(code, path, Answer::Forked, capacity)?;
        self.settle(code, child, capacity)
    }

    // A task puts something in at an end.
    fn put(
        &mut self,
        code: &Code,
        path: &Path,
        end: &EndName,
        event: Event,
        capacity: u32,
    ) -> Result<(), AllocError>
        requires can { ∥ CanDo code.now capacity (kept_of self.old) path.now ∥₁ }
        requires asks { IsAsking (kept_of self.old) path.now (Request.Put end.now event) }
        requires capacity { 0 < capacity }
        ensures { OnOk result (Steps code.now capacity (kept_of self.old) path.now
            (kept_of self.new)) }
    {
        let partner = self.partner(end)?;
        self.put_at(end, event)?;
        self.go_on(code, path, Answer::Sent, capacity)?;
        self.test(partner, code.types.len(), capacity)
    }

    // A task takes what is next at an end.
    fn take(
        &mut self,
        code: &Code,
        path: &Path,
        end: &EndName,
        capacity: u32,
    ) -> Result<(), AllocError>
        requires can { ∥ CanDo code.now capacity (kept_of self.old) path.now ∥₁ }
        requires asks { IsAsking (kept_of self.old) path.now (Request.Get end.now) }
        requires capacity { 0 < capacity }
        ensures { OnOk result (Steps code.now capacity (kept_of self.old) path.now
            (kept_of self.new)) }
    {
        let partner = self.partner(end)?;
        let event = self.next_at(end)?;
        self.take_at(end);
        self.go_on(code, path, Answer::Got(event), capacity)?;
        self.test(partner, code.types.len(), capacity)
    }
}
