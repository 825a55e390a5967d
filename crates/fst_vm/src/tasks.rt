ghost use Rattle.std.specs.Prelude.{◌≡◌, ◌++◌, ◌∷◌, [], true, Some, None, IfOk, OnOk};
ghost use Rattle.fst_paths.specs.Paths.{AreInOrder, main_path, put_at};
ghost use Rattle.fst_vm.specs.Tasks.{HasEnded};
ghost use Rattle.fst_vm.specs.Slot.{is_live};
ghost use Rattle.fst_vm.specs.SlotOf.{slot_of, slot_in, ended_in, tasks_by_path, one_waiting, waiting_in, IsEnd};

use crate::kept::{EndedTask, Slot, has_ended};
use crate::report::Waiting;
use fst_machine::Request;
use fst_types::{EndName, Path};
use fst_value::Value;
use std::alloc::{AllocError, Global};
use std::collections::BTreeMap;

/// All tasks of a run: those that have not ended by their paths, and apart from them those that have, in the order in which
/// they did, so that no path is looked up among theirs.
#[derive(Drop)]
pub struct Tasks {
    pub live: BTreeMap<Vec<u32>, Slot>,
    pub ended: Vec<EndedTask>,
}

// Adds a task that asks at an end.
fn add_waiting(
    alloc: Global,
    all: &mut Vec<Waiting>,
    path: &[u32],
    end: &EndName,
) -> Result<(), AllocError>
    ensures { OnOk result (all.new.items ≡
        all.old.items ++ (record { task = path.now; end = end.now } ∷ [])) }
{
    let task = Path::of(alloc, path)?;
    let end = end.copy(alloc)?;
    all.push(Waiting { task, end })?;
    Ok(())
}

// Adds a task with what it asks for, if it waits.
fn add_if_waiting(
    alloc: Global,
    all: &mut Vec<Waiting>,
    path: &[u32],
    request: &Request,
) -> Result<(), AllocError>
    ensures { OnOk result (all.new.items ≡ all.old.items ++ one_waiting path.now request.now) }
{
    match request {
        Request::Step => Ok(()),
        Request::New(_) => Ok(()),
        Request::Fork => Ok(()),
        Request::Put(end, _) => add_waiting(alloc, all, path, end),
        Request::Get(end) => add_waiting(alloc, all, path, end),
        Request::Ended => Ok(()),
    }
}

// The value of main, if its task is the last with its path that has ended.
fn ended_result(mut ended: Vec<EndedTask>) -> Option<Value>
    requires { (s : _) → ended_in ended.items main_path ≡ Some s → ∥ HasEnded s.task ∥₁ }
    ensures { IsEnd (ended_in ended.items main_path) result }
{
    let main: [u32; 1] = [0];
    while let Some(last) = ended.pop() {
        if last.task.path().as_slice() == &main[..] {
            return Some(last.task.result());
        }
    }
    None
}

impl Tasks {
    /// No task.
    pub fn new(alloc: Global) -> Tasks
        ensures { tasks_by_path result ≡ (λ p. None) }
    {
        Tasks {
            live: BTreeMap::new(alloc),
            ended: Vec::new(alloc),
        }
    }

    // Puts a task in that has ended.
    fn put_ended(&mut self, slot: Slot) -> Result<(), AllocError>
        requires { slot.request ≡ Request.Ended }
        ensures { OnOk result (tasks_by_path self.new ≡
            put_at slot.task.path (Some (slot_of slot)) (tasks_by_path self.old)) }
    {
        let Slot { task, clock, .. } = slot;
        self.live.remove(task.path().as_slice());
        self.ended.push(EndedTask { task, clock })?;
        Ok(())
    }

    // Puts a task in among those that have not ended.
    fn put_live(&mut self, alloc: Global, slot: Slot) -> Result<(), AllocError>
        ensures { OnOk result (tasks_by_path self.new ≡
            put_at slot.task.path (Some (slot_of slot)) (tasks_by_path self.old)) }
    {
        let key = Vec::from_slice(alloc, slot.task.path().as_slice())?;
        self.live.insert(key, slot)?;
        Ok(())
    }

    /// Puts a task in at its path: among those that have ended, if it asks for nothing.
    pub fn put_in(&mut self, alloc: Global, slot: Slot) -> Result<(), AllocError>
        ensures { OnOk result (tasks_by_path self.new ≡
            put_at slot.task.path (Some (slot_of slot)) (tasks_by_path self.old)) }
    {
        if has_ended(&slot.request) {
            self.put_ended(slot)
        } else {
            self.put_live(alloc, slot)
        }
    }

    /// Moves a task that has ended to those that have.
    pub fn set_aside(&mut self, path: &Path) -> Result<(), AllocError>
        requires { (s : _) → slot_in self.old.live.entries path.now ≡ Some s →
            (s.task.path ≡ path.now) × (s.request ≡ Request.Ended) }
        ensures { OnOk result (tasks_by_path self.new ≡ tasks_by_path self.old) }
    {
        match self.live.remove(path.as_slice()) {
            Some(slot) => {
                let Slot { task, clock, .. } = slot;
                self.ended.push(EndedTask { task, clock })?;
                Ok(())
            }
            None => Ok(()),
        }
    }

    /// What is kept of a task that has not ended.
    pub fn slot(&self, path: &Path) -> &Slot
        requires { is_live (tasks_by_path self.now path.now) ≡ true }
        ensures { tasks_by_path self.now path.now ≡ Some (slot_of result.now) }
    {
        self.live.get(path.as_slice()).unwrap()
    }

    /// The tasks that wait, in the order of their paths.
    pub fn waiting(&self, alloc: Global) -> Result<Vec<Waiting>, AllocError>
        ensures items { IfOk result (λ ws. ws.items ≡ waiting_in self.now.live.entries) }
        ensures ordered { OnOk result (AreInOrder self.now.live.entries) }
    {
        let mut all = Vec::new(alloc);
        for (key, slot) in &self.live {
            add_if_waiting(alloc, &mut all, key.as_slice(), &slot.request)?;
        }
        Ok(all)
    }

    /// The value of main, if its task has ended.
    pub fn result(self) -> Option<Value>
        requires { (s : _) → tasks_by_path self main_path ≡ Some s → s.request ≡ Request.Ended →
            ∥ HasEnded s.task ∥₁ }
        ensures { IsEnd (tasks_by_path self main_path) result }
    {
        let Tasks { mut live, ended } = self;
        let main: [u32; 1] = [0];
        match live.remove(&main[..]) {
            Some(slot) => {
                let Slot { task, request, .. } = slot;
                match request {
                    Request::Ended => Some(task.result()),
                    _ => None,
                }
            }
            None => ended_result(ended),
        }
    }
}
