ghost use Rattle.std.specs.Prelude.{◌≡◌, ◌<◌, ◌≤◌, IfOk, OnOk};
ghost use Rattle.fst_vm.specs.TaskView.{TaskView};
ghost use Rattle.fst_vm.specs.Tasks.{HasNext, Takes, GoesOn};
ghost use Rattle.fst_vm.specs.Slot.{has_ended, is_step, moves_alone};
ghost use Rattle.fst_vm.specs.Going.{MovesOn, StepsOn, CanStepOn};
ghost use Rattle.fst_vm.specs.SlotOf.{slot_of};

use crate::task::Task;
use fst_machine::{Answer, Code, Request};
use std::alloc::AllocError;

/// What is kept of a task: what it asks for, and its clock.
#[derive(Drop)]
pub struct Slot {
    pub task: Task,
    pub request: Request,
    pub clock: u64,
}

/// What is kept of a task that has ended.
#[derive(Drop)]
pub struct EndedTask {
    pub task: Task,
    pub clock: u64,
}

/// Whether a task that asks for this has ended.
pub fn has_ended(request: &Request) -> bool
    ensures { result ≡ has_ended request.now }
{
    match request {
        Request::Step => false,
        Request::New(_) => false,
        Request::Fork => false,
        Request::Put(_, _) => false,
        Request::Get(_) => false,
        Request::Ended => true,
    }
}

/// Whether a task that asks for this can move alone, where the module has so many types.
pub fn moves_alone(types: usize, request: &Request) -> bool
    ensures { result ≡ moves_alone types request.now }
{
    match request {
        Request::Step => true,
        Request::New(number) => (*number as usize) < types,
        Request::Fork => true,
        Request::Put(_, _) => false,
        Request::Get(_) => false,
        Request::Ended => false,
    }
}

// Gives a task an answer.
fn resume(task: &mut Task, code: &Code, answer: Answer) -> Result<(), AllocError>
    requires { ∥ Takes code.now task.old answer ∥₁ }
    ensures { OnOk result (GoesOn code.now task.old answer task.new) }
{
    match task.resume(code, answer) {
        Ok(()) => Ok(()),
        Err((_, e)) => Err(e),
    }
}

/// Gives the task of a slot an answer, after which it goes on to what it asks for then. Its clock counts one more, and is
/// at least this.
pub fn move_on(slot: &mut Slot, code: &Code, answer: Answer, least: u64) -> Result<(), AllocError>
    requires takes { ∥ Takes code.now slot.old.task answer ∥₁ }
    requires next { (u : TaskView) → GoesOn code.now slot.old.task answer u →
        ∥ HasNext code.now u ∥₁ }
    requires few { slot.old.clock < 4294967295 }
    ensures { OnOk result (MovesOn code.now answer least (slot_of slot.old) (slot_of slot.new)) }
{
    resume(&mut slot.task, code, answer)?;
    slot.request = slot.task.advance(code)?;
    slot.clock = (slot.clock + 1).max(least);
    Ok(())
}

// Whether a task that asks for this is to step.
fn is_step(request: &Request) -> bool
    ensures { result ≡ is_step request.now }
{
    match request {
        Request::Step => true,
        Request::New(_) => false,
        Request::Fork => false,
        Request::Put(_, _) => false,
        Request::Get(_) => false,
        Request::Ended => false,
    }
}

/// Has the task of a slot step as often as it asks to, up to so many times, and answers how often that was.
pub fn step_on(slot: &mut Slot, code: &Code, most: u64) -> Result<u64, AllocError>
    requires { CanStepOn code.now most (slot_of slot.old) }
    ensures steps { IfOk result (λ n. StepsOn code.now n (slot_of slot.old) (slot_of slot.new)) }
    ensures most { IfOk result (λ n. n ≤ most) }
    ensures some { IfOk result (λ n. 0 < most → slot.old.request ≡ Request.Step → 0 < n) }
{
    let mut count = 0;
    while count < most && is_step(&slot.request) {
        move_on(slot, code, Answer::Go, 0)?;
        count += 1;
    }
    Ok(count)
}
