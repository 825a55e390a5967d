ghost use Rattle.std.specs.Prelude.{◌≡◌, ◌<◌, ◌++◌, ◌∷◌, [], suc, false, true, IfOk, IsOk, OnOk, OnErr, IfErr};
ghost use Rattle.fst_machine.specs.declared.request.Answer.TheVariants.{Forked};
ghost use Rattle.fst_vm.specs.Moves.{ends_in_slots};
ghost use Rattle.fst_vm.specs.Tasks.{AsksFor, Forks, GoesOn, HasEnded, HasNext, IsAtRest, IsChild, IsResult, IsStart, Stays, Takes, forked_after, is_exchange, readied};

use crate::answers::{child_at, tell_ready};
use crate::requests::request_at;
use crate::running::Running;
use crate::slots::Slots;
use crate::values::spare_for;
use fst_machine::{Answer, Code, Request};
use fst_types::{EndName, Path};
use fst_value::Value;
use std::alloc::{AllocError, Global};
use std::marker::Model;

// The path of the task that is forked next.
fn child_path(alloc: Global, path: &Path, forked: u32) -> Result<Path, AllocError>
    requires { forked < 4294967295 }
    ensures { IfOk result (λ p. p ≡ path.now ++ suc forked ∷ []) }
{
    let mut numbers = Vec::from_slice(alloc, path.as_slice())?;
    numbers.push(forked + 1)?;
    let made = Path::of(alloc, &numbers)?;
    Ok(made)
}

// How many tasks it has forked after an answer.
fn forked_after(answer: &Answer, forked: u32) -> u32
    requires { answer.now ≡ Forked → forked < 4294967295 }
    ensures { result ≡ forked_after answer.now forked }
{
    match answer {
        Answer::Forked => forked + 1,
        _ => forked,
    }
}

/// A task: its path, how many tasks it has forked, where its code runs, and whether it has the room to go on after what it
/// sends or receives.
#[derive(Drop)]
pub struct Task {
    alloc: Global,
    path: Path,
    forked: u32,
    running: Running,
    ready: bool,
    // where the task is ready and its last value is an end, the pair of the unit value and the end
    spare: Option<Value>,
}

impl Model for Task {
    ghost use Rattle.fst_vm.specs.TaskView.{TaskView};
    ghost use Rattle.fst_vm.specs.TaskCode.{task_code};

    ghost Value = { TaskView };

    ghost coded = { task_code };

    ghost use Rattle.std.specs.Prelude.{◌≡◌, true};
    ghost use Rattle.fst_vm.specs.Moves.{spare_for};

    ghost view = { λ t. record {
      path = t.path;
      forked = t.forked;
      spot = t.running;
      ready =
          t.ready;
    } };

    ghost invariant = { λ t. t.ready ≡ true → t.spare ≡ spare_for t.running.operands };
}

impl Task {
    /// The task of `main`, at the beginning of its body.
    pub fn start(alloc: Global, code: &Code) -> Result<Task, AllocError>
        ensures { IfOk result (IsStart code.now) }
    {
        let path = Path::of(alloc, &[0])?;
        let running = Running::at(alloc, code.code.len() as u64, Slots::new(alloc));
        Ok(Task {
            alloc,
            path,
            forked: 0,
            running,
            ready: false,
            spare: None,
        })
    }

    /// The path of the task.
    pub fn path(&self) -> &Path
        ensures { result.now ≡ self.now.path }
    {
        &self.path
    }

    // Runs on to where something is asked for. Where it stands there already, it is as ready as it was.
    fn run_on(&mut self, code: &Code) -> Result<(), AllocError>
        requires { ∥ HasNext code.now self.old ∥₁ }
        ensures stays { Stays code.now self.old self.new }
        ensures rests { OnOk result (IsAtRest code.now self.new) }
        ensures kept { IsAtRest code.now self.old → self.new.ready ≡ self.old.ready }
    {
        let moved = self.running.step(self.alloc, code)?;
        if moved {
            self.ready = false;
            self.running.run_on(self.alloc, code)?;
        }
        Ok(())
    }

    /// What the task asks for next, the same where this was asked before. Where memory is wanting, it is in the state in which
    /// it was.
    pub fn advance(&mut self, code: &Code) -> Result<Request, AllocError>
        requires { ∥ HasNext code.now self.old ∥₁ }
        ensures stays { Stays code.now self.old self.new }
        ensures asked { IfOk result (AsksFor code.now self.old) }
        ensures rests { OnOk result (IsAtRest code.now self.new) }
        ensures kept { IsAtRest code.now self.old → self.new.ready ≡ self.old.ready }
    {
        self.run_on(code)?;
        let request = request_at(self.alloc, code, &self.running)?;
        Ok(request.unwrap())
    }

    /// Takes the room that the answer to what it sends or receives needs, whatever its code. Where memory is wanting, the task is
    /// as it was.
    pub fn ready(&mut self, _code: &Code) -> Result<(), AllocError>
        ensures ready { OnOk result (self.new ≡ readied self.old) }
        ensures unchanged { OnErr result (self.new ≡ self.old) }
    {
        let spare = spare_for(self.alloc, &self.running.stack)?;
        self.spare = spare;
        self.ready = true;
        Ok(())
    }

    /// Goes on after an answer to what `advance` answered. Where memory is wanting, the answer comes back and the task is as
    /// it was; none is wanting where the task is ready and the answer is one to what it sent or received.
    pub fn resume(&mut self, code: &Code, answer: Answer) -> Result<(), (Answer, AllocError)>
        requires { ∥ Takes code.now self.old answer ∥₁ }
        ensures goes_on { OnOk result (GoesOn code.now self.old answer self.new) }
        ensures back { IfErr result (λ p. (p.0 ≡ answer) × (self.new ≡ self.old)) }
        ensures sure { self.old.ready ≡ true → is_exchange answer ≡ true → IsOk result }
    {
        match tell_ready(
            self.alloc,
            code,
            &answer,
            self.ready,
            &mut self.spare,
            &mut self.running,
        ) {
            Ok(_) => {}
            Err(e) => return Err((answer, e)),
        }
        self.forked = forked_after(&answer, self.forked);
        self.ready = false;
        Ok(())
    }

    /// The task that a fork makes, and the ends that its variables have, from the innermost outward, each as often as it
    /// stands there.
    pub fn child(&self, code: &Code) -> Result<(Task, Vec<EndName>), AllocError>
        requires { ∥ Forks code.now self.now ∥₁ }
        ensures child { IfOk result (λ p. IsChild code.now self.now p.0) }
        ensures ends { IfOk result (λ p. p.1.items ≡ ends_in_slots p.0.spot.slots) }
    {
        let running = child_at(self.alloc, code, &self.running)?.unwrap();
        let ends = running.slots.ends(self.alloc)?;
        let path = child_path(self.alloc, &self.path, self.forked)?;
        let task = Task {
            alloc: self.alloc,
            path,
            forked: 0,
            running,
            ready: false,
            spare: None,
        };
        Ok((task, ends))
    }

    /// The value of a task that has ended.
    pub fn result(self) -> Value
        requires { ∥ HasEnded self ∥₁ }
        ensures { IsResult self result }
    {
        let mut running = self.running;
        running.stack.pop().unwrap()
    }
}
