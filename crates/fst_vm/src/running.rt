ghost use Rattle.std.specs.Prelude.{◌≡◌, List, OnOk, None};
ghost use Rattle.fst_types.specs.declared.family.Family.{Family};
ghost use Rattle.fst_machine.specs.Spots.{begins_at, inner};
ghost use Rattle.fst_machine.specs.Standing.{GoesDown};
ghost use Rattle.fst_value.specs.Stacks.{Makes};
ghost use Rattle.fst_vm.specs.Running.{ComesTo, code_of};

use crate::act::act;
use crate::places::instr_at;
use crate::slots::Slots;
use fst_machine::Code;
use fst_value::Stack;
use std::alloc::{AllocError, Global};
use std::marker::Model;

/// Where a function was applied or a global used: the place where it goes on, and its variables.
#[derive(Drop)]
pub(crate) struct Caller {
    pub(crate) place: u64,
    pub(crate) slots: Slots,
}

impl Model for Caller {
    ghost use Rattle.fst_machine.specs.Spots.{Call};
    ghost use Rattle.fst_vm.specs.TaskCode.{call_code};

    ghost Value = { Call };

    ghost coded = { call_code };

    ghost view = { λ c. record { place = c.place; slots = c.slots } };
}

/// Where code runs.
#[derive(Drop)]
pub(crate) struct Running {
    pub(crate) place: u64,
    pub(crate) slots: Slots,
    pub(crate) stack: Stack,
    // the innermost last
    pub(crate) calls: Vec<Caller>,
}

impl Model for Running {
    ghost use Rattle.std.specs.Prelude.{reverse};
    ghost use Rattle.fst_machine.specs.Spots.{Spot};
    ghost use Rattle.fst_vm.specs.TaskCode.{spot_code};

    ghost Value = { Spot };

    ghost coded = { spot_code };

    ghost view = { λ r. record {
      place = r.place;
      slots = r.slots;
      operands = r.stack;
      calls = reverse r.calls.items;
    } };
}

impl Running {
    /// At the beginning of a body.
    pub(crate) fn at(alloc: Global, place: u64, slots: Slots) -> Running
        ensures { result ≡ begins_at place slots }
    {
        Running {
            place,
            slots,
            stack: Stack::new(alloc),
            calls: Vec::new(alloc),
        }
    }

    /// Makes one step, and says whether there is one. Where there is no room, nothing changes.
    pub(crate) fn step(&mut self, alloc: Global, code: &Code) -> Result<bool, AllocError>
        ensures { (fs : List Family) → Makes
            (inner (code_of fs code.now)) self.old result self.new }
    {
        let instr = match instr_at(code, self.place) {
            Some(instr) => instr,
            None => return Ok(false),
        };
        let behind = self.place - 1;
        match act(
            alloc,
            code,
            instr,
            behind,
            &mut self.slots,
            &mut self.stack,
            &mut self.calls,
        )? {
            Some(place) => {
                self.place = place;
                Ok(true)
            }
            None => Ok(false),
        }
    }

    /// Runs on to where something is asked for. Where there is no room, it has come a part of the way.
    pub(crate) fn run_on(&mut self, alloc: Global, code: &Code) -> Result<(), AllocError>
        requires { ∥ ((fs : List Family) → GoesDown (code_of fs code.now)) ∥₁ }
        ensures way { (fs : List Family) → ComesTo (code_of fs code.now) self.old self.new }
        ensures still { OnOk result ((fs : List Family) →
            inner (code_of fs code.now) self.new ≡ None) }
    {
        while self.step(alloc, code)? {}
        Ok(())
    }
}
