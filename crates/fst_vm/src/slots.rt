ghost use Rattle.std.specs.Prelude.{◌≡◌, ◌<◌, [], drop, IfOk};
ghost use Rattle.std.specs.Vec.{vec_capacity};
ghost use Rattle.fst_machine.specs.Spots.{filled, spread};
ghost use Rattle.fst_value.specs.Stacks.{Makes};
ghost use Rattle.fst_vm.specs.Moves.{HasRoom, bound, ends_in_slot, ends_in_slots, loaded, taken_out, trees_of};

use fst_types::EndName;
use fst_value::{Stack, Value, copy, ends_of};
use std::alloc::{AllocError, Global};
use std::marker::Model;

/// What variables stand for: nothing for those that aren't used any more. Contracts see the innermost first.
#[derive(Drop)]
pub(crate) struct Slots {
    values: Vec<Option<Value>>,
}

impl Model for Slots {
    ghost use Rattle.std.specs.Prelude.{reverse};
    ghost use Rattle.fst_machine.specs.Spots.{Slots};
    ghost use Rattle.fst_vm.specs.TaskCode.{slots_code};

    ghost Value = { Slots };

    ghost coded = { slots_code };

    ghost view = { λ s. reverse s.values.items };
}

impl Slots {
    /// No variables.
    pub(crate) fn new(alloc: Global) -> Slots
        ensures { result ≡ [] }
    {
        Slots {
            values: Vec::new(alloc),
        }
    }

    /// Puts a copy of a variable's value on the stack, and says whether it has one. Where there is no room, nothing changes.
    pub(crate) fn load(&self, alloc: Global, k: u32, stack: &mut Stack) -> Result<bool, AllocError>
        ensures { Makes (loaded k self.now) stack.old result stack.new }
    {
        let k = k as usize;
        let len = self.values.len();
        if len <= k {
            return Ok(false);
        }
        match &self.values[len - 1 - k] {
            Some(value) => {
                stack.replace(0, copy(alloc, value)?)?;
                Ok(true)
            }
            None => Ok(false),
        }
    }

    /// Moves a variable's value to the stack, and says whether it has one. Where there is no room, nothing changes.
    pub(crate) fn take(&mut self, k: u32, stack: &mut Stack) -> Result<bool, AllocError>
        ensures { Makes (taken_out k) (self.old, stack.old) result (self.new, stack.new) }
    {
        let k = k as usize;
        let len = self.values.len();
        if len <= k {
            return Ok(false);
        }
        let done = stack.push_from(&mut self.values[len - 1 - k])?;
        Ok(done)
    }

    /// Makes the last value that of a new variable, and says whether there is one. Where there is no room, nothing changes.
    pub(crate) fn bind(&mut self, stack: &mut Stack) -> Result<bool, AllocError>
        ensures { Makes bound (self.old, stack.old) result (self.new, stack.new) }
    {
        self.values.reserve(1)?;
        match stack.pop() {
            Some(value) => {
                self.values.push(Some(value))?;
                Ok(true)
            }
            None => Ok(false),
        }
    }

    /// Leaves so many variables.
    pub(crate) fn leave(&mut self, count: u32)
        ensures { self.new ≡ drop count self.old }
    {
        let count = count as usize;
        let len = self.values.len();
        if count < len {
            self.values.truncate(len - count);
        } else {
            self.values.clear();
        }
    }

    /// The ends in the variables' values, from the innermost outward, each as often as it stands there.
    pub(crate) fn ends(&self, alloc: Global) -> Result<Vec<EndName>, AllocError>
        ensures { IfOk result (λ ends. ends.items ≡ ends_in_slots self.now) }
    {
        let len = self.values.len();
        let mut ends = Vec::new(alloc);
        for i in 0..len {
            let mut own = own_ends(alloc, &self.values[len - 1 - i])?;
            ends.append(&mut own)?;
        }
        Ok(ends)
    }
}

// The ends in what a variable stands for.
fn own_ends(alloc: Global, slot: &Option<Value>) -> Result<Vec<EndName>, AllocError>
    ensures { IfOk result (λ ends. ends.items ≡ ends_in_slot slot.now) }
{
    match slot {
        Some(value) => ends_of(alloc, value),
        None => Ok(Vec::new(alloc)),
    }
}

/// Room for values of these variables.
pub(crate) fn room_for(alloc: Global, variables: &[u32]) -> Result<Vec<Option<Value>>, AllocError>
    ensures none { IfOk result (λ values. values.items ≡ []) }
    ensures room { IfOk result (λ values. HasRoom (vec_capacity values) variables.now) }
{
    let mut places: usize = 0;
    for variable in variables {
        places = places.max(*variable as usize + 1);
    }
    Vec::with_capacity(alloc, places)
}

// A value for variable k, counted from the innermost one, with as many places as that needs, for which there is room.
fn fill(values: &mut Vec<Option<Value>>, k: usize, value: Value)
    requires { k < vec_capacity values.old }
    ensures values { values.new.items ≡ filled k value values.old.items }
    ensures capacity { vec_capacity values.new ≡ vec_capacity values.old }
{
    while values.len() <= k {
        values.push_reserved(None);
    }
    values[k] = Some(value);
}

/// Variables of which just these have values, as many as there are of both, in the room for them.
pub(crate) fn spread(
    mut room: Vec<Option<Value>>,
    variables: &[u32],
    mut parts: Vec<Value>,
) -> Slots
    requires none { room.items ≡ [] }
    requires room { HasRoom (vec_capacity room) variables.now }
    ensures { result ≡ spread variables.now (trees_of parts.items) }
{
    parts.truncate(variables.len());
    while let Some(part) = parts.pop() {
        fill(&mut room, variables[parts.len()] as usize, part);
    }
    room.reverse();
    Slots { values: room }
}
