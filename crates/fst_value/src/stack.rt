ghost use Rattle.std.specs.Prelude.{◌≡◌, ◌<◌, ◌≤◌, ◌∷◌, [], length, drop, slice_get, IfOk, IsOk, OnOk, OnErr, Some, MatchOption};
ghost use Rattle.std.specs.Option.{option_copied};
ghost use Rattle.fst_value.specs.ValueTree.{ValueTree, unit, make, function};
ghost use Rattle.fst_value.specs.Stacks.{Makes, Takes, applied, gathered, halved, moved_on, opened, paired};

use crate::cells::Cell;
use crate::join::{gather, join_two};
use crate::split::{split_make, split_pair, take_function};
use crate::value::{Value, alone};
use std::alloc::{AllocError, Global};
use std::marker::Model;

/// Values that code computes with. Contracts see them in a list, the last one first.
#[derive(Drop)]
pub struct Stack {
    values: Vec<Value>,
}

impl Model for Stack {
    ghost use Rattle.std.specs.Prelude.{List, reverse};
    ghost use Rattle.std.specs.Coded.{coded_list};
    ghost use Rattle.fst_value.specs.ValueTree.{ValueTree};
    ghost use Rattle.fst_value.specs.CellCode.{value_code};

    ghost Value = { List ValueTree };

    ghost coded = { coded_list value_code };

    ghost view = { λ s. reverse s.values.items };
}

impl Stack {
    /// No values.
    pub fn new(alloc: Global) -> Stack
        ensures { result ≡ [] }
    {
        Stack {
            values: Vec::new(alloc),
        }
    }

    /// How many values there are.
    pub fn len(&self) -> usize
        ensures { result ≡ length self.now }
    {
        self.values.len()
    }

    /// The value before the last `k` ones.
    pub fn get(&self, k: usize) -> Option<&Value>
        ensures { option_copied result ≡ slice_get self.now k }
    {
        let len = self.values.len();
        if k < len {
            Some(&self.values[len - 1 - k])
        } else {
            None
        }
    }

    /// Puts a value in place of the last `count` ones. Where there is no room, nothing changes; in place of some there is room.
    pub fn replace(&mut self, count: usize, value: Value) -> Result<(), AllocError>
        requires { count ≤ length self.old }
        ensures replaced { OnOk result (self.new ≡ value ∷ drop count self.old) }
        ensures unchanged { OnErr result (self.new ≡ self.old) }
        ensures in_place { 0 < count → IsOk result }
    {
        if count == 0 {
            self.values.push(value)?;
            return Ok(());
        }
        let below = self.values.len() - count;
        self.values.truncate(below);
        self.values.push(value)?;
        Ok(())
    }

    /// Puts the unit value in place of the last one. It takes no memory.
    pub fn put_unit(&mut self, alloc: Global)
        requires { 0 < length self.old }
        ensures { self.new ≡ unit ∷ drop 1 self.old }
    {
        self.values.pop();
        self.values.push_reserved(alone(alloc, Cell::Unit));
    }

    /// Moves a value onto the stack, and says whether it is there. Where there is no room, nothing changes.
    pub fn push_from(&mut self, slot: &mut Option<Value>) -> Result<bool, AllocError>
        ensures { Makes moved_on (slot.old, self.old) result (slot.new, self.new) }
    {
        self.values.reserve(1)?;
        match slot.take() {
            Some(value) => {
                self.values.push(value)?;
                Ok(true)
            }
            None => Ok(false),
        }
    }

    /// Takes the last value off.
    pub fn pop(&mut self) -> Option<Value>
        ensures { MatchOption result ((self.old ≡ []) × (self.new ≡ []))
            (λ v. self.old ≡ v ∷ self.new) }
    {
        self.values.pop()
    }

    /// Drops the value before the last one.
    pub fn drop_second(&mut self)
        requires { 1 < length self.old }
        ensures last { slice_get self.new 0 ≡ slice_get self.old 0 }
        ensures rest { drop 1 self.new ≡ drop 2 self.old }
    {
        let second = self.values.len() - 2;
        self.values.swap_remove(second);
    }

    /// Takes the value before the last one, where it is a function, and gives the values that it captured in order, if it is
    /// one. Where there is no room, nothing changes.
    pub fn take_function(&mut self, alloc: Global) -> Result<Option<Vec<Value>>, AllocError>
        ensures { Takes applied self.old result self.new }
    {
        take_function(alloc, &mut self.values)
    }

    /// Makes a pair of the last two values, the last one its second part, and says whether there are two. Where there is no
    /// room, nothing changes.
    pub fn join_pair(&mut self) -> Result<bool, AllocError>
        ensures { Makes paired self.old result self.new }
    {
        join_two(&mut self.values)
    }

    /// Makes a constructor of the last values, and says whether there are so many. Where there is no room, nothing changes.
    pub fn join_make(
        &mut self,
        alloc: Global,
        family: u32,
        maker: u32,
        count: u32,
    ) -> Result<bool, AllocError>
        ensures { Makes (gathered (make family maker) count) self.old result self.new }
    {
        let done = gather(
            alloc,
            &mut self.values,
            Cell::Make(family, maker, count),
            count,
        )?;
        Ok(done)
    }

    /// Makes a function of the last values, which it captures, and says whether there are so many. Where there is no room,
    /// nothing changes.
    pub fn join_function(
        &mut self,
        alloc: Global,
        lambda: u32,
        count: u32,
    ) -> Result<bool, AllocError>
        ensures { Makes (gathered (function lambda) count) self.old result self.new }
    {
        let done = gather(
            alloc,
            &mut self.values,
            Cell::Function(lambda, count),
            count,
        )?;
        Ok(done)
    }

    /// Replaces the last value, where it is a pair, by its parts, the first one last, and says whether it is one. Where there
    /// is no room, nothing changes.
    pub fn split_pair(&mut self, alloc: Global) -> Result<bool, AllocError>
        ensures { Makes halved self.old result self.new }
    {
        split_pair(alloc, &mut self.values)
    }

    /// Replaces the last value, where it is a constructor, by its fields, the first one last, and says whether it is one.
    /// Where there is no room, nothing changes.
    pub fn split_make(&mut self, alloc: Global) -> Result<bool, AllocError>
        ensures { Makes opened self.old result self.new }
    {
        split_make(alloc, &mut self.values)
    }
}
