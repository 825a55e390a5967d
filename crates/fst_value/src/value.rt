ghost use Rattle.std.specs.Prelude.{◌≡◌, ◌≤◌, ◌++◌, [], IfOk, OnOk, OnErr};
ghost use Rattle.fst_value.specs.ValueTree.{int, bool, char, unit, end};
ghost use Rattle.fst_value.specs.Cells.{ends_in, count, rooted};
ghost use Rattle.fst_value.specs.OneCell.{arity};
ghost use Rattle.std.specs.Option.{option_copied};
ghost use Rattle.std.specs.Vec.{vec_capacity};
ghost use Rattle.fst_value.specs.Parts.{cell_with, end_in, form_of, form_at, parts_of, listed, unit_first, unit_form, with_first};

use crate::cells::{Cell, parts_at};
use crate::nodes::{Node, copies_of, push_end, push_ends};
use crate::split::{is_pair, take_apart};
use fst_types::EndName;
use std::alloc::{AllocError, Global};
use std::collections::VecDeque;
use std::marker::Model;

/// What a value is, without its parts: a number of its own, or the numbers of a constructor or a function.
#[derive(Clone, Copy, Debug, PartialEq, Eq)]
pub enum Form {
    Int(i64),
    Bool(bool),
    Char(char),
    Unit,
    Pair,
    /// A constructor: its data type, and its number in it.
    Make(u32, u32),
    /// A function: its number in the code.
    Function(u32),
    End,
}

/// A value that a task computes with. Contracts see its tree.
#[derive(Drop)]
pub struct Value {
    pub(crate) root: Cell,
    // the nodes of its parts in preorder
    pub(crate) body: VecDeque<Node>,
}

impl Model for Value {
    ghost use Rattle.fst_value.specs.ValueTree.{ValueTree};
    ghost use Rattle.fst_value.specs.CellCode.{value_code};

    ghost Value = { ValueTree };

    ghost coded = { value_code };

    ghost use Rattle.fst_value.specs.Nodes.{tree_of, IsKept};

    ghost view = { λ v. tree_of v.root v.body.items };

    ghost invariant = { λ v. IsKept v.root v.body.items };
}

impl Value {
    /// A number.
    pub fn int(alloc: Global, number: i64) -> Result<Value, AllocError>
        ensures { IfOk result (λ v. v ≡ int number) }
    {
        Ok(alone(alloc, Cell::Int(number)))
    }

    /// A truth value.
    pub fn bool(alloc: Global, truth: bool) -> Result<Value, AllocError>
        ensures { IfOk result (λ v. v ≡ bool truth) }
    {
        Ok(alone(alloc, Cell::Bool(truth)))
    }

    /// A character.
    pub fn char(alloc: Global, character: char) -> Result<Value, AllocError>
        ensures { IfOk result (λ v. v ≡ char character) }
    {
        Ok(alone(alloc, Cell::Char(character)))
    }

    /// The unit value.
    pub fn unit(alloc: Global) -> Result<Value, AllocError>
        ensures { IfOk result (λ v. v ≡ unit) }
    {
        Ok(alone(alloc, Cell::Unit))
    }

    /// An end of a channel.
    pub fn end(alloc: Global, name: EndName) -> Result<Value, AllocError>
        ensures { IfOk result (λ v. v ≡ end name) }
    {
        Ok(alone(alloc, Cell::End(name)))
    }

    /// What the value is.
    pub fn form(&self) -> Form
        ensures { result ≡ form_of self.now }
    {
        form_at(&self.root)
    }

    /// The end that the value is, if it is one.
    pub fn as_end(&self) -> Option<&EndName>
        ensures { option_copied result ≡ end_in self.now }
    {
        match &self.root {
            Cell::End(name) => Some(name),
            _ => None,
        }
    }

    /// How many parts the value has.
    pub(crate) fn count(&self) -> u32
        ensures { result ≡ count (parts_of self.now) }
    {
        parts_at(&self.root)
    }

    /// Moves its parts in order behind other values, so that nothing is left of it. Where there is no room, nothing changes.
    pub(crate) fn move_parts(
        &mut self,
        alloc: Global,
        values: &mut Vec<Value>,
    ) -> Result<(), AllocError>
        ensures parts { OnOk result (values.new.items ≡ values.old.items ++ listed
            (parts_of self.old)) }
        ensures stays { OnErr result (self.new ≡ self.old) }
        ensures values_stay { OnErr result (values.new.items ≡ values.old.items) }
        ensures capacity { vec_capacity values.old ≤ vec_capacity values.new }
    {
        let count = self.count() as usize;
        take_apart(alloc, &mut self.body, count, values)?;
        self.root = Cell::Unit;
        Ok(())
    }

    // whether it is a pair whose first part is the unit value
    fn has_unit_first(&self) -> bool
        ensures { result ≡ unit_first self.now }
    {
        if !is_pair(self.form()) {
            return false;
        }
        is_unit(form_at(&self.body[0].cell))
    }

    /// Puts a number, a truth value or a character in place of the unit value that is a pair's first part. It takes no memory.
    pub fn set_first(&mut self, form: Form)
        ensures { self.new ≡ with_first form self.old }
    {
        if !self.has_unit_first() {
            return;
        }
        if let Some(cell) = cell_with(form) {
            self.body.pop_front();
            self.body.push_front_reserved(Node { cell, size: 1 });
        }
    }
}

/// The value that is a root without parts.
pub(crate) fn alone(alloc: Global, root: Cell) -> Value
    requires { arity root ≡ 0 }
    ensures { result ≡ rooted root [] }
{
    Value {
        root,
        body: VecDeque::new(alloc),
    }
}

/// The same value in memory of its own.
pub fn copy(alloc: Global, v: &Value) -> Result<Value, AllocError>
    ensures { IfOk result (λ w. w ≡ v.now) }
{
    let root = v.root.copy(alloc)?;
    let body = copies_of(alloc, &v.body)?;
    Ok(Value { root, body })
}

/// The ends in the value, in order, each as often as it stands there.
pub fn ends_of(alloc: Global, v: &Value) -> Result<Vec<EndName>, AllocError>
    ensures { IfOk result (λ names. names.items ≡ ends_in v.now) }
{
    let mut names = Vec::new(alloc);
    push_end(alloc, &mut names, &v.root)?;
    push_ends(alloc, &mut names, &v.body)?;
    Ok(names)
}

fn form_at(cell: &Cell) -> Form
    ensures { result ≡ form_at cell.now }
{
    match cell {
        Cell::Int(number) => Form::Int(*number),
        Cell::Bool(truth) => Form::Bool(*truth),
        Cell::Char(character) => Form::Char(*character),
        Cell::Unit => Form::Unit,
        Cell::Pair => Form::Pair,
        Cell::Make(data, maker, _) => Form::Make(*data, *maker),
        Cell::Function(lambda, _) => Form::Function(*lambda),
        Cell::End(_) => Form::End,
    }
}

fn is_unit(form: Form) -> bool
    ensures { result ≡ unit_form form }
{
    match form {
        Form::Int(_) => false,
        Form::Bool(_) => false,
        Form::Char(_) => false,
        Form::Unit => true,
        Form::Pair => false,
        Form::Make(_, _) => false,
        Form::Function(_) => false,
        Form::End => false,
    }
}

// The cell of a number, a truth value or a character.
fn cell_with(form: Form) -> Option<Cell>
    ensures { result ≡ cell_with form }
{
    match form {
        Form::Int(number) => Some(Cell::Int(number)),
        Form::Bool(truth) => Some(Cell::Bool(truth)),
        Form::Char(character) => Some(Cell::Char(character)),
        Form::Unit => None,
        Form::Pair => None,
        Form::Make(_, _) => None,
        Form::Function(_) => None,
        Form::End => None,
    }
}
