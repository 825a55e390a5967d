ghost use Rattle.std.specs.Prelude.{◌≡◌, IfOk};
ghost use Rattle.std.specs.Option.{option_copied, option_to_list};
ghost use Rattle.fst_value.specs.OneCell.{ends_at, arity};

use fst_types::EndName;
use std::alloc::{AllocError, Global};

/// One node of a value. Contracts see a value's nodes in preorder.
#[derive(Drop)]
pub enum Cell {
    Int(i64),
    Bool(bool),
    Char(char),
    Unit,
    Pair,
    /// A constructor: its data type, its number in it, and how many fields it has.
    Make(u32, u32, u32),
    /// A function: its number in the code, and how many values it captured.
    Function(u32, u32),
    End(EndName),
}

impl Cell {
    /// The same cell in memory of its own.
    pub fn copy(&self, alloc: Global) -> Result<Cell, AllocError>
        ensures { IfOk result (λ c. c ≡ self.now) }
    {
        match self {
            Cell::Int(number) => Ok(Cell::Int(*number)),
            Cell::Bool(truth) => Ok(Cell::Bool(*truth)),
            Cell::Char(character) => Ok(Cell::Char(*character)),
            Cell::Unit => Ok(Cell::Unit),
            Cell::Pair => Ok(Cell::Pair),
            Cell::Make(data, maker, count) => Ok(Cell::Make(*data, *maker, *count)),
            Cell::Function(lambda, count) => Ok(Cell::Function(*lambda, *count)),
            Cell::End(end) => Ok(Cell::End(end.copy(alloc)?)),
        }
    }
}

/// The end at a cell, if it is one.
pub(crate) fn end_at(cell: &Cell) -> Option<&EndName>
    ensures { option_to_list (option_copied result) ≡ ends_at cell.now }
{
    match cell {
        Cell::Int(_) => None,
        Cell::Bool(_) => None,
        Cell::Char(_) => None,
        Cell::Unit => None,
        Cell::Pair => None,
        Cell::Make(_, _, _) => None,
        Cell::Function(_, _) => None,
        Cell::End(name) => Some(name),
    }
}

/// How many parts follow a cell.
pub(crate) fn parts_at(cell: &Cell) -> u32
    ensures { result ≡ arity cell.now }
{
    match cell {
        Cell::Int(_) => 0,
        Cell::Bool(_) => 0,
        Cell::Char(_) => 0,
        Cell::Unit => 0,
        Cell::Pair => 2,
        Cell::Make(_, _, count) => *count,
        Cell::Function(_, count) => *count,
        Cell::End(_) => 0,
    }
}
