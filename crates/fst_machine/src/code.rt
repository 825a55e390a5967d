ghost use Rattle.std.specs.Prelude.{◌<◌, ◌+◌, ◌^◌, length};
ghost use Rattle.fst_machine.specs.Programs.{IsCodeOf};

use crate::entry::LambdaEntry;
use fst_terms::{Module, Op};
use fst_types::{Name, Ty};
use std::snapshot::Snapshot;

/// An instruction of the code that a module runs as. A place in code is how many instructions stand at it and below it; an
/// instruction is followed by the one at the place below, so code runs from the greatest place down. Variables are numbers
/// outward, as in terms.
#[derive(Drop)]
pub enum Instr {
    Int(i64),
    Bool(bool),
    Char(char),
    Unit,
    /// Copy the value of a variable.
    Load(u32),
    /// Move the value of a variable out, which isn't used again.
    Take(u32),
    /// Make the last value that of a new variable.
    Bind,
    /// Leave so many variables.
    Unbind(u32),
    /// A pair of the last two values.
    Pair,
    /// Both parts of a pair, the first one last.
    Split,
    /// A constructor of so many of the last values: its data type, its number in it, and how many.
    Make(u32, u32, u32),
    /// A function, with the values of what it captures.
    Function(u32),
    /// Apply a function to an argument.
    Call,
    /// Use a global.
    Global(u32),
    /// Compute with two values.
    Operate(Op),
    /// The other truth value.
    Not,
    /// Go on at the place if the last value is false.
    Branch(u64),
    /// Go on at the place.
    Jump(u64),
    /// Go on at the place of the constructor's number, with its fields, the first one last.
    Case(Vec<u64>),
    /// The two ends of a new channel.
    New(u32),
    /// Send a value on an end.
    Send,
    /// Receive a value on an end.
    Receive,
    /// Close a channel at an end.
    Close,
    /// Wait at an end until the channel is closed.
    Wait,
    /// Select a branch on an end.
    Select(Name),
    /// Receive a label on an end, and go on at its place with the end.
    Match(Vec<(Name, u64)>),
    /// A task, with the values of what it captures.
    Fork(u32),
    /// Drop the last value.
    Drop,
    /// Go back with the last value to where the function was applied or the global used.
    Return,
}

/// The code of a module. Its greatest place is where the body of `main` begins. Its functions and
/// tasks, its globals and its types are together fewer than 2^32.
#[derive(Drop)]
pub struct Code {
    pub code: Vec<Instr>,
    /// What `Function` and `Fork` name.
    pub lambdas: Vec<LambdaEntry>,
    /// The places where the globals start.
    pub globals: Vec<u64>,
    /// The module's types, which `New` names.
    pub types: Vec<Ty>,
    /// The module, for contracts alone: the code stands for it.
    pub module: Snapshot<Module>,
    ghost stands: { ∥ IsCodeOf module.value code.items lambdas.items globals.items types.items ∥₁ },
    ghost few: { length lambdas.items + length globals.items + length types.items < 2 ^ 32 },
}
