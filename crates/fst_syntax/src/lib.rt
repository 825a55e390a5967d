//! Modules, read from the tokens of a text.
#![tactic(auto)]

mod atoms;
mod decls;
mod modules;
mod operands;
mod terms;

pub use modules::read_module;
