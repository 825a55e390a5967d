//! The code of a module.
#![tactic(auto)]

mod arms;
mod branches;
mod built;
mod closing;
mod codes;
mod generating;
mod given;
mod globals;
mod makers;
mod marks;
mod parts;
mod pieces;
mod terms;

pub use generating::generate;
