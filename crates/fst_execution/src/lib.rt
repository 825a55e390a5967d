//! The run of a module that has derivations.
#![tactic(auto)]

mod executing;
mod law;

pub use executing::{execute, prepare};
pub use law::sound_law;
