//! The words of the command line.
#![tactic(auto)]

mod given;
mod settings;
mod words;

pub use settings::{DEFAULT_BUDGET, DEFAULT_STEPS, DEFAULT_WORKERS};
pub use words::{BufferOptions, Command, EquivOptions, RunOptions, parse};
