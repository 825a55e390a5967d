//! The text of a module that makes as many channels as one asks for.
#![tactic(auto)]

mod making;

pub use making::make;
