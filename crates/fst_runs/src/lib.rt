//! All tasks and channels of a run, what may happen next, and what the logs of tasks say of it.
#![tactic(auto)]

mod event;
mod log;

pub use event::{CoreEvent, Stamped};
pub use log::LogEntry;
