//! All tasks and channels of a run, and runs with one worker.
#![tactic(auto)]

mod config;
mod firing;
mod kept;
mod marking;
mod marks;
mod notes;
mod report;
mod resuming;
mod run;

pub use config::Config;
pub use fst_vm::{Outcome, Report, Waiting};
pub use marking::{in_path_order, run_marked};
pub use marks::{Done, Mark, TaskMarks};
pub use run::{run_from, run_one};
