//! The program: its words, its input, and what it writes.
#![tactic(auto)]

mod answer;
mod auditing;
mod buffering;
mod checks;
mod finding;
mod refusals;
mod run;
mod running;
mod status;
mod texts;

pub use run::{any_workers, audited_again, completeness, meanings, one_output, shown_again, top};
pub use status::Status;
