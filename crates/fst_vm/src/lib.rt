//! One task: the code that it runs, what it asks for, and how it goes on after an answer; all tasks of a run, and its report.
#![tactic(auto)]

mod act;
mod answers;
mod kept;
mod operators;
mod places;
mod report;
mod requests;
mod running;
mod slots;
mod task;
mod tasks;
mod values;

pub use kept::{EndedTask, Slot, has_ended, move_on, moves_alone, step_on};
pub use report::{Outcome, Report, Waiting};
pub use task::Task;
pub use tasks::Tasks;
