//! Maps and sets whose keys are the paths of tasks, and channels by the tasks that made them.
#![tactic(auto)]

mod channels;
mod paths;

pub use channels::Channels;
pub use paths::insert_path;
