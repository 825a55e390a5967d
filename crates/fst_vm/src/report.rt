use fst_types::{ChannelHistory, EndName, Path};
use fst_value::Value;

/// A task that waits, and the end at which it does.
#[derive(Drop)]
pub struct Waiting {
    pub task: Path,
    pub end: EndName,
}

/// What a run came to: the value of `main` if its task has ended, the tasks that wait in path order, the channels by
/// their makers and their numbers, and how many events there were.
#[derive(Drop)]
pub struct Report {
    pub result: Option<Value>,
    pub waiting: Vec<Waiting>,
    pub channels: Vec<ChannelHistory>,
    pub events: u64,
}

/// What a run of so many steps comes to.
#[derive(Drop)]
pub enum Outcome {
    Done(Report),
    /// The run has more events.
    OutOfSteps,
}
