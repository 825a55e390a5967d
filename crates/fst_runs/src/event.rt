use fst_types::{ChannelName, Path};

/// What happens in a run.
#[derive(Drop)]
pub enum CoreEvent {
    /// The task with this path applies a function or uses a global.
    Local(Path),
    /// The task makes a channel.
    New(Path),
    /// The task makes a task.
    Fork(Path),
    /// The first task sends on one end of this channel what the second receives on the other.
    Meet(Path, Path, ChannelName),
}

/// What happens in a run, with its stamp: the clock of each task that takes part in it just after it.
#[derive(Drop)]
pub struct Stamped {
    pub event: CoreEvent,
    pub stamp: u64,
}
