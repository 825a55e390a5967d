use fst_types::{ChannelName, EndName, Event, Path};

/// What a task has done in an event.
#[derive(Drop)]
pub enum Done {
    /// It applied a function or used a global.
    Local,
    /// It made the channel with this name.
    Made(ChannelName),
    /// It made the task with this path.
    Forked(Path),
    /// It sent this at an end.
    Put(EndName, Event),
    /// It received this at an end.
    Got(EndName, Event),
}

/// What a task has done in an event, with the event's stamp.
#[derive(Drop)]
pub struct Mark {
    pub done: Done,
    pub stamp: u64,
}

/// What the task with this path has done, the earliest first.
#[derive(Drop)]
pub struct TaskMarks {
    pub path: Path,
    pub marks: Vec<Mark>,
}
