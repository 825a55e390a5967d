use fst_types::{ChannelName, EndName, Event};

/// What a task asks for next.
#[derive(Drop)]
pub enum Request {
    /// To apply a function or to use a global.
    Step,
    /// A channel, whose left end has the type with this number in the module.
    New(u32),
    /// A task of its own for a term.
    Fork,
    /// To send this on an end.
    Put(EndName, Event),
    /// To receive on an end.
    Get(EndName),
    /// Nothing: its value is there.
    Ended,
}

/// What a task is told.
#[derive(Drop)]
pub enum Answer {
    /// To go on.
    Go,
    /// The channel that was made.
    Made(ChannelName),
    /// That the task was made.
    Forked,
    /// That what it sent was received.
    Sent,
    /// What it received.
    Got(Event),
}
