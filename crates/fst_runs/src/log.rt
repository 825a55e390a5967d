use fst_machine::{Answer, Request};

/// One entry of a task's log: what the task asked for, what it was told, and the stamp of that event.
#[derive(Drop)]
pub struct LogEntry {
    pub asked: Request,
    pub answer: Answer,
    pub stamp: u64,
}
