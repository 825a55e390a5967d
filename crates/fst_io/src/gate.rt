/// What a run's workers call as they go, and where a watcher may hold them.
pub trait Gate {
    /// A worker calls this as it starts a share.
    fn enter(&self, share: u32);

    /// A worker calls this directly after each turn that made an event, an offer or a notice,
    /// with the numbers of the task's path.
    fn turned(&self, share: u32, task: &[u32]);
}

/// The gate that does nothing and holds nobody, which the shipped program has.
#[derive(Clone, Copy, Debug)]
pub struct OpenGate;

impl Gate for OpenGate {
    fn enter(&self, _share: u32) {}

    fn turned(&self, _share: u32, _task: &[u32]) {}
}
