ghost use Rattle.std.specs.Prelude.{◌≡◌, IfOk};

use crate::ends::ChannelName;
use crate::name::Name;
use crate::ty::Ty;
use std::alloc::{AllocError, Global};

/// What passes over a channel: a value of a base type, the label of a branch, or that it is closed.
#[derive(Drop)]
pub enum Event {
    Int(i64),
    Bool(bool),
    Char(char),
    Unit,
    Label(Name),
    Closed,
}

/// One entry of a channel's history: what passed, its stamp, and the clocks of the task that sent it and of the task that
/// received it, just before they met.
#[derive(Drop)]
pub struct Entry {
    pub event: Event,
    pub stamp: u64,
    pub sent: u64,
    pub got: u64,
}

/// A channel: its name, the type of its left end when it was made, and what passed over it.
#[derive(Drop)]
pub struct ChannelHistory {
    pub name: ChannelName,
    pub declared: Ty,
    pub entries: Vec<Entry>,
}

impl Event {
    /// The same event in memory of its own.
    pub fn copy(&self, alloc: Global) -> Result<Event, AllocError>
        ensures { IfOk result (λ e. e ≡ self.now) }
    {
        match self {
            Event::Int(number) => Ok(Event::Int(*number)),
            Event::Bool(truth) => Ok(Event::Bool(*truth)),
            Event::Char(character) => Ok(Event::Char(*character)),
            Event::Unit => Ok(Event::Unit),
            Event::Label(name) => Ok(Event::Label(name.copy(alloc)?)),
            Event::Closed => Ok(Event::Closed),
        }
    }
}
