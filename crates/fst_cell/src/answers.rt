use crate::end::End;
use fst_types::{ChannelHistory, Event, Side};

/// What an offer leads to: it stands, or another call had the turn, or there was no room.
#[derive(Drop)]
pub enum Offered {
    Waiting(End),
    Busy(End, Event),
    Memory(End, Event),
}

/// What a take leads to: the event with its stamp, or nothing stands offered yet, or another call had the turn, or there was no room.
#[derive(Drop)]
pub enum TakenEvent {
    Got(Event, u64, End),
    NotYet(End),
    Busy(End),
    Memory(End),
}

/// What became of an end's own offer: it was taken with this stamp, or it still stands, or another call had the turn.
#[derive(Drop)]
pub enum Noticed {
    Done(u64, End),
    NotYet(End),
    Busy(End),
}

/// A channel whose two ends are given up: its history, and the offer that still stands, with its side.
#[derive(Drop)]
pub struct Closed {
    pub history: ChannelHistory,
    pub offered: Option<(Side, Event)>,
}
