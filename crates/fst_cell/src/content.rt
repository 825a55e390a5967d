ghost use Rattle.std.specs.Prelude.{◌≡◌, IsTrue, IsFalse, IsSome, None};
ghost use Rattle.fst_cell.specs.Rule.{stands_for};

use crate::entries::Entries;
use fst_types::{Event, Side, Ty};

// An event that is offered, and the clock of the task that offers it.
#[derive(Drop)]
pub(crate) struct Offer {
    pub(crate) event: Event,
    pub(crate) clock: u64,
}

// The offer that stands in a cell, with its side.
#[derive(Drop)]
pub(crate) struct Standing {
    pub(crate) side: Side,
    pub(crate) offer: Offer,
}

// What the slot of a cell holds.
#[derive(Drop)]
pub(crate) struct Content {
    pub(crate) declared: Ty,
    pub(crate) history: Entries,
    pub(crate) offer: Option<Standing>,
}

// What one end knows. No value of it is made.
pub(crate) struct Half {
    pub(crate) side: Side,
    pub(crate) declared: Ty,
    pub(crate) history: Entries,
    pub(crate) offer: Option<Offer>,
    pub(crate) tries: u64,
    pub(crate) found: u64,
    pub(crate) held: Option<Content>,
}

// What a seat knows: both ends before they part, one end, both ends once they are joined, or nothing. No value of it is made.
pub(crate) enum View {
    Maker(Half, Half),
    Only(Half),
    Whole(Half, Half),
    Nothing,
}

impl Content {
    // Whether the offer that stands is this side's.
    pub(crate) fn is_offered(&self, side: Side) -> bool
        ensures yes { IsTrue result → IsSome (stands_for side self.now.offer) }
        ensures no { IsFalse result → stands_for side self.now.offer ≡ None }
    {
        match &self.offer {
            Some(standing) => standing.side == side,
            None => false,
        }
    }
}
