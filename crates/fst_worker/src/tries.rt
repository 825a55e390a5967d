//! What a run's workers do in vain, and how long they may go on so. This is about time alone: nothing that is proved reads it.

use crate::shares::Share;
use fst_safety::TypedTask;
use std::sync::atomic::{AtomicU32, AtomicU64, Ordering};

// So many tries in vain are allowed in any run,
const ALLOWANCE: u64 = 16_384;

// and one more for so many events.
const EVENTS_A_TRY: u64 = 5;

// The start of a thread counts as so many, since it takes as long as some hundreds.
const START: u64 = 256;

// After so many passes in vain, one after the other, a share counts as idle.
const IDLE: u32 = 8;

// After so many it ends.
const PATIENCE: u32 = 64;

/// How far the rounds of a run have come.
#[derive(Clone, Copy)]
pub(crate) struct Progress {
    /// How many events there were.
    pub events: u64,
    /// The greatest clock that a task had after a round.
    pub clock: u64,
    /// Whether a task was forked in the last round.
    pub forked: bool,
    /// How many tries in vain there were.
    pub vain: u64,
}

impl Progress {
    /// Before the first round.
    pub(crate) fn start() -> Progress {
        Progress {
            events: 0,
            clock: 0,
            forked: true,
            vain: 0,
        }
    }

    /// Whether the rounds end here: the events or a clock exceed the steps, or too much was tried in vain.
    pub(crate) fn ends(self, steps: u64) -> bool {
        self.events > steps || self.clock > steps || self.vain > allowed(self.events)
    }

    /// How far they have come after a round of these shares.
    pub(crate) fn after(self, shares: &[Share], tries: &Tries) -> Progress {
        let mut events = self.events;
        let mut clock = self.clock;
        let mut forked = false;
        for share in shares {
            events = events.saturating_add(share.events);
            clock = latest(share.tasks.as_slice(), clock);
            clock = latest(share.forked.as_slice(), clock);
            clock = latest(share.ended.as_slice(), clock);
            forked = forked || share.forked.len() > 0;
        }
        Progress {
            events,
            clock,
            forked,
            vain: tries.in_vain(),
        }
    }
}

// The greatest of a clock and those of the tasks.
fn latest(tasks: &[TypedTask], clock: u64) -> u64 {
    let mut latest = clock;
    for task in tasks {
        if task.clock > latest {
            latest = task.clock;
        }
    }
    latest
}

// How many tries in vain are allowed in a run that has so many events.
fn allowed(events: u64) -> u64 {
    (events / EVENTS_A_TRY).saturating_add(ALLOWANCE)
}

/// What the shares of a round know of one another.
#[derive(Drop)]
pub(crate) struct Tries {
    // how many shares haven't ended
    going: AtomicU32,
    // how many of them aren't idle
    busy: AtomicU32,
    // how many tries in vain there were in the run; the start of a thread counts as some
    vain: AtomicU64,
    // how many events there were before the round
    events: u64,
}

impl Tries {
    /// At the beginning of a round that moves so many shares on so many threads.
    pub(crate) fn new(shares: usize, threads: usize, so_far: Progress) -> Tries {
        let count = u32::try_from(shares).unwrap_or(u32::MAX);
        // the round's own thread moves a share, too
        let busy = if shares < threads { shares } else { threads };
        let started = (busy as u64).saturating_sub(1);
        Tries {
            going: AtomicU32::new(count),
            busy: AtomicU32::new(count),
            vain: AtomicU64::new(so_far.vain.saturating_add(started.saturating_mul(START))),
            events: so_far.events,
        }
    }

    /// How many tries in vain there were in the run.
    pub(crate) fn in_vain(&self) -> u64 {
        self.vain.load(Ordering::SeqCst)
    }

    /// Counts so many more.
    pub(crate) fn count(&self, vain: usize) {
        if vain > 0 {
            self.vain.fetch_add(vain as u64, Ordering::SeqCst);
        }
    }

    /// Whether too much was tried in vain, where a share has made so many events in the round.
    pub(crate) fn are_too_many(&self, events: u64) -> bool {
        self.in_vain() > allowed(self.events.saturating_add(events))
    }

    /// A share has moved after so many passes in vain, and is busy.
    pub(crate) fn move_on(&self, passes: u32) {
        if passes >= IDLE {
            self.busy.fetch_add(1, Ordering::SeqCst);
        }
    }

    /// A share ends after so many.
    pub(crate) fn leave(&self, passes: u32) {
        self.going.fetch_sub(1, Ordering::SeqCst);
        if passes < IDLE {
            self.busy.fetch_sub(1, Ordering::SeqCst);
        }
    }

    /// How many passes in vain there are after one more, or none where a share doesn't look again: it has done so often enough,
    /// or no other share is busy. One that has just moved looks again while there are others, since these may not have seen it.
    pub(crate) fn look_again(&self, passes: u32) -> Option<u32> {
        let more = passes.saturating_add(1);
        let alone = if passes < IDLE {
            self.going.load(Ordering::SeqCst) <= 1
        } else {
            self.busy.load(Ordering::SeqCst) == 0
        };
        if alone || more >= PATIENCE {
            return None;
        }
        if more == IDLE {
            self.busy.fetch_sub(1, Ordering::SeqCst);
        }
        Some(more)
    }
}
