//! Rounds: each share on a thread of its own.

ghost use Rattle.std.specs.Prelude.{◌≡◌, ℕ, ◌<◌, [], All, length, slice_index_or};
ghost use Rattle.fst_worker.specs.declared.shares.Share.{Share as Shared};
ghost use Rattle.fst_worker.specs.Passes.{CanRun, Works};
ghost use Rattle.fst_worker.specs.Shares.{AreCounted, AreLent, AreTold, CanMove, GoOn, IsAnswer, RunsAll, some_moved, some_refused};

use crate::shares::Share;
use crate::tries::{Progress, Tries};
use fst_io::Gate;
use fst_machine::Code;
use std::alloc::AllocError;
use std::thread;
use std::thread::Threads;

// How many threads there are at most.
const WORKERS: usize = 8;

// Moves the tasks of one share.
fn work<G: Gate>(code: &Code, share: &mut Share, steps: u64, number: usize, tries: &Tries, gate: &G)
    requires fit { CanRun code.now share.old }
    requires steps { steps < 4294967295 }
    ensures { Works code.now steps share.old share.new }
{
    let number = u32::try_from(number).unwrap_or(u32::MAX);
    gate.enter(number);
    share.moved = false;
    share.refused = false;
    share.run(code, steps, number, tries, gate);
}

// Moves each share in a worker.
fn each_works<R: Threads + Sync, G: Gate + Sync>(
    rt: &R,
    code: &Code,
    shares: &mut [Share],
    steps: u64,
    tries: &Tries,
    gate: &G,
)
    requires fit { All (CanRun code.now) shares.old }
    requires steps { steps < 4294967295 }
    ensures len { length shares.new ≡ length shares.old }
    ensures each { (i : ℕ) (d : Shared) → i < length shares.old →
        Works code.now steps (slice_index_or shares.old i d) (slice_index_or shares.new i d) }
{
    thread::for_each_mut(
        rt,
        shares,
        WORKERS,
        &|number, share| work(code, share, steps, number, tries, gate),
    );
}

// What the workers do together.
fn all_work<R: Threads + Sync, G: Gate + Sync>(
    rt: &R,
    code: &Code,
    shares: &mut [Share],
    steps: u64,
    tries: &Tries,
    gate: &G,
)
    requires steps { steps < 4294967295 }
    requires fit { CanMove code.now shares.old }
    requires none_forked { All (λ (s : Shared). s.forked.items ≡ []) shares.old }
    ensures went { GoOn code.now shares.old shares.new }
    ensures runs { RunsAll code.now steps shares.old shares.new }
    ensures lent { AreLent shares.old shares.new }
    ensures counted { AreCounted shares.old shares.new }
    ensures told { AreTold shares.old shares.new }
{
    each_works(rt, code, shares, steps, tries, gate);
}

// Whether a share has given up for want of memory.
fn some_refused(shares: &[Share]) -> bool
    ensures { result ≡ some_refused shares.now }
{
    shares.iter().any(|share| share.refused)
}

// Whether a share has moved.
fn some_moved(shares: &[Share]) -> bool
    ensures { result ≡ some_moved shares.now }
{
    shares.iter().any(|share| share.moved)
}

// What the shares tell of a round.
fn answer(shares: &[Share]) -> Result<bool, AllocError>
    ensures { IsAnswer result shares.now }
{
    if some_refused(shares) {
        return Err(AllocError);
    }
    Ok(some_moved(shares))
}

/// What the shares of a round know of one another at its beginning, when the rounds of the run have come so far.
pub(crate) fn tries_of(shares: &[Share], so_far: Progress) -> Tries {
    Tries::new(shares.len(), WORKERS, so_far)
}

/// Moves the tasks of each share in a worker of its own: a share passes over its tasks in their order and moves each as far as
/// it can, until a pass moves none, or its events or the clock of one of its tasks exceed the steps, or too much was tried in
/// vain. A task that is forked goes to `forked` and isn't moved, and one whose value is there goes to `ended`. No task is lost
/// where memory is wanting, which a share tells by `refused`.
///
/// The answer is whether a share made an event, an offer or a notice. `tries` is what the shares know of one another and of the
/// rounds before.
pub(crate) fn round<R: Threads + Sync, G: Gate + Sync>(
    rt: &R,
    code: &Code,
    shares: &mut Vec<Share>,
    steps: u64,
    tries: &Tries,
    gate: &G,
) -> Result<bool, AllocError>
    requires steps { steps < 4294967295 }
    requires fit { CanMove code.now shares.old.items }
    requires none_forked { All (λ (s : Shared). s.forked.items ≡ []) shares.old.items }
    ensures went { GoOn code.now shares.old.items shares.new.items }
    ensures runs { RunsAll code.now steps shares.old.items shares.new.items }
    ensures lent { AreLent shares.old.items shares.new.items }
    ensures counted { AreCounted shares.old.items shares.new.items }
    ensures told { AreTold shares.old.items shares.new.items }
    ensures answer { IsAnswer result shares.new.items }
{
    all_work(rt, code, shares.as_mut_slice(), steps, tries, gate);
    answer(shares.as_slice())
}
