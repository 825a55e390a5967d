//! Two threads at the ends of one channel.

ghost use Rattle.std.specs.Prelude.{◌≡◌, ◌+◌, ◌^◌, ◌<◌, [], IfOk, IfSome, IsSome, IsTrue, None, true, length};
ghost use Rattle.fst_types.specs.declared.event.Event.TheVariants.{Int};
ghost use Rattle.fst_kinds.specs.WellFormed.{IsSession};
ghost use Rattle.fst_cell.specs.End.{residual_of};
ghost use Rattle.fst_lts.specs.Residuals.{sends, asks};

use crate::calls::{asks_number, first_channel, sends_number};
use fst_cell::{Closed, End, Noticed, Offered, TakenEvent, close, new_cell};
use fst_types::{Base, Entry, Event, Ty, TyForm};
use std::alloc::{AllocError, Global};
use std::test::Fail;
use std::thread;
use std::thread::Threads;

// How often a thread tries at most.
const MOST_TRIES: u32 = 100_000_000;

/// Offers until the offer stands.
fn put(mut end: End, number: i64, clock: u64) -> Option<End>
    requires idle { end.knows.offer ≡ None }
    requires sends { sends (residual_of end.knows) (Int number) ≡ true }
    requires clock { clock < 2 ^ 63 }
    requires room { length end.knows.history < 2 ^ 32 }
    ensures cell { IfSome result (λ e. e.cell ≡ end.cell) }
    ensures side { IfSome result (λ e. e.knows.side ≡ end.knows.side) }
    ensures waits { IfSome result (λ e. IsSome e.knows.offer) }
    ensures history { IfSome result (λ e. e.knows.history ≡ end.knows.history) }
{
    for _tried in 0..MOST_TRIES {
        match end.offer(Event::Int(number), clock) {
            Offered::Waiting(next) => return Some(next),
            Offered::Busy(next, _) => {
                thread::yield_now();
                end = next;
            }
            Offered::Memory(_, _) => return None,
        }
    }
    None
}

/// Waits until the offer was taken.
fn wait(mut end: End) -> Option<(u64, End)>
    requires { IsSome end.knows.offer }
    ensures cell { IfSome result (λ r. r.1.cell ≡ end.cell) }
    ensures side { IfSome result (λ r. r.1.knows.side ≡ end.knows.side) }
    ensures idle { IfSome result (λ r. r.1.knows.offer ≡ None) }
    ensures longer { IfSome result (λ r. length r.1.knows.history ≡ length end.knows.history + 1) }
{
    for _tried in 0..MOST_TRIES {
        match end.notice() {
            Noticed::Done(stamp, next) => return Some((stamp, next)),
            Noticed::NotYet(next) | Noticed::Busy(next) => {
                thread::yield_now();
                end = next;
            }
        }
    }
    None
}

/// Takes what comes.
fn get(mut end: End, clock: u64) -> Option<(Event, u64, End)>
    requires asks { asks (residual_of end.knows) }
    requires clock { clock < 2 ^ 63 }
    requires room { length end.knows.history < 2 ^ 32 }
    ensures cell { IfSome result (λ r. r.2.cell ≡ end.cell) }
    ensures side { IfSome result (λ r. r.2.knows.side ≡ end.knows.side) }
    ensures longer { IfSome result (λ r. length r.2.knows.history ≡ length end.knows.history + 1) }
{
    for _tried in 0..MOST_TRIES {
        match end.take(clock) {
            TakenEvent::Got(event, stamp, next) => return Some((event, stamp, next)),
            TakenEvent::NotYet(next) | TakenEvent::Busy(next) => {
                thread::yield_now();
                end = next;
            }
            TakenEvent::Memory(_) => return None,
        }
    }
    None
}

/// Sends 1 to `count`.
fn send_all(alloc: Global, mut end: End, count: u32) -> Option<End>
    requires idle { end.knows.offer ≡ None }
    requires fresh { length end.knows.history ≡ 0 }
    ensures cell { IfSome result (λ e. e.cell ≡ end.cell) }
    ensures side { IfSome result (λ e. e.knows.side ≡ end.knows.side) }
{
    let mut clock = 0;
    for number in 0..count {
        if !sends_number(alloc, end.residual()) || clock >= 1 << 63 {
            return None;
        }
        let waiting = put(end, i64::from(number) + 1, clock)?;
        let (stamp, next) = wait(waiting)?;
        clock = stamp;
        end = next;
    }
    Some(end)
}

/// Takes `count` numbers, which are 1 to `count`.
fn take_all(alloc: Global, mut end: End, count: u32) -> Option<End>
    requires fresh { length end.knows.history ≡ 0 }
    ensures cell { IfSome result (λ e. e.cell ≡ end.cell) }
    ensures side { IfSome result (λ e. e.knows.side ≡ end.knows.side) }
{
    let mut clock = 0;
    for expected in 0..count {
        if !asks_number(alloc, end.residual()) || clock >= 1 << 63 {
            return None;
        }
        let (event, stamp, next) = get(end, clock)?;
        match event {
            Event::Int(number) if number == i64::from(expected) + 1 => {}
            _ => return None,
        }
        clock = stamp;
        end = next;
    }
    Some(end)
}

/// The type `rec x. !Int;x`.
#[tactic(auto, using(crate::proofs::Sessions::numbers_session))]
fn numbers(alloc: Global) -> Result<Ty, AllocError>
    ensures { IfOk result (λ t. IsSession [] t) }
{
    let message = Ty {
        form: TyForm::Send(Base::Int),
    };
    let again = Ty {
        form: TyForm::Back(0),
    };
    let body = Ty {
        form: TyForm::Seq(Box::new(alloc, message)?, Box::new(alloc, again)?),
    };
    Ok(Ty {
        form: TyForm::Rec(Box::new(alloc, body)?),
    })
}

/// Sends 1 to `count` from one thread to another.
fn relay<R: Threads + Sync>(
    rt: &R,
    alloc: Global,
    count: u32,
) -> Result<Option<Closed>, AllocError> {
    let (left, right) = new_cell(alloc, first_channel(alloc)?, numbers(alloc)?)?;
    let (left, right) = thread::join(
        rt,
        move || -> Option<End>
            requires { (left.knows.offer ≡ None) × (length left.knows.history ≡ 0) }
            ensures { IfSome result (λ e. (e.cell ≡ left.cell) × (e.knows.side ≡ left.knows.side)) }
        { send_all(alloc, left, count) },
        move || -> Option<End>
            requires { length right.knows.history ≡ 0 }
            ensures { IfSome result (λ e. (e.cell ≡ right.cell) ×
                (e.knows.side ≡ right.knows.side)) }
        { take_all(alloc, right, count) },
    );
    let (Some(left), Some(right)) = (left, right) else {
        return Ok(None);
    };
    Ok(Some(close(left, right)))
}

/// Whether these are the numbers from 1 on, with rising stamps.
fn are_in_order(entries: &[Entry]) -> bool {
    let mut last = 0;
    let mut next: i64 = 1;
    for entry in entries {
        let is_next = match entry.event {
            Event::Int(number) => number == next,
            _ => false,
        };
        if !is_next || entry.stamp <= last {
            return false;
        }
        last = entry.stamp;
        next = next.saturating_add(1);
    }
    true
}

#[test]
fn a_hundred_numbers_pass(rt: HostRuntime) -> Result<(), Fail> {
    let Some(closed) = relay(&rt, rt.alloc(), 100)? else {
        return Err(Fail::new("a thread stopped"));
    };
    assert!(rt; closed.offered.is_none());
    assert_eq!(rt; closed.history.entries.len(), 100);
    assert!(rt; are_in_order(&closed.history.entries));
    Ok(())
}
