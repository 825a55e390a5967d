//! A cell, call by call.

ghost use Rattle.std.specs.Prelude.{◌≡◌, ◌+◌, ◌^◌, ◌<◌, [], IfOk, IfSome, IsTrue, Some, true, length};
ghost use Rattle.fst_types.specs.declared.event.Event.TheVariants.{Int};
ghost use Rattle.fst_kinds.specs.WellFormed.{IsSession};
ghost use Rattle.fst_lts.specs.Residuals.{sends, asks};
ghost use Rattle.fst_thread_trials.specs.Relay.{Stays};

use fst_cell::{End, Noticed, Offered, TakenEvent, close, new_cell};
use fst_lts::{step, terminated};
use fst_types::{Base, ChannelHistory, ChannelName, Event, Label, Path, Ty, TyForm};
use std::alloc::{AllocError, Global};
use std::test::Fail;

/// Whether a number may be sent next.
#[tactic(auto, unfolding(fst_lts::specs::Residuals::sends))]
pub(crate) fn sends_number(alloc: Global, t: &Ty) -> bool
    ensures { (n : _) → IsTrue result → sends (Some t.now) (Int n) ≡ true }
{
    match step(alloc, t, &Label::Send(Base::Int)) {
        Ok(next) => next.is_some(),
        Err(_) => false,
    }
}

/// Whether a number may come next.
#[tactic(auto, unfolding(fst_lts::specs::Residuals::asks))]
pub(crate) fn asks_number(alloc: Global, t: &Ty) -> bool
    ensures { IsTrue result → asks (Some t.now) }
{
    match step(alloc, t, &Label::Receive(Base::Int)) {
        Ok(next) => next.is_some(),
        Err(_) => false,
    }
}

/// The name `0#1`.
pub(crate) fn first_channel(alloc: Global) -> Result<ChannelName, AllocError> {
    Ok(ChannelName {
        maker: Path::of(alloc, &[])?,
        count: 1,
    })
}

/// The type `!Int`.
#[tactic(auto, using(crate::proofs::Sessions::number_session))]
fn number() -> Ty
    ensures { IsSession [] result }
{
    Ty {
        form: TyForm::Send(Base::Int),
    }
}

/// The end, where a take finds nothing.
fn takes_nothing(alloc: Global, end: End, clock: u64) -> Option<End>
    requires clock { clock < 2 ^ 63 }
    requires room { length end.knows.history < 2 ^ 32 }
    ensures end { IfSome result (λ e. Stays end e) }
    ensures room { IfSome result (λ e. length e.knows.history ≡ length end.knows.history) }
{
    if !asks_number(alloc, end.residual()) {
        return None;
    }
    match end.take(clock) {
        TakenEvent::Got(_, _, _) => None,
        TakenEvent::NotYet(end) => Some(end),
        TakenEvent::Busy(_) => None,
        TakenEvent::Memory(_) => None,
    }
}

/// The end, where a take gets 5 with the stamp 8.
fn takes_five(alloc: Global, end: End, clock: u64) -> Option<End>
    requires clock { clock < 2 ^ 63 }
    requires room { length end.knows.history < 2 ^ 32 }
    ensures { IfSome result (λ e. Stays end e) }
{
    if !asks_number(alloc, end.residual()) {
        return None;
    }
    match end.take(clock) {
        TakenEvent::Got(event, stamp, end) => {
            if is_five(&event) && stamp == 8 {
                Some(end)
            } else {
                None
            }
        }
        TakenEvent::NotYet(_) => None,
        TakenEvent::Busy(_) => None,
        TakenEvent::Memory(_) => None,
    }
}

/// The end, where its offer of 5 stands.
fn offers_five(alloc: Global, end: End, clock: u64) -> Option<End>
    requires clock { clock < 2 ^ 63 }
    requires room { length end.knows.history < 2 ^ 32 }
    ensures { IfSome result (λ e. Stays end e) }
{
    if end.waiting() || !sends_number(alloc, end.residual()) {
        return None;
    }
    match end.offer(Event::Int(5), clock) {
        Offered::Waiting(end) => Some(end),
        Offered::Busy(_, _) => None,
        Offered::Memory(_, _) => None,
    }
}

/// The end, where its offer still stands.
fn notices_nothing(end: End) -> Option<End>
    ensures { IfSome result (λ e. Stays end e) }
{
    if !end.waiting() {
        return None;
    }
    match end.notice() {
        Noticed::Done(_, _) => None,
        Noticed::NotYet(end) => Some(end),
        Noticed::Busy(_) => None,
    }
}

/// The end, where its offer was taken with the stamp 8.
fn notices_eight(end: End) -> Option<End>
    ensures { IfSome result (λ e. Stays end e) }
{
    if !end.waiting() {
        return None;
    }
    match end.notice() {
        Noticed::Done(stamp, end) => { if stamp == 8 { Some(end) } else { None } }
        Noticed::NotYet(_) => None,
        Noticed::Busy(_) => None,
    }
}

/// Before the offer there is nothing to take; 5 is offered at clock 3, and stands.
fn offer_five(alloc: Global, left: End, right: End) -> Option<(End, End)>
    requires left { length left.knows.history ≡ 0 }
    requires right { length right.knows.history ≡ 0 }
    ensures left { IfSome result (λ ends. Stays left ends.0) }
    ensures right { IfSome result (λ ends. Stays right ends.1) }
    ensures room { IfSome result (λ ends. length ends.1.knows.history ≡ 0) }
{
    let right = takes_nothing(alloc, right, 7)?;
    let left = offers_five(alloc, left, 3)?;
    Some((notices_nothing(left)?, right))
}

/// 5 is taken at clock 7, and that is noticed.
fn take_five(alloc: Global, left: End, right: End) -> Option<(End, End)>
    requires { length right.knows.history ≡ 0 }
    ensures left { IfSome result (λ ends. Stays left ends.0) }
    ensures right { IfSome result (λ ends. Stays right ends.1) }
{
    let right = takes_five(alloc, right, 7)?;
    Some((notices_eight(left)?, right))
}

fn is_five(event: &Event) -> bool {
    match event {
        Event::Int(number) => *number == 5,
        _ => false,
    }
}

/// Whether the one entry of a history is the 5 that was sent at 3 and received at 7.
fn is_right(history: &ChannelHistory) -> bool {
    match history.entries.as_slice() {
        [entry] => { is_five(&entry.event) && (entry.stamp, entry.sent, entry.got) == (8, 3, 7) }
        _ => false,
    }
}

#[test]
fn one_number_passes(rt: HostRuntime) -> Result<(), Fail> {
    let alloc = rt.alloc();
    let (left, right) = new_cell(alloc, first_channel(alloc)?, number())?;
    let (left, right) = offer_five(alloc, left, right).ok_or("no offer that stands")?;
    let (left, right) = take_five(alloc, left, right).ok_or("nothing taken")?;
    assert!(rt; terminated(left.residual()) && terminated(right.residual()));
    let closed = close(left, right);
    assert!(rt; closed.offered.is_none());
    assert!(rt; is_right(&closed.history));
    Ok(())
}
