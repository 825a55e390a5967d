//! Ends among others.

ghost use Rattle.std.specs.Prelude.{◌≡◌, ◌+◌, ◌≤◌, ◌<◌, IfSome, IfNone, IsSome, length, slice_index_or, vec_len, vec_capacity};
ghost use Rattle.fst_types.specs.declared.ends.EndName.{EndName as Named};
ghost use Rattle.fst_runs.specs.Configs.{same_end, same_side};
ghost use Rattle.fst_cell.specs.End.{EndView};
ghost use Rattle.fst_safety.specs.Bags.{AreParted, IsPlaced, IsPutBack, MayOffer, MayTake, NoticesAt, OffersAt, TakesAt};
ghost use Rattle.fst_safety.specs.Threads.{count_of};

use fst_cell::{End, Noticed, Offered, TakenEvent};
use fst_lts::terminated;
use fst_types::{EndName, Event, Side};
use std::alloc::AllocError;

// Whether the sides are the same.
fn is_same_side(one: Side, other: Side) -> bool
    ensures { result ≡ same_side one other }
{
    match (one, other) {
        (Side::Left, Side::Left) => true,
        (Side::Right, Side::Right) => true,
        _ => false,
    }
}

// Whether the names are the same.
fn is_same(one: &EndName, other: &EndName) -> bool
    ensures { result ≡ same_end one.now other.now }
{
    one.channel.maker.as_slice() == other.channel.maker.as_slice()
        && one.channel.count == other.channel.count
        && is_same_side(one.side, other.side)
}

// The place of the end with a name. It is looked for from the back, where the latest ends stand.
pub(crate) fn place(bag: &[End], name: &EndName) -> Option<usize>
    ensures found { IfSome result (IsPlaced name.now bag.now) }
    ensures missing { IfNone result (count_of name.now bag.now ≡ 0) }
{
    let mut i = bag.len();
    while 0 < i {
        i -= 1;
        if is_same(name, bag[i].name()) {
            return Some(i);
        }
    }
    None
}

// Puts an end behind the open ones, or behind the spent ones.
pub(crate) fn put_back(bag: &mut Vec<End>, retired: &mut Vec<End>, end: End)
    requires open { vec_len bag.old < vec_capacity bag.old }
    requires spent { vec_len retired.old < vec_capacity retired.old }
    ensures put { IsPutBack end bag.old.items retired.old.items bag.new.items retired.new.items }
    ensures grown { (vec_len bag.new ≤ vec_len bag.old + 1) ×
        (vec_len retired.new ≤ vec_len retired.old + 1) }
    ensures room { (vec_capacity bag.new ≡ vec_capacity bag.old) ×
        (vec_capacity retired.new ≡ vec_capacity retired.old) }
{
    if terminated(end.residual()) {
        retired.push_reserved(end);
    } else {
        bag.push_reserved(end);
    }
}

// Hands over the ends of these names.
pub(crate) fn part(bag: &mut Vec<End>, theirs: &mut Vec<End>, names: &[EndName])
    requires once { (z : Named) → count_of z bag.old.items ≤ 1 }
    requires empty { vec_len theirs.old ≡ 0 }
    requires room { length names.now ≤ vec_capacity theirs.old }
    ensures { AreParted names.now bag.old.items bag.new.items theirs.new.items }
{
    for name in names {
        if let Some(i) = place(bag.as_slice(), name) {
            let end = bag.swap_remove(i);
            theirs.push_reserved(end);
        }
    }
}

// Offers an event at the end of this place. Says whether it stands now; otherwise another call had the turn.
pub(crate) fn offer_at(
    bag: &mut Vec<End>,
    i: usize,
    event: Event,
    clock: u64,
) -> Result<bool, AllocError>
    requires there { i < length bag.old.items }
    requires may { (d : EndView) → MayOffer event (slice_index_or bag.old.items i d) }
    requires clock { clock < 4294967295 }
    ensures { OffersAt bag.old.items i event clock result bag.new.items }
{
    let end = bag.swap_remove(i);
    match end.offer(event, clock) {
        Offered::Waiting(end) => {
            bag.push_reserved(end);
            Ok(true)
        }
        Offered::Busy(end, _) => {
            bag.push_reserved(end);
            Ok(false)
        }
        Offered::Memory(end, _) => {
            bag.push_reserved(end);
            Err(AllocError)
        }
    }
}

// Looks what became of the offer of the end of this place. The stamp, where it was taken; then the end is put where it belongs.
pub(crate) fn notice_at(bag: &mut Vec<End>, retired: &mut Vec<End>, i: usize) -> Option<u64>
    requires there { i < length bag.old.items }
    requires waits { (d : EndView) → IsSome (slice_index_or bag.old.items i d).knows.offer }
    requires room { vec_len retired.old < vec_capacity retired.old }
    ensures { NoticesAt bag.old.items retired.old.items i result bag.new.items retired.new.items }
{
    let end = bag.swap_remove(i);
    match end.notice() {
        Noticed::Done(stamp, end) => {
            put_back(bag, retired, end);
            Some(stamp)
        }
        Noticed::NotYet(end) => {
            bag.push_reserved(end);
            None
        }
        Noticed::Busy(end) => {
            bag.push_reserved(end);
            None
        }
    }
}

// Takes what stands offered at the end of this place, with its stamp; then the end is put where it belongs.
pub(crate) fn take_at(
    bag: &mut Vec<End>,
    retired: &mut Vec<End>,
    i: usize,
    clock: u64,
) -> Result<Option<(Event, u64)>, AllocError>
    requires there { i < length bag.old.items }
    requires may { (d : EndView) → MayTake (slice_index_or bag.old.items i d) }
    requires clock { clock < 4294967295 }
    requires room { vec_len retired.old < vec_capacity retired.old }
    ensures { TakesAt bag.old.items retired.old.items i clock result bag.new.items
        retired.new.items }
{
    let end = bag.swap_remove(i);
    match end.take(clock) {
        TakenEvent::Got(event, stamp, end) => {
            put_back(bag, retired, end);
            Ok(Some((event, stamp)))
        }
        TakenEvent::NotYet(end) => {
            bag.push_reserved(end);
            Ok(None)
        }
        TakenEvent::Busy(end) => {
            bag.push_reserved(end);
            Ok(None)
        }
        TakenEvent::Memory(end) => {
            bag.push_reserved(end);
            Err(AllocError)
        }
    }
}
