ghost use Rattle.std.specs.Prelude.{◌≡◌, All, Contains, IfOk, IsPermutation, MatchOption, OnOk};
ghost use Rattle.std.specs.List.Sorted.{IsSorted, IsStrictlySortedBy};
ghost use Rattle.fst_runs.specs.Configs.{other};
ghost use Rattle.fst_cell.specs.End.{end_name};
ghost use Rattle.fst_worker.specs.Closing.{AreClosedTo, AreOfRun, IsClosedTo, channel_cmp, name_cmp, names_of};

use fst_cell::{Closed, End, close};
use fst_types::{ChannelName, Side};
use std::alloc::{AllocError, Global};
use std::cmp::Ordering;

/// Closes all channels of a run, given all ends of its tasks, the open and the spent ones, in any order. The channels of each
/// task stand one after the other in the answer, in the order in which the task made them.
pub(crate) fn close_all(alloc: Global, mut ends: Vec<End>) -> Result<Vec<Closed>, AllocError>
    requires { AreOfRun ends.items }
    ensures closed { IfOk result (λ v. AreClosedTo ends.items v.items) }
    ensures order { IfOk result (λ v. IsStrictlySortedBy name_cmp (names_of v.items)) }
{
    sort_by_channel(&mut ends)?;
    close_in_order(alloc, ends)
}

/// The closed channel with this name, among channels in the order of their names.
pub(crate) fn closed_at<'a>(closed: &'a [Closed], name: &ChannelName) -> Option<&'a Closed>
    requires { IsStrictlySortedBy name_cmp (names_of closed.now) }
    ensures { MatchOption result
        (All (λ c. ¬ (c.history.name ≡ name.now)) closed.now)
        (λ c. (c.now.history.name ≡ name.now) × Contains closed.now c.now) }
{
    match closed.binary_search_by(|c| by_name(&c.history.name, name)) {
        Ok(index) => Some(&closed[index]),
        Err(_) => None,
    }
}

// How two names compare: by the paths of their makers, and then by their counts.
fn by_name(one: &ChannelName, other: &ChannelName) -> Ordering
    ensures { result ≡ name_cmp one.now other.now }
{
    let makers = one.maker.as_slice().cmp(other.maker.as_slice());
    makers.then(one.count.cmp(&other.count))
}

// Puts ends in the order of the names of their channels.
fn sort_by_channel(ends: &mut Vec<End>) -> Result<(), AllocError>
    ensures same { IsPermutation ends.old.items ends.new.items }
    ensures sorted { OnOk result (IsSorted channel_cmp ends.new.items) }
{
    ends.sort_by(|one, other| by_name(&one.name().channel, &other.name().channel))
}

// Closes all channels of a run, given all ends of its tasks in the order of their channels.
fn close_in_order(alloc: Global, ends: Vec<End>) -> Result<Vec<Closed>, AllocError>
    requires run { AreOfRun ends.items }
    requires sorted { IsSorted channel_cmp ends.items }
    ensures closed { IfOk result (λ v. AreClosedTo ends.items v.items) }
    ensures order { IfOk result (λ v. IsStrictlySortedBy name_cmp (names_of v.items)) }
{
    let mut closed = Vec::new(alloc);
    let mut left = ends.into_iter();
    while let Some(first) = left.next() {
        let Some(second) = left.next() else {
            unreachable!()
        };
        closed.push(close_both(first, second))?;
    }
    Ok(closed)
}

// Closes a channel, given its two ends in either order.
fn close_both(first: End, second: End) -> Closed
    requires cell { second.cell ≡ first.cell }
    requires name { end_name second ≡ other (end_name first) }
    ensures { IsClosedTo first second result }
{
    match first.name().side {
        Side::Left => close(first, second),
        Side::Right => close(second, first),
    }
}
