//! Which task got what was sent.

ghost use Rattle.std.specs.Prelude.{◌≡◌, ◌∷◌, [], IfOk, IsPermutation, OnOk};
ghost use Rattle.std.specs.List.Sorted.{IsSorted};
ghost use Rattle.std.specs.Option.{option_copied};
ghost use Rattle.fst_merge.specs.Receipts.{part_of, parts_in, parts_of_task};
ghost use Rattle.fst_merge.specs.Getters.{AreReceipts, GainReceipts, IsGetter, receipt_cmp, spot_cmp};

use fst_process::{Done, Mark, TaskMarks};
use fst_types::{ChannelName, Path};
use std::alloc::{AllocError, Global};
use std::cmp::Ordering;

/// That a task got what was sent over a channel, with the stamp of that event.
#[derive(Drop)]
pub(crate) struct Receipt<'a> {
    channel: &'a ChannelName,
    stamp: u64,
    path: &'a Path,
}

/// What these tasks got, in the order of stamps, and of channels where stamps are the same.
pub(crate) fn receipts<'a>(
    alloc: Global,
    tasks: &'a [TaskMarks],
) -> Result<Vec<Receipt<'a>>, AllocError>
    ensures are { IfOk result (λ v. AreReceipts (parts_in tasks.now) v.items) }
    ensures sorted { IfOk result (λ v. IsSorted receipt_cmp v.items) }
{
    let mut found = Vec::new(alloc);
    for task in tasks {
        add_task(&mut found, task)?;
    }
    sort(&mut found)?;
    Ok(found)
}

/// The path of the task that got what was sent over this channel at this stamp, or none.
pub(crate) fn getter<'a>(
    receipts: &[Receipt<'a>],
    channel: &ChannelName,
    stamp: u64,
) -> Option<&'a Path>
    requires { IsSorted receipt_cmp receipts.now }
    ensures { IsGetter receipts.now channel.now stamp (option_copied result) }
{
    match receipts.binary_search_by(|r| by_spot(r.stamp, r.channel, stamp, channel)) {
        Ok(index) => Some(receipts[index].path),
        Err(_) => None,
    }
}

// Adds what a task got.
fn add_task<'a>(found: &mut Vec<Receipt<'a>>, task: &'a TaskMarks) -> Result<(), AllocError>
    ensures { OnOk result (GainReceipts (parts_of_task task.now) found.old.items found.new.items) }
{
    for mark in &task.marks {
        add_mark(found, &task.path, mark)?;
    }
    Ok(())
}

// Adds what the task with this path got where it has this mark.
fn add_mark<'a>(
    found: &mut Vec<Receipt<'a>>,
    path: &'a Path,
    mark: &'a Mark,
) -> Result<(), AllocError>
    ensures { OnOk result (GainReceipts (part_of path.now mark.now ∷ []) found.old.items
        found.new.items) }
{
    if let Done::Got(end, _) = &mark.done {
        found.push(Receipt {
            channel: &end.channel,
            stamp: mark.stamp,
            path,
        })?;
    }
    Ok(())
}

// Puts receipts in the order of stamps and channels.
fn sort(receipts: &mut Vec<Receipt<'_>>) -> Result<(), AllocError>
    ensures same { IsPermutation receipts.old.items receipts.new.items }
    ensures sorted { OnOk result (IsSorted receipt_cmp receipts.new.items) }
{
    receipts.sort_by(|one, other| by_spot(one.stamp, one.channel, other.stamp, other.channel))
}

// How two stamps with their channels compare: by the stamps, then by the paths of the channels' makers, and then by their counts.
fn by_spot(stamp: u64, channel: &ChannelName, other_stamp: u64, other: &ChannelName) -> Ordering
    ensures { result ≡ spot_cmp (stamp, channel.now) (other_stamp, other.now) }
{
    match stamp.cmp(&other_stamp) {
        Ordering::Equal => {
            let makers = channel.maker.as_slice().cmp(other.maker.as_slice());
            makers.then(channel.count.cmp(&other.count))
        }
        by_stamp => by_stamp,
    }
}
