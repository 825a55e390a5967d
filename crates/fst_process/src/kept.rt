ghost use Rattle.std.specs.Prelude.{◌≡◌, ◌<◌, Some, IfOk, OnOk, suc, max, option_and_then};
ghost use Rattle.std.specs.Option.{option_copied};
ghost use Rattle.fst_paths.specs.ChannelLists.{IsChangedAt};
ghost use Rattle.fst_lts.specs.Histories.{opposite, last_stamp};
ghost use Rattle.fst_process.specs.Kept.{asker_at, with_asker, passed};
ghost use Rattle.fst_process.specs.KeptOf.{channel_of, channel_at};

use fst_types::{EndName, Entry, Event, Path, Side, Ty};
use std::alloc::{AllocError, Global};

/// What is kept of a channel: the type of its left end when it was made, what passed over it, and which tasks ask at
/// its ends.
#[derive(Drop)]
pub(crate) struct Channel {
    pub(crate) declared: Ty,
    pub(crate) entries: Vec<Entry>,
    pub(crate) left: Option<Path>,
    pub(crate) right: Option<Path>,
}

/// The other side.
pub(crate) fn opposite(side: Side) -> Side
    ensures { result ≡ opposite side }
{
    match side {
        Side::Left => Side::Right,
        Side::Right => Side::Left,
    }
}

/// The stamp of the last entry, or 0.
pub(crate) fn last_stamp(entries: &[Entry]) -> u64
    ensures { result ≡ last_stamp entries.now }
{
    match entries.last() {
        Some(entry) => entry.stamp,
        None => 0,
    }
}

/// The task that asks at an end of a channel.
pub(crate) fn asker(channel: &Channel, side: Side) -> Option<&Path>
    ensures { option_copied result ≡ asker_at side (channel_of channel.now) }
{
    match side {
        Side::Left => channel.left.as_ref(),
        Side::Right => channel.right.as_ref(),
    }
}

// Makes this task the one that asks at an end of a channel.
fn set_asker(channel: &mut Channel, side: Side, asker: Option<Path>)
    ensures { channel_of channel.new ≡ with_asker side asker (channel_of channel.old) }
{
    match side {
        Side::Left => channel.left = asker,
        Side::Right => channel.right = asker,
    }
}

// Adds an entry to a channel, after which nobody asks at its ends.
fn pass(channel: &mut Channel, entry: Entry) -> Result<(), AllocError>
    ensures { OnOk result (channel_of channel.new ≡ passed entry (channel_of channel.old)) }
{
    channel.entries.push(entry)?;
    channel.left = None;
    channel.right = None;
    Ok(())
}

/// Notes among the channels of one maker that a task asks at an end, and answers the one that asks at the other.
pub(crate) fn ask_among(
    alloc: Global,
    channels: &mut Vec<Channel>,
    end: &EndName,
    path: &Path,
) -> Result<Option<Path>, AllocError>
    ensures partner { IfOk result (λ o.
        o ≡ option_and_then (asker_at (opposite end.now.side))
        (channel_at channels.old.items end.now.channel.count)) }
    ensures asked { OnOk result (IsChangedAt channel_of end.now.channel.count
        (with_asker end.now.side (Some path.now))
        channels.old.items channels.new.items) }
{
    let count = end.channel.count as usize;
    if count == 0 || channels.len() < count {
        return Ok(None);
    }
    let own = path.copy(alloc)?;
    let channel = &mut channels[count - 1];
    let partner = match asker(channel, opposite(end.side)) {
        Some(partner) => Some(partner.copy(alloc)?),
        None => None,
    };
    set_asker(channel, end.side, Some(own));
    Ok(partner)
}

/// Adds what passes over one of the channels of a maker, and answers its stamp.
pub(crate) fn record_among(
    channels: &mut Vec<Channel>,
    number: u32,
    event: Event,
    sent: u64,
    got: u64,
) -> Result<u64, AllocError>
    requires sent { sent < 4294967295 }
    requires got { got < 4294967295 }
    requires stamps { (j : _) → channel_at channels.old.items number ≡ Some j →
        last_stamp j.history < 4294967296 }
    ensures stamp { IfOk result (λ stamp. (j : _) → channel_at channels.old.items number ≡ Some j →
        stamp ≡ suc (max (max sent got) (last_stamp j.history))) }
    ensures passed { IfOk result (λ stamp. IsChangedAt channel_of number
        (passed (record { event = event; stamp = stamp; sent = sent; got = got }))
        channels.old.items channels.new.items) }
{
    let count = number as usize;
    if count == 0 || channels.len() < count {
        return Ok(0);
    }
    let channel = &mut channels[count - 1];
    let stamp = sent.max(got).max(last_stamp(&channel.entries)) + 1;
    let entry = Entry {
        event,
        stamp,
        sent,
        got,
    };
    pass(channel, entry)?;
    Ok(stamp)
}
