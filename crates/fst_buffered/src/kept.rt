ghost use Rattle.std.specs.Prelude.{◌≡◌, ◌≤◌, ◌<◌, OnOk, Some, length};
ghost use Rattle.std.specs.Option.{option_copied};
ghost use Rattle.fst_lts.specs.Histories.{opposite};
ghost use Rattle.fst_paths.specs.ChannelLists.{IsChangedAt};
ghost use Rattle.fst_buffered.specs.Channels.{IsWhole, after_put, further, seen};
ghost use Rattle.fst_buffered.specs.KeptOf.{asker_at, channel_of, held_at, held_of, with_asker, with_changed};
ghost use Rattle.fst_buffered.specs.Moving.{can_put, can_take};

use crate::message::Message;
use fst_types::{EndName, Event, Path, Side, Ty};
use std::alloc::{AllocError, Global};

/// What is kept of a channel: the type of its left end when it was made, all that was put in, how much of that each side has put in
/// or taken, and which tasks asked last at its ends.
#[derive(Drop)]
pub(crate) struct Channel {
    pub(crate) declared: Ty,
    pub(crate) entries: Vec<Message>,
    pub(crate) left: usize,
    pub(crate) right: usize,
    pub(crate) left_asker: Option<Path>,
    pub(crate) right_asker: Option<Path>,
}

/// The other side.
pub(crate) fn opposite(side: Side) -> Side
    ensures { result ≡ opposite side }
{
    match side {
        Side::Left => Side::Right,
        Side::Right => Side::Left,
    }
}

/// How much of the history a side has put in or taken.
pub(crate) fn seen(channel: &Channel, side: Side) -> usize
    ensures { result ≡ seen side (channel_of channel.now) }
{
    match side {
        Side::Left => channel.left,
        Side::Right => channel.right,
    }
}

/// Whether a side can put something in: its view is whole, and the other side lacks fewer entries than the capacity.
pub(crate) fn can_put(channel: &Channel, side: Side, capacity: u32) -> bool
    requires { 0 < capacity }
    ensures { result ≡ can_put side capacity (Some (channel_of channel.now)) }
{
    let many = channel.entries.len();
    seen(channel, side) == many
        && many.saturating_sub(seen(channel, opposite(side))) < capacity as usize
}

/// Whether a side can take something: its view lacks an entry.
pub(crate) fn can_take(channel: &Channel, side: Side) -> bool
    ensures { result ≡ can_take side (Some (channel_of channel.now)) }
{
    seen(channel, side) < channel.entries.len()
}

// A side has one more entry in view.
fn advance(channel: &mut Channel, side: Side)
    requires { seen side (channel_of channel.old) ≤ length channel.old.entries.items }
    ensures { held_of channel.new ≡ with_changed (further side) (held_of channel.old) }
{
    match side {
        Side::Left => channel.left += 1,
        Side::Right => channel.right += 1,
    }
}

// A side whose view is whole puts something in.
fn put_in(channel: &mut Channel, side: Side, event: Event) -> Result<(), AllocError>
    requires { IsWhole side (channel_of channel.old) }
    ensures { OnOk result (held_of channel.new ≡
        with_changed (after_put side event) (held_of channel.old)) }
{
    channel.entries.push(Message { side, event })?;
    advance(channel, side);
    Ok(())
}

/// The task that asked last at an end of a channel.
pub(crate) fn asker(channel: &Channel, side: Side) -> Option<&Path>
    ensures { option_copied result ≡ asker_at side (held_of channel.now) }
{
    match side {
        Side::Left => channel.left_asker.as_ref(),
        Side::Right => channel.right_asker.as_ref(),
    }
}

// Makes this task the one that asked last at an end of a channel.
fn set_asker(channel: &mut Channel, side: Side, asker: Path)
    ensures { held_of channel.new ≡ with_asker side (Some asker) (held_of channel.old) }
{
    match side {
        Side::Left => channel.left_asker = Some(asker),
        Side::Right => channel.right_asker = Some(asker),
    }
}

/// A side puts something into the channel with this number.
pub(crate) fn put_among(
    channels: &mut Vec<Channel>,
    number: u32,
    side: Side,
    event: Event,
) -> Result<(), AllocError>
    requires { (j : _) → held_at channels.old.items number ≡ Some j → IsWhole side j.channel }
    ensures { OnOk result (IsChangedAt held_of number
        (with_changed (after_put side event)) channels.old.items channels.new.items) }
{
    let count = number as usize;
    if count == 0 || channels.len() < count {
        return Ok(());
    }
    put_in(&mut channels[count - 1], side, event)
}

/// A side has one more entry of the channel with this number in view.
pub(crate) fn advance_among(channels: &mut Vec<Channel>, number: u32, side: Side)
    requires { (j : _) → held_at channels.old.items number ≡ Some j →
        seen side j.channel ≤ length j.channel.history }
    ensures { IsChangedAt held_of number (with_changed (further side))
        channels.old.items channels.new.items }
{
    let count = number as usize;
    if count == 0 || channels.len() < count {
        return;
    }
    advance(&mut channels[count - 1], side);
}

/// Notes among the channels of one maker that a task asks at an end.
pub(crate) fn ask_among(
    alloc: Global,
    channels: &mut Vec<Channel>,
    end: &EndName,
    path: &Path,
) -> Result<(), AllocError>
    ensures { OnOk result (IsChangedAt held_of end.now.channel.count
        (with_asker end.now.side (Some path.now))
        channels.old.items channels.new.items) }
{
    let count = end.channel.count as usize;
    if count == 0 || channels.len() < count {
        return Ok(());
    }
    let own = path.copy(alloc)?;
    set_asker(&mut channels[count - 1], end.side, own);
    Ok(())
}
