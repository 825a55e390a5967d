ghost use Rattle.std.specs.Prelude.{◌≡◌, ◌<◌, ◌++◌, IfOk, OnOk, length, map};
ghost use Rattle.fst_paths.specs.ChannelLists.{many_in};
ghost use Rattle.fst_paths.specs.Paths.{AreInOrder};
ghost use Rattle.fst_process.specs.Listed.{channels_in, channels_of, shown};
ghost use Rattle.fst_buffered.specs.Channels.{entries, entry, unread, unread_of};
ghost use Rattle.fst_buffered.specs.KeptOf.{channel_of, plain_of};

use crate::kept::Channel;
use crate::message::Message;
use fst_types::{ChannelHistory, ChannelName, Entry, Path};
use std::alloc::{AllocError, Global};
use std::collections::BTreeMap;

// What was put in, as an entry of a report.
fn entry(message: Message) -> Entry
    ensures { result ≡ entry message }
{
    let Message { event, .. } = message;
    Entry {
        event,
        stamp: 0,
        sent: 0,
        got: 0,
    }
}

// All that was put in, as entries of a report.
fn entries(alloc: Global, messages: Vec<Message>) -> Result<Vec<Entry>, AllocError>
    ensures { IfOk result (λ es. es.items ≡ entries messages.items) }
{
    let mut all = Vec::with_capacity(alloc, messages.len())?;
    for message in messages {
        all.push(entry(message))?;
    }
    Ok(all)
}

// How many entries of a channel one side has not taken.
fn unread(channel: &Channel) -> usize
    ensures { result ≡ unread (channel_of channel.now) }
{
    let taken = channel.left.min(channel.right);
    channel.entries.len().saturating_sub(taken)
}

// Puts the channels of a maker behind others, and how many entries of each one side has not taken behind their numbers.
fn add_histories(
    alloc: Global,
    all: &mut Vec<ChannelHistory>,
    numbers: &mut Vec<u64>,
    maker: &[u32],
    made: Vec<Channel>,
) -> Result<(), AllocError>
    requires { length made.items < 4294967296 }
    ensures histories { OnOk result (map shown all.new.items ≡
        map shown all.old.items ++ channels_of plain_of maker.now 0 made.items) }
    ensures numbers { OnOk result (numbers.new.items ≡
        numbers.old.items ++ map unread_of (channels_of channel_of maker.now 0 made.items)) }
{
    let mut count: u32 = 0;
    for channel in made {
        count += 1;
        numbers.push(unread(&channel) as u64)?;
        let Channel {
            declared,
            entries: messages,
            ..
        } = channel;
        let name = ChannelName {
            maker: Path::of(alloc, maker)?,
            count,
        };
        let entries = entries(alloc, messages)?;
        all.push(ChannelHistory {
            name,
            declared,
            entries,
        })?;
    }
    Ok(())
}

/// The channels of a run by their makers and their numbers, and of each how many entries one side has not taken.
pub(crate) fn histories(
    alloc: Global,
    channels: BTreeMap<Vec<u32>, Vec<Channel>>,
) -> Result<(Vec<ChannelHistory>, Vec<u64>), AllocError>
    requires { (p : _) → many_in channels.entries p < 4294967296 }
    ensures histories { IfOk result (λ r.
        map shown r.0.items ≡ channels_in plain_of channels.entries) }
    ensures numbers { IfOk result (λ r.
        r.1.items ≡ map unread_of (channels_in channel_of channels.entries)) }
    ensures ordered { OnOk result (AreInOrder channels.entries) }
{
    let mut all = Vec::new(alloc);
    let mut numbers = Vec::new(alloc);
    for (maker, made) in channels {
        add_histories(alloc, &mut all, &mut numbers, maker.as_slice(), made)?;
    }
    Ok((all, numbers))
}
