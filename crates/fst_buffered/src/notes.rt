ghost use Rattle.std.specs.Prelude.{◌≡◌, ◌<◌, true, OnOk};
ghost use Rattle.fst_paths.specs.Paths.{Keys, has_path, put_at};
ghost use Rattle.fst_buffered.specs.Kept.{asking, noted};
ghost use Rattle.fst_buffered.specs.KeptOf.{channel_in, kept_besides};
ghost use Rattle.fst_buffered.specs.Moving.{can};

use crate::kept::{Channel, ask_among, can_put, can_take};
use fst_machine::Request;
use fst_paths::{Channels, insert_path};
use fst_types::{EndName, Path};
use std::alloc::{AllocError, Global};
use std::collections::BTreeSet;

/// Whether a task that asks for this can move, where the module has so many types.
pub(crate) fn can(
    channels: &Channels<Channel>,
    request: &Request,
    types: usize,
    capacity: u32,
) -> bool
    requires { 0 < capacity }
    ensures { result ≡ can types capacity (channel_in channels.now.by_maker.entries) request.now }
{
    match request {
        Request::Step => true,
        Request::New(number) => (*number as usize) < types,
        Request::Fork => true,
        Request::Put(end, _) => match channels.get(&end.channel) {
            Some(channel) => can_put(channel, end.side, capacity),
            None => false,
        },
        Request::Get(end) => match channels.get(&end.channel) {
            Some(channel) => can_take(channel, end.side),
            None => false,
        },
        Request::Ended => false,
    }
}

// Notes that a task can move.
fn wake(alloc: Global, ready: &mut BTreeSet<Vec<u32>>, path: &Path) -> Result<(), AllocError>
    ensures { OnOk result (has_path ready.new.keys ≡ put_at path.now true
        (has_path ready.old.keys)) }
{
    if ready.contains(path.as_slice()) {
        return Ok(());
    }
    insert_path(alloc, ready, path)
}

/// Notes whether a task can move.
pub(crate) fn mark(
    alloc: Global,
    ready: &mut BTreeSet<Vec<u32>>,
    path: &Path,
    able: bool,
) -> Result<(), AllocError>
    ensures { OnOk result (has_path ready.new.keys ≡ put_at path.now able
        (has_path ready.old.keys)) }
{
    if able {
        return wake(alloc, ready, path);
    }
    ready.remove(path.as_slice());
    Ok(())
}

// Notes that a task asks at an end.
fn ask(
    alloc: Global,
    channels: &mut Channels<Channel>,
    path: &Path,
    end: &EndName,
) -> Result<(), AllocError>
    ensures { OnOk result ((ks : Keys) → kept_besides channels.new.by_maker.entries ks ≡
        asking path.now end.now (kept_besides channels.old.by_maker.entries ks)) }
{
    match channels.by_maker.get_mut(end.channel.maker.as_slice()) {
        Some(channels) => ask_among(alloc, channels, end, path),
        None => Ok(()),
    }
}

/// Notes what a task asks for: whether it can move, and at which end it asks.
pub(crate) fn note(
    alloc: Global,
    channels: &mut Channels<Channel>,
    ready: &mut BTreeSet<Vec<u32>>,
    types: usize,
    capacity: u32,
    path: &Path,
    request: &Request,
) -> Result<(), AllocError>
    requires { 0 < capacity }
    ensures { OnOk result (kept_besides channels.new.by_maker.entries ready.new.keys ≡
        noted types capacity path.now request.now
        (kept_besides channels.old.by_maker.entries ready.old.keys)) }
{
    let able = can(channels, request, types, capacity);
    mark(alloc, ready, path, able)?;
    match request {
        Request::Step => Ok(()),
        Request::New(_) => Ok(()),
        Request::Fork => Ok(()),
        Request::Put(end, _) => ask(alloc, channels, path, end),
        Request::Get(end) => ask(alloc, channels, path, end),
        Request::Ended => Ok(()),
    }
}
