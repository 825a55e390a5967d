ghost use Rattle.std.specs.Prelude.{◌≡◌, true, Some, IfOk, OnOk};
ghost use Rattle.fst_paths.specs.Paths.{Keys};
ghost use Rattle.fst_process.specs.Kept.{unable, with_asker, partner, changed, asking, noted};
ghost use Rattle.fst_process.specs.KeptOf.{kept_besides};

use crate::kept::{Channel, ask_among};
use fst_machine::Request;
use fst_paths::{Channels, insert_path};
use fst_types::{EndName, Path};
use fst_vm::moves_alone;
use std::alloc::{AllocError, Global};
use std::collections::BTreeSet;

// Notes that a task asks at an end, and answers the one that asks at the other.
fn ask(
    alloc: Global,
    channels: &mut Channels<Channel>,
    end: &EndName,
    path: &Path,
) -> Result<Option<Path>, AllocError>
    ensures partner { IfOk result (λ o. (ks : Keys) →
        o ≡ partner (kept_besides channels.old.by_maker.entries ks) end.now) }
    ensures asked { OnOk result ((ks : Keys) → kept_besides channels.new.by_maker.entries ks ≡
        changed end.now.channel (with_asker end.now.side (Some path.now))
        (kept_besides channels.old.by_maker.entries ks)) }
{
    match channels.by_maker.get_mut(end.channel.maker.as_slice()) {
        Some(channels) => {
            let partner = ask_among(alloc, channels, end, path)?;
            Ok(partner)
        }
        None => Ok(None),
    }
}

// Notes at which end a task asks, and that it can move with the one that asks at the other.
fn note_end(
    alloc: Global,
    channels: &mut Channels<Channel>,
    ready: &mut BTreeSet<Vec<u32>>,
    path: &Path,
    end: &EndName,
) -> Result<(), AllocError>
    ensures { OnOk result (kept_besides channels.new.by_maker.entries ready.new.keys ≡
        asking path.now end.now (kept_besides channels.old.by_maker.entries ready.old.keys)) }
{
    match ask(alloc, channels, end, path)? {
        Some(partner) => {
            insert_path(alloc, ready, &partner)?;
            insert_path(alloc, ready, path)
        }
        None => Ok(()),
    }
}

/// Notes what a task asks for: that it can move, or at which end it asks.
pub(crate) fn note(
    alloc: Global,
    channels: &mut Channels<Channel>,
    ready: &mut BTreeSet<Vec<u32>>,
    types: usize,
    path: &Path,
    request: &Request,
) -> Result<(), AllocError>
    ensures { OnOk result (kept_besides channels.new.by_maker.entries ready.new.keys ≡
        noted types path.now request.now (kept_besides channels.old.by_maker.entries
        ready.old.keys)) }
{
    match request {
        Request::Step => insert_path(alloc, ready, path),
        Request::New(number) => {
            if (*number as usize) < types {
                insert_path(alloc, ready, path)?;
            }
            Ok(())
        }
        Request::Fork => insert_path(alloc, ready, path),
        Request::Put(end, _) => note_end(alloc, channels, ready, path, end),
        Request::Get(end) => note_end(alloc, channels, ready, path, end),
        Request::Ended => Ok(()),
    }
}

/// Notes what a task that could move asks for now. Where it can still move alone, all stays as it is.
pub(crate) fn note_again(
    alloc: Global,
    channels: &mut Channels<Channel>,
    ready: &mut BTreeSet<Vec<u32>>,
    types: usize,
    path: &Path,
    request: &Request,
) -> Result<(), AllocError>
    requires { (kept_besides channels.old.by_maker.entries ready.old.keys).ready path.now ≡ true }
    ensures { OnOk result (kept_besides channels.new.by_maker.entries ready.new.keys ≡
        noted types path.now request.now (unable path.now
        (kept_besides channels.old.by_maker.entries ready.old.keys))) }
{
    if moves_alone(types, request) {
        return Ok(());
    }
    ready.remove(path.as_slice());
    note(alloc, channels, ready, types, path, request)
}
