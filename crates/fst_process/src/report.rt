ghost use Rattle.std.specs.Prelude.{◌≡◌, ◌<◌, ◌++◌, IfOk, OnOk, length};
ghost use Rattle.fst_paths.specs.Paths.{AreInOrder};
ghost use Rattle.fst_paths.specs.ChannelLists.{many_in};
ghost use Rattle.fst_process.specs.Listed.{histories_of, histories_in};

use crate::kept::Channel;
use fst_types::{ChannelHistory, ChannelName, Path};
use std::alloc::{AllocError, Global};
use std::collections::BTreeMap;

// Puts the channels of a maker behind others.
fn add_histories(
    alloc: Global,
    all: &mut Vec<ChannelHistory>,
    maker: &[u32],
    made: Vec<Channel>,
) -> Result<(), AllocError>
    requires { length made.items < 4294967296 }
    ensures { OnOk result (all.new.items ≡ all.old.items ++ histories_of maker.now 0 made.items) }
{
    let mut count: u32 = 0;
    for channel in made {
        count += 1;
        let Channel {
            declared,
            entries,
            ..
        } = channel;
        let name = ChannelName {
            maker: Path::of(alloc, maker)?,
            count,
        };
        all.push(ChannelHistory {
            name,
            declared,
            entries,
        })?;
    }
    Ok(())
}

/// The channels of a run, by their makers and their numbers.
pub(crate) fn histories(
    alloc: Global,
    channels: BTreeMap<Vec<u32>, Vec<Channel>>,
) -> Result<Vec<ChannelHistory>, AllocError>
    requires { (p : _) → many_in channels.entries p < 4294967296 }
    ensures items { IfOk result (λ hs. hs.items ≡ histories_in channels.entries) }
    ensures ordered { OnOk result (AreInOrder channels.entries) }
{
    let mut all = Vec::new(alloc);
    for (maker, made) in channels {
        add_histories(alloc, &mut all, maker.as_slice(), made)?;
    }
    Ok(all)
}
