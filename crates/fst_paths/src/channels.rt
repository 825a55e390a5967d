ghost use Rattle.std.specs.Prelude.{◌≡◌, ◌++◌, ◌∷◌, [], suc, IfOk, OnOk};
ghost use Rattle.std.specs.Option.{option_copied};
ghost use Rattle.fst_paths.specs.Paths.{put_at};
ghost use Rattle.fst_paths.specs.ChannelLists.{made_in, many_in, numbered};

use fst_types::{ChannelName, Path};
use std::alloc::{AllocError, Global};
use std::collections::BTreeMap;

/// Channels by the paths of the tasks that made them, those of a task in the order in which it made them.
#[derive(Drop)]
pub struct Channels<C> {
    alloc: Global,
    pub by_maker: BTreeMap<Vec<u32>, Vec<C>>,
}

// The channel with a number, counted from 1.
fn at<C>(channels: &[C], number: u32) -> Option<&C>
    ensures { option_copied result ≡ numbered channels.now number }
{
    let count = number as usize;
    if count == 0 || channels.len() < count {
        return None;
    }
    Some(&channels[count - 1])
}

impl<C: Drop> Channels<C> {
    /// No channel.
    pub fn new(alloc: Global) -> Channels<C>
        ensures { result.by_maker.entries ≡ [] }
    {
        Channels {
            alloc,
            by_maker: BTreeMap::new(alloc),
        }
    }

    /// How many channels the task with a path has made.
    pub fn made(&self, maker: &[u32]) -> usize
        ensures { result ≡ many_in self.now.by_maker.entries maker.now }
    {
        match self.by_maker.get(maker) {
            Some(channels) => channels.len(),
            None => 0,
        }
    }

    /// The channel with a name.
    pub fn get(&self, name: &ChannelName) -> Option<&C>
        ensures { option_copied result ≡
            numbered (made_in self.now.by_maker.entries name.now.maker) name.now.count }
    {
        match self.by_maker.get(name.maker.as_slice()) {
            Some(channels) => at(channels, name.count),
            None => None,
        }
    }

    /// Puts a channel behind those that its maker has, and answers how many these are then. Where memory is wanting, the channel
    /// is dropped.
    pub fn push(&mut self, maker: &Path, channel: C) -> Result<usize, AllocError>
        ensures count { IfOk result (λ n.
            n ≡ suc (many_in self.old.by_maker.entries maker.now)) }
        ensures pushed { OnOk result (made_in self.new.by_maker.entries ≡ put_at maker.now
            (made_in self.old.by_maker.entries maker.now ++ channel ∷ [])
            (made_in self.old.by_maker.entries)) }
    {
        match self.by_maker.get_mut(maker.as_slice()) {
            Some(channels) => {
                channels.push(channel)?;
                Ok(channels.len())
            }
            None => {
                let key = Vec::from_slice(self.alloc, maker.as_slice())?;
                let mut channels = Vec::new(self.alloc);
                channels.push(channel)?;
                self.by_maker.insert(key, channels)?;
                Ok(1)
            }
        }
    }
}
