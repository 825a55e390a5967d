ghost use Rattle.std.specs.Prelude.{◌≡◌, IfOk};

use crate::path::Path;
use crate::side::Side;
use std::alloc::{AllocError, Global};

/// The name of a channel: the path of the task that made it, and which of this task's channels it is, counted from 1.
#[derive(Drop)]
pub struct ChannelName {
    pub maker: Path,
    pub count: u32,
}

/// One of the two ends of a channel.
#[derive(Drop)]
pub struct EndName {
    pub channel: ChannelName,
    pub side: Side,
}

impl ChannelName {
    /// The same name in memory of its own.
    pub fn copy(&self, alloc: Global) -> Result<ChannelName, AllocError>
        ensures { IfOk result (λ c. c ≡ self.now) }
    {
        Ok(ChannelName {
            maker: self.maker.copy(alloc)?,
            count: self.count,
        })
    }
}

impl EndName {
    /// The same end in memory of its own.
    pub fn copy(&self, alloc: Global) -> Result<EndName, AllocError>
        ensures { IfOk result (λ x. x ≡ self.now) }
    {
        Ok(EndName {
            channel: self.channel.copy(alloc)?,
            side: self.side,
        })
    }
}
