ghost use Rattle.std.specs.Prelude.{◌≡◌, IfOk, OnOk};
ghost use Rattle.fst_process.specs.KeptOf.{kept_of};
ghost use Rattle.fst_process.specs.Resuming.{HaveNext, AreSettled, restored, CanResume, IsResumed};

use crate::config::Config;
use crate::kept::Channel;
use fst_machine::Code;
use fst_types::ChannelHistory;
use fst_vm::Task;
use std::alloc::{AllocError, Global};

impl Config {
    /// These tasks with their clocks, and these channels with what passed over them. They are all tasks and all channels of a
    /// right configuration of the code's module, to which so many events have led: no two tasks have one path, the channels of each task come in the order of
    /// their numbers, which are 1, 2 and so on, and a task has made those that have its path as their maker. Each task runs on
    /// to what it asks for. Where memory is wanting, all that is handed in is dropped.
    pub fn resumed(
        alloc: Global,
        code: &Code,
        tasks: Vec<(Task, u64)>,
        channels: Vec<ChannelHistory>,
        events: u64,
    ) -> Result<Config, AllocError>
        requires { ∥ CanResume code.now tasks.items channels.items ∥₁ }
        ensures resumed { IfOk result (λ v. IsResumed code.now tasks.items channels.items
            (kept_of v)) }
        ensures events { IfOk result (λ v. v.events ≡ events) }
    {
        let mut config = Config::empty(alloc, events);
        config.restore(channels)?;
        config.settle_all(code, tasks)?;
        Ok(config)
    }

    // Puts channels in, each behind those of its maker.
    fn restore(&mut self, channels: Vec<ChannelHistory>) -> Result<(), AllocError>
        ensures restored { OnOk result (kept_of self.new ≡ restored channels.items
            (kept_of self.old)) }
        ensures events { self.new.events ≡ self.old.events }
    {
        for history in channels {
            let ChannelHistory {
                name,
                declared,
                entries,
            } = history;
            let channel = Channel {
                declared,
                entries,
                left: None,
                right: None,
            };
            self.push_channel(&name.maker, channel)?;
        }
        Ok(())
    }

    // Puts tasks in with their clocks and with what they ask for.
    fn settle_all(&mut self, code: &Code, tasks: Vec<(Task, u64)>) -> Result<(), AllocError>
        requires { ∥ HaveNext code.now tasks.items ∥₁ }
        ensures settled { OnOk result (AreSettled code.now tasks.items (kept_of self.old)
            (kept_of self.new)) }
        ensures events { self.new.events ≡ self.old.events }
    {
        for (task, clock) in tasks {
            self.settle(code, task, clock)?;
        }
        Ok(())
    }
}
