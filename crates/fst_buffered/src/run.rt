ghost use Rattle.std.specs.Prelude.{◌≤◌, ◌<◌, ◌+◌, Some, IfOk, OnOk};
ghost use Rattle.fst_buffered.specs.Answers.{CanRun, IsOutcome};
ghost use Rattle.fst_buffered.specs.KeptOf.{kept_of};
ghost use Rattle.fst_buffered.specs.Running.{IsKept, IsNextTask};

use crate::config::Config;
use crate::outcome::BufferedOutcome;
use fst_machine::{Code, Request};
use fst_types::Path;
use std::alloc::{AllocError, Global};

/// What the least buffered run of the code comes to in so many steps, where no view of a channel lacks more entries than the
/// capacity: always the first task that can move does what it asks for.
pub fn run_buffered(
    alloc: Global,
    code: &Code,
    steps: u64,
    capacity: u32,
) -> Result<BufferedOutcome, AllocError>
    requires few { steps < 4294967295 }
    requires capacity { 0 < capacity }
    requires most { capacity ≤ 64 }
    requires right { ∥ CanRun code.now capacity ∥₁ }
    ensures { IfOk result (IsOutcome code.now capacity steps) }
{
    let mut config = Config::start(alloc, code, capacity)?;
    while config.events <= steps {
        match config.next()? {
            Some(path) => go(&mut config, code, &path, steps, capacity)?,
            None => {
                let (report, unread) = config.report()?;
                return Ok(BufferedOutcome::Done(report, unread));
            }
        }
    }
    Ok(BufferedOutcome::OutOfSteps)
}

// Has the first task that can move step as often as it asks to, until there are more events than these, or do the one thing that
// it asks for.
fn go(
    config: &mut Config,
    code: &Code,
    path: &Path,
    steps: u64,
    capacity: u32,
) -> Result<(), AllocError>
    requires next { IsNextTask (kept_of config.old) (Some path.now) }
    requires kept { IsKept code.now capacity config.old.events (kept_of config.old) }
    requires right { ∥ CanRun code.now capacity ∥₁ }
    requires capacity { 0 < capacity }
    requires few { steps < 4294967295 }
    requires more { config.old.events ≤ steps }
    ensures kept { OnOk result (IsKept code.now capacity config.new.events (kept_of config.new)) }
    ensures some { OnOk result (config.old.events < config.new.events) }
    ensures most { OnOk result (config.new.events ≤ steps + 1) }
{
    match &config.tasks.slot(path).request {
        Request::Step => config.step_on(code, path, steps, capacity),
        _ => config.step(code, path, capacity),
    }
}
