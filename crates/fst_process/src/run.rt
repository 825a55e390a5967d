ghost use Rattle.std.specs.Prelude.{◌<◌, IfOk};
ghost use Rattle.fst_process.specs.KeptOf.{kept_of};
ghost use Rattle.fst_process.specs.Runs.{CanRun, IsOutcome, CanRunFrom, IsOutcomeFrom};

use crate::config::Config;
use fst_machine::Code;
use fst_runs::CoreEvent;
use fst_vm::Outcome;
use std::alloc::{AllocError, Global};

/// What the least run of the code comes to in so many steps: always the event of the first task that can move happens.
pub fn run_one(alloc: Global, code: &Code, steps: u64) -> Result<Outcome, AllocError>
    requires few { steps < 4294967295 }
    requires right { ∥ CanRun code.now ∥₁ }
    ensures { IfOk result (IsOutcome code.now steps) }
{
    let config = Config::start(alloc, code)?;
    run_from(config, code, steps)
}

/// What the least run from a configuration comes to: always the event of the first task that can move happens. The events that
/// led to the configuration count among the steps: no clock, number or stamp in it is over their number, and no run from it
/// goes wrong. The run is out of steps exactly where they and those that it has are more than `steps`. Where memory is wanting,
/// the configuration is dropped.
pub fn run_from(mut config: Config, code: &Code, steps: u64) -> Result<Outcome, AllocError>
    requires few { steps < 4294967295 }
    requires right { ∥ CanRunFrom code.now config.events (kept_of config) ∥₁ }
    ensures { IfOk result (IsOutcomeFrom code.now config.events steps (kept_of config)) }
{
    while config.events <= steps {
        match config.next()? {
            Some(CoreEvent::Local(path)) => {
                config.step_on(code, &path, steps)?;
            }
            Some(event) => config.fire(code, &event)?,
            None => {
                let report = config.report()?;
                return Ok(Outcome::Done(report));
            }
        }
    }
    Ok(Outcome::OutOfSteps)
}
