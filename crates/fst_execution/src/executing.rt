ghost use Rattle.std.specs.Prelude.{◌<◌, IfOk};
ghost use Rattle.fst_execution.specs.Execution.{IsDerived, IsExecuted, IsPrepared};

use fst_code::generate;
use fst_machine::Code;
use fst_process::{Outcome, run_one};
use fst_safety::safety_law;
use fst_terms::Module;
use std::alloc::{AllocError, Global};

/// The code of a module that has derivations, whose tasks can begin.
pub fn prepare(alloc: Global, m: &Module) -> Result<Code, AllocError>
    requires { IsDerived m.now }
    ensures { IfOk result (IsPrepared m.now) }
{
    generate(alloc, m)
}

/// What so many steps of the least run of a module that has derivations come to.
pub fn execute(alloc: Global, m: &Module, steps: u64) -> Result<Outcome, AllocError>
    requires derived { IsDerived m.now }
    requires few { steps < 4294967295 }
    ensures { IfOk result (IsExecuted m.now steps) }
{
    safety_law();
    let code = prepare(alloc, m)?;
    run_one(alloc, &code, steps)
}
