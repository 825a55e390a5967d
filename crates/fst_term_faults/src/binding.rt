ghost use Rattle.std.specs.Prelude.{◌≡◌, ◌≤◌, OnOk, drop, length};
ghost use Rattle.fst_term_faults.specs.TermFaults.{within};

use fst_locals::Locals;
use fst_terms::Binder;
use std::alloc::{AllocError, Global};

/// Enters variables, of which later ones hide earlier ones.
pub fn enter_all(alloc: Global, binders: &[Binder], locals: &mut Locals) -> Result<(), AllocError>
    ensures { OnOk result (locals.new ≡ within binders.now locals.old) }
{
    for binder in binders {
        locals.enter(alloc, &binder.name)?;
    }
    Ok(())
}

/// Leaves so many variables, the innermost first.
#[tactic(auto, using(crate::proofs::TermLaws::one_left))]
pub fn leave_all(count: usize, locals: &mut Locals)
    requires { count ≤ length locals.old }
    ensures { locals.new ≡ drop count locals.old }
{
    for _done in 0..count {
        locals.leave();
    }
}
