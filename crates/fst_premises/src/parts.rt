// The parts of terms that look at types alone: each gives the type or the fault that the table of the rules names.

ghost use Rattle.std.specs.Prelude.{◌≡◌, ◌≤◌, IfOk, IfErr};
ghost use Rattle.fst_types.specs.Tree.{arrow};
ghost use Rattle.fst_types.specs.Tree as tree;
ghost use Rattle.fst_types.specs.declared.kind.Use.{Use};
ghost use Rattle.fst_types.specs.declared.kind.Use.TheVariants.{Many};
ghost use Rattle.fst_derivations.specs.Parts.{IsFormed, HasUse};
ghost use Rattle.fst_premises.specs.Shown.{ShowsDropped, ShowsNoFunction, ShowsNoPair, IsShown};

use crate::fault::CheckFault;
use fst_kinds::kind_of;
use fst_types::{Kind, Ty, TyForm, Use, copy};
use std::alloc::{AllocError, Global};

/// How often a value of a well-formed type may be used.
pub(crate) fn use_of(alloc: Global, vars: &[Kind], t: &Ty) -> Result<Use, AllocError>
    requires { IsFormed vars.now t.now }
    ensures { IfOk result (λ n. HasUse vars.now t.now n) }
{
    match kind_of(alloc, t, vars) {
        Ok(kind) => Ok(kind.uses),
        Err(_fault) => Err(AllocError),
    }
}

/// The types of a function's argument and of its result.
pub fn function_parts(alloc: Global, at: u32, t: &Ty) -> Result<(Ty, Ty), CheckFault>
    ensures ok { IfOk result (λ p. (n : Use) × (t.now ≡ arrow n p.0 p.1)) }
    ensures err { IfErr result (λ f. IsShown f (ShowsNoFunction at t.now f)) }
{
    match &t.form {
        TyForm::Arrow(_, from, to) => Ok((copy(alloc, from)?, copy(alloc, to)?)),
        _ => Err(CheckFault::NotFunction(at, copy(alloc, t)?)),
    }
}

/// The types of both parts of a pair.
pub fn pair_parts(alloc: Global, at: u32, t: &Ty) -> Result<(Ty, Ty), CheckFault>
    ensures ok { IfOk result (λ p. t.now ≡ tree.pair p.0 p.1) }
    ensures err { IfErr result (λ f. IsShown f (ShowsNoPair at t.now f)) }
{
    match &t.form {
        TyForm::Pair(first, second) => Ok((copy(alloc, first)?, copy(alloc, second)?)),
        _ => Err(CheckFault::NotPair(at, copy(alloc, t)?)),
    }
}

/// That a value of a well-formed type may be dropped.
pub fn may_be_dropped(alloc: Global, vars: &[Kind], at: u32, t: &Ty) -> Result<(), CheckFault>
    requires { IsFormed vars.now t.now }
    ensures ok { IfOk result (λ z. HasUse vars.now t.now Many) }
    ensures err { IfErr result (λ f. IsShown f (ShowsDropped vars.now at t.now f)) }
{
    match use_of(alloc, vars, t)? {
        Use::Many => Ok(()),
        Use::Once => Err(CheckFault::Dropped(at, copy(alloc, t)?)),
    }
}
