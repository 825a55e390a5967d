// Types that are made of the types of parts.

ghost use Rattle.std.specs.Prelude.{◌≡◌, IfOk, IfErr};
ghost use Rattle.fst_types.specs.Tree as tree;
ghost use Rattle.fst_premises.specs.Checks.{IsInSize};
ghost use Rattle.fst_premises.specs.Shown.{IsTooLargeAt, IsShown};

use crate::fault::CheckFault;
use fst_base::MOST_NODES;
use fst_types::{Base, Ty, TyForm, Use, copy, size};
use std::alloc::Global;

/// A pair of two types, unless it is over its size.
pub(crate) fn pair_of(alloc: Global, at: u32, s: &Ty, r: &Ty) -> Result<Ty, CheckFault>
    ensures ok { IfOk result (λ t. t ≡ tree.pair s.now r.now) }
    ensures small { IfOk result (λ t. IsInSize t) }
    ensures err { IfErr result (λ f. IsShown f (IsTooLargeAt at (tree.pair s.now r.now) f)) }
{
    if size(s).saturating_add(size(r)).saturating_add(1) > MOST_NODES {
        return Err(CheckFault::TooLarge(at));
    }
    let first = Box::new(alloc, copy(alloc, s)?)?;
    let second = Box::new(alloc, copy(alloc, r)?)?;
    Ok(Ty {
        form: TyForm::Pair(first, second),
    })
}

/// A function's type, unless it is over its size.
pub(crate) fn arrow_of(alloc: Global, at: u32, uses: Use, s: &Ty, r: &Ty) -> Result<Ty, CheckFault>
    ensures ok { IfOk result (λ t. t ≡ tree.arrow uses s.now r.now) }
    ensures small { IfOk result (λ t. IsInSize t) }
    ensures err { IfErr result (λ f. IsShown f (IsTooLargeAt at (tree.arrow uses s.now r.now) f)) }
{
    if size(s).saturating_add(size(r)).saturating_add(1) > MOST_NODES {
        return Err(CheckFault::TooLarge(at));
    }
    let first = Box::new(alloc, copy(alloc, s)?)?;
    let second = Box::new(alloc, copy(alloc, r)?)?;
    Ok(Ty {
        form: TyForm::Arrow(uses, first, second),
    })
}

/// A base type.
pub fn base(base: Base) -> Ty
    ensures { result ≡ tree.plain base }
{
    Ty {
        form: TyForm::Plain(base),
    }
}

/// A data type.
pub fn named(family: u32) -> Ty
    ensures { result ≡ tree.named family }
{
    Ty {
        form: TyForm::Named(family),
    }
}
