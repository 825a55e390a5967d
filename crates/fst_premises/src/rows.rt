// Rows of derivations over those of parts, where the types of the parts are as the rule asks.

ghost use Rattle.std.specs.Prelude.{◌≡◌, ◌<◌, IfOk, IfErr, OnOk, Some, length, slice_get};
ghost use Rattle.fst_types.specs.Tree as tree;
ghost use Rattle.fst_types.specs.Tree.{Tree};
ghost use Rattle.fst_types.specs.declared.base.Base.{Base};
ghost use Rattle.fst_types.specs.declared.base.Base.TheVariants.{Unit as Nothing};
ghost use Rattle.fst_types.specs.declared.kind.Use.TheVariants.{Many};
ghost use Rattle.fst_types.specs.declared.label.Label.TheVariants as label;
ghost use Rattle.fst_lts.specs.Step.{step};
ghost use Rattle.fst_derivations.specs.Deriv.{deriv_of, type_of, row, one, two, three};
ghost use Rattle.fst_derivations.specs.Parts.{HasUse, IsFormed};
ghost use Rattle.fst_premises.specs.Checks.{IsInSize};
ghost use Rattle.fst_premises.specs.Scopes.{inside};
ghost use Rattle.fst_premises.specs.Shown.{IsShown, IsTooLargeAt, ShowsClose, ShowsDropped, ShowsReceive, ShowsSelect, ShowsSend, ShowsWait};

use crate::binding::begin_body;
use crate::builders::{arrow_of, base, pair_of};
use crate::fault::CheckFault;
use crate::moving::{awaited, closed, received, selected, sent};
use crate::parts::may_be_dropped;
use crate::scene::{Scene, fits, type_at};
use fst_context::Context;
use fst_derivations::Derivation;
use fst_terms::Binder;
use fst_types::{Base, Kind, Name, Ty, Use, copy};
use std::alloc::{AllocError, Global};

/// A row of the second part's type.
pub fn sequence(alloc: Global, d: Derivation, h: Derivation) -> Result<Derivation, AllocError>
    ensures { IfOk result (λ c. deriv_of c ≡ row (type_of (deriv_of h))
        (two (deriv_of d) (deriv_of h))) }
{
    let t = copy(alloc, h.type_of())?;
    Derivation::with_two(alloc, t, d, h)
}

/// A row of the second part's type, with three parts.
pub fn branches(
    alloc: Global,
    c: Derivation,
    h: Derivation,
    o: Derivation,
) -> Result<Derivation, AllocError>
    ensures { IfOk result (λ b. deriv_of b ≡ row (type_of (deriv_of h))
        (three (deriv_of c) (deriv_of h) (deriv_of o))) }
{
    let t = copy(alloc, h.type_of())?;
    Derivation::with_three(alloc, t, c, h, o)
}

/// The row of a pair of two parts, unless its type is over its size.
pub fn pair_row(
    alloc: Global,
    at: u32,
    d: Derivation,
    h: Derivation,
) -> Result<Derivation, CheckFault>
    ensures made { IfOk result (λ w. deriv_of w ≡ row
        (tree.pair (type_of (deriv_of d)) (type_of (deriv_of h))) (two (deriv_of d) (deriv_of h))) }
    ensures small { IfOk result (λ w. IsInSize (type_of (deriv_of w))) }
    ensures refused { IfErr result (λ f. IsShown f
        (IsTooLargeAt at (tree.pair (type_of (deriv_of d)) (type_of (deriv_of h))) f)) }
{
    let t = pair_of(alloc, at, d.type_of(), h.type_of())?;
    Ok(Derivation::with_two(alloc, t, d, h)?)
}

/// The row of a function from this type, unless its own type is over its size.
pub fn function_row(
    alloc: Global,
    at: u32,
    uses: Use,
    from: &Ty,
    d: Derivation,
) -> Result<Derivation, CheckFault>
    ensures made { IfOk result (λ w. deriv_of w ≡ row
        (tree.arrow uses from.now (type_of (deriv_of d))) (one (deriv_of d))) }
    ensures small { IfOk result (λ w. IsInSize (type_of (deriv_of w))) }
    ensures refused { IfErr result (λ f. IsShown f
        (IsTooLargeAt at (tree.arrow uses from.now (type_of (deriv_of d))) f)) }
{
    let t = arrow_of(alloc, at, uses, from, d.type_of())?;
    Ok(Derivation::with_one(alloc, t, d)?)
}

/// The type of a function's variable, whose body is begun, unless it is over its size.
pub fn begin_function(
    alloc: Global,
    scene: Scene<'_>,
    context: &mut Context,
    uses: Use,
    k: u32,
    binder: &Binder,
) -> Result<Ty, CheckFault>
    requires { k < length scene.module.now.types.items }
    ensures from { IfOk result (λ t. slice_get scene.entry.module.now.types.items k ≡ Some t) }
    ensures small { IfOk result (λ t. IsInSize t) }
    ensures begun { OnOk result (context.new ≡ inside uses context.old) }
    ensures refused { IfErr result (λ f. IsShown f
        ((t : Tree) × (slice_get scene.entry.module.now.types.items k ≡ Some t) ×
        IsTooLargeAt binder.now.at t f)) }
{
    let from = type_at(scene, k);
    fits(binder.at, from)?;
    begin_body(context, uses)?;
    Ok(copy(alloc, from)?)
}

/// The row of a value that is sent on an end.
pub fn sent_row(
    alloc: Global,
    at: u32,
    d: Derivation,
    h: Derivation,
) -> Result<Derivation, CheckFault>
    ensures made { IfOk result (λ w. (b : Base) × (next : Tree) ×
        (type_of (deriv_of d) ≡ tree.plain b) ×
        (step (type_of (deriv_of h)) (label.Send b) ≡ Some next) ×
        (deriv_of w ≡ row next (two (deriv_of d) (deriv_of h)))) }
    ensures small { IfOk result (λ w. IsInSize (type_of (deriv_of w))) }
    ensures refused { IfErr result (λ f. IsShown f
        (ShowsSend at (type_of (deriv_of d)) (type_of (deriv_of h)) f)) }
{
    let t = sent(alloc, at, d.type_of(), h.type_of())?;
    Ok(Derivation::with_two(alloc, t, d, h)?)
}

/// The row of a value that is received on an end.
pub fn received_row(alloc: Global, at: u32, d: Derivation) -> Result<Derivation, CheckFault>
    ensures made { IfOk result (λ w. (b : Base) × (next : Tree) ×
        (step (type_of (deriv_of d)) (label.Receive b) ≡ Some next) ×
        (deriv_of w ≡ row (tree.pair (tree.plain b) next) (one (deriv_of d)))) }
    ensures small { IfOk result (λ w. IsInSize (type_of (deriv_of w))) }
    ensures refused { IfErr result (λ f. IsShown f (ShowsReceive at (type_of (deriv_of d)) f)) }
{
    let t = received(alloc, at, d.type_of())?;
    Ok(Derivation::with_one(alloc, t, d)?)
}

/// The row of an end that is closed.
pub fn closed_row(alloc: Global, at: u32, d: Derivation) -> Result<Derivation, CheckFault>
    ensures made { IfOk result (λ w. (next : Tree) ×
        (step (type_of (deriv_of d)) label.Close ≡ Some next) ×
        (deriv_of w ≡ row (tree.plain Nothing) (one (deriv_of d)))) }
    ensures refused { IfErr result (λ f. IsShown f (ShowsClose at (type_of (deriv_of d)) f)) }
{
    closed(alloc, at, d.type_of())?;
    Ok(Derivation::with_one(alloc, base(Base::Unit), d)?)
}

/// The row of an end at which the other side's closing is waited for.
pub fn awaited_row(alloc: Global, at: u32, d: Derivation) -> Result<Derivation, CheckFault>
    ensures made { IfOk result (λ w. (next : Tree) ×
        (step (type_of (deriv_of d)) label.Wait ≡ Some next) ×
        (deriv_of w ≡ row (tree.plain Nothing) (one (deriv_of d)))) }
    ensures refused { IfErr result (λ f. IsShown f (ShowsWait at (type_of (deriv_of d)) f)) }
{
    awaited(alloc, at, d.type_of())?;
    Ok(Derivation::with_one(alloc, base(Base::Unit), d)?)
}

/// The row of a branch that is selected on an end.
pub fn selected_row(
    alloc: Global,
    at: u32,
    name: &Name,
    d: Derivation,
) -> Result<Derivation, CheckFault>
    ensures made { IfOk result (λ w. (next : Tree) ×
        (step (type_of (deriv_of d)) (label.Select name.now) ≡ Some next) ×
        (deriv_of w ≡ row next (one (deriv_of d)))) }
    ensures small { IfOk result (λ w. IsInSize (type_of (deriv_of w))) }
    ensures refused { IfErr result (λ f. IsShown f
        (ShowsSelect at name.now (type_of (deriv_of d)) f)) }
{
    let t = selected(alloc, at, name, d.type_of())?;
    Ok(Derivation::with_one(alloc, t, d)?)
}

/// The row of a task of its own, whose value is dropped.
pub fn forked_row(
    alloc: Global,
    vars: &[Kind],
    at: u32,
    d: Derivation,
) -> Result<Derivation, CheckFault>
    requires { IsFormed vars.now (type_of (deriv_of d)) }
    ensures made { IfOk result (λ w. HasUse vars.now (type_of (deriv_of d)) Many ×
        (deriv_of w ≡ row (tree.plain Nothing) (one (deriv_of d)))) }
    ensures refused { IfErr result (λ f. IsShown f
        (ShowsDropped vars.now at (type_of (deriv_of d)) f)) }
{
    may_be_dropped(alloc, vars, at, d.type_of())?;
    Ok(Derivation::with_one(alloc, base(Base::Unit), d)?)
}
