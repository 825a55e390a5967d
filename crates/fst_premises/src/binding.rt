// Entering and leaving the variables and the bodies of a context.

ghost use Rattle.std.specs.Prelude.{◌≡◌, ◌∷◌, [], ◌<◌, ◌≤◌, IfErr, List, OnOk, length};
ghost use Rattle.fst_types.specs.declared.kind.Use.{Use};
ghost use Rattle.fst_types.specs.declared.kind.Use.TheVariants.{Many};
ghost use mathlib.Core.List.{reverse};
ghost use Rattle.fst_context.specs.Scope.{entered, with_marks};
ghost use Rattle.fst_types.specs.Tree.{Tree};
ghost use Rattle.fst_context.specs.Scope.{Variable};
ghost use Rattle.fst_derivations.specs.Parts.{AreAt, AreVariables, HasUse, IsFormed};
ghost use Rattle.fst_premises.specs.Scopes.{AreUsed, entered_all, left_all, after_body, inside, noted};
ghost use Rattle.fst_premises.specs.Shown.{IsLargeBinder, ShowsUnused, UseDifferent, IsShown};
ghost use Rattle.fst_premises.specs.Checks.{AreInSize};
ghost use Rattle.fst_premises.specs.Scenes.{AreFormed};

use crate::fault::CheckFault;
use crate::parts::use_of;
use crate::scene::{Scene, fits, type_at};
use fst_context::{Context, Left};
use fst_terms::Binder;
use fst_types::{Ty, Use, copy};
use std::alloc::{AllocError, Global};

/// Begins the body of a function that is used so often.
pub(crate) fn begin_body(context: &mut Context, uses: Use) -> Result<(), AllocError>
    ensures { OnOk result (context.new ≡ inside uses context.old) }
{
    match uses {
        Use::Once => Ok(()),
        Use::Many => context.begin(),
    }
}

/// Ends the body of a function that is used so often.
pub fn end_body(context: &mut Context, uses: Use)
    requires { uses ≡ Many → 0 < length context.old.bodies }
    ensures { context.new ≡ after_body uses context.old }
{
    match uses {
        Use::Once => {}
        Use::Many => context.end(),
    }
}

/// Enters a variable of a well-formed type.
pub fn enter(
    alloc: Global,
    scene: Scene<'_>,
    context: &mut Context,
    binder: &Binder,
    t: Ty,
) -> Result<(), AllocError>
    requires { IsFormed scene.vars.now t }
    ensures { OnOk result ((n : Use) × HasUse scene.entry.vars.now t n ×
        (context.new ≡ entered binder.now.name (record { type = t; uses = n }) context.old)) }
{
    let uses = use_of(alloc, scene.vars, &t)?;
    context.enter(binder, t, uses)
}

/// Enters the variables that an arm binds to the fields of a constructor.
pub fn enter_fields(
    alloc: Global,
    scene: Scene<'_>,
    context: &mut Context,
    binders: &[Binder],
    fields: &[u32],
) -> Result<(), CheckFault>
    requires long { length binders.now ≡ length fields.now }
    requires there { (ts : List Tree) × AreAt scene.module.now.types.items fields.now ts ×
        AreFormed scene.vars.now ts }
    ensures entered { OnOk result ((ts : List Tree) →
        AreAt scene.entry.module.now.types.items fields.now ts →
        (vs : List Variable) × AreVariables scene.entry.vars.now ts vs × AreInSize ts ×
        (length binders.now ≡ length vs) ×
        (context.new ≡ entered_all binders.now vs context.old)) }
    ensures refused { IfErr result (λ f. (ts : List Tree) →
        AreAt scene.entry.module.now.types.items fields.now ts →
        IsShown f (IsLargeBinder binders.now ts f)) }
{
    for i in 0..binders.len() {
        let binder = &binders[i];
        let t = type_at(scene, fields[i]);
        fits(binder.at, t)?;
        let copied = copy(alloc, t)?;
        enter(alloc, scene, context, binder, copied)?;
    }
    Ok(())
}

/// Leaves the innermost variable, which has to have been used.
pub fn leave(alloc: Global, context: &mut Context, binder: &Binder) -> Result<(), CheckFault>
    requires { 0 < length context.old.variables }
    ensures used { OnOk result (AreUsed (length (binder.now ∷ [])) context.old) }
    ensures left { OnOk result (context.new ≡ left_all (length (binder.now ∷ [])) context.old) }
    ensures refused { IfErr result (λ f. IsShown f (ShowsUnused context.old (binder.now ∷ []) f)) }
{
    match context.leave() {
        Left::Used => Ok(()),
        Left::Unused => Err(CheckFault::Unused(binder.at, binder.name.copy(alloc)?)),
    }
}

/// Leaves the two innermost variables, the second of which is inside the first; both have to have been used.
pub fn leave_two(
    alloc: Global,
    context: &mut Context,
    first: &Binder,
    second: &Binder,
) -> Result<(), CheckFault>
    requires { 1 < length context.old.variables }
    ensures used { OnOk result (AreUsed (length (first.now ∷ second.now ∷ [])) context.old) }
    ensures left { OnOk result (context.new ≡ left_all
        (length (first.now ∷ second.now ∷ [])) context.old) }
    ensures refused { IfErr result (λ f. IsShown f
        (ShowsUnused context.old (first.now ∷ second.now ∷ []) f)) }
{
    let inner = context.leave();
    let outer = context.leave();
    if outer == Left::Unused {
        return Err(CheckFault::Unused(first.at, first.name.copy(alloc)?));
    }
    if inner == Left::Unused {
        return Err(CheckFault::Unused(second.at, second.name.copy(alloc)?));
    }
    Ok(())
}

/// Of the variables that were left the last that wasn't used, where this is the k-th.
fn noted(left: Left, k: usize, unused: Option<usize>) -> Option<usize>
    ensures { result ≡ noted left k unused }
{
    match left {
        Left::Unused => Some(k),
        Left::Used => unused,
    }
}

/// Leaves the variables of these binders, the last of which is innermost; the first that wasn't used is told.
pub fn leave_all(alloc: Global, context: &mut Context, binders: &[Binder]) -> Result<(), CheckFault>
    requires { length binders.now ≤ length context.old.variables }
    ensures used { OnOk result (AreUsed (length binders.now) context.old) }
    ensures left { OnOk result (context.new ≡ left_all (length binders.now) context.old) }
    ensures refused { IfErr result (λ f. IsShown f (ShowsUnused context.old binders.now f)) }
{
    let mut unused = None;
    for k in 0..binders.len() {
        unused = noted(context.leave(), k, unused);
    }
    match unused {
        None => Ok(()),
        Some(k) => {
            let binder = &binders[binders.len() - 1 - k];
            Err(CheckFault::Unused(binder.at, binder.name.copy(alloc)?))
        }
    }
}

/// That a further branch used the same variables as the first one, after which these were there.
pub fn same_marks(
    alloc: Global,
    context: &Context,
    marks: &[bool],
    at: u32,
) -> Result<(), CheckFault>
    requires { length marks.now ≡ length context.now.there }
    ensures same { OnOk result (context.now.there ≡ reverse marks.now) }
    ensures refused { IfErr result (λ f. IsShown f
        (UseDifferent at (with_marks (reverse marks.now) context.now) context.now f)) }
{
    match context.differs(marks) {
        None => Ok(()),
        Some(k) => Err(CheckFault::Branches(at, context.name(k).copy(alloc)?)),
    }
}
