// The plain derivations of arms.

ghost use Rattle.std.specs.Prelude.{◌≡◌, ◌⊎◌, ◌<◌, IfOk, IfErr, List, length};
ghost use mathlib.Core.List.{reverse};
ghost use Rattle.fst_types.specs.Tree.{Tree};
ghost use Rattle.fst_terms.specs.CoreTree.{case_of, match_with};
ghost use Rattle.fst_terms.specs.ModelCoreView.{core_arms_of};
ghost use Rattle.fst_context.specs.Scope.{Variable, with_marks};
ghost use Rattle.fst_derivations.specs.Deriv.{deriv_of, parts_of, row, type_of};
ghost use Rattle.fst_derivations.specs.Parts.{AreAt, AreVariables, enter_all};
ghost use Rattle.fst_derivations.specs.Rules.{rest};
ghost use Rattle.fst_typing.specs.Typed.{IsTyped, IsTypedUnder};
ghost use Rattle.fst_premises.specs.Checks.{AreInSize};
ghost use Rattle.fst_premises.specs.Shown.{IsLargeBinder, IsShown};
ghost use Rattle.fst_typing.specs.Shown.{NoMore, Shows, ShowsArms, Under, IsRefused};
ghost use Rattle.fst_premises.specs.Scenes.{check_in, AreFormed, IsReady, IsSetUp};
ghost use Rattle.fst_typing.specs.Scenes.{binding_of, AreArmsReady, AreArmsTyped, AreNumbered, IsArmReady, IsArmTyped, IsFirstTyped, IsNumbered, ShowsArm};

use crate::comparing::joined;
use crate::infer::infer;
use crate::infer_under::infer_under;
use fst_context::Context;
use fst_derivations::{Derivation, two_parts};
use fst_premises::{
    CheckFault, Scene, case_constructors, enter_fields, leave_all, match_labels, offered, place_of,
};
use fst_terms::{Arm, Term};
use fst_types::{Maker, Ty, copy};
use std::alloc::Global;

/// What the variables of arms hold: the fields of constructors, of which each arm has its own by a number; or what is left
/// of a type after the arm's label.
#[derive(Clone, Copy)]
pub(crate) enum Binding<'a> {
    Fields(&'a [Maker], &'a [u32]),
    Rest(&'a Ty),
}

/// The derivation of an arm of a `case`, whose variables hold the fields with these types.
#[cycle(infer)]
fn infer_fields_arm(
    alloc: Global,
    scene: Scene<'_>,
    context: &mut Context,
    fields: &[u32],
    arm: &Arm,
) -> Result<Derivation, CheckFault>
    requires set_up { IsSetUp (check_in scene) }
    requires long { length arm.now.binders.items ≡ length fields.now }
    requires ready { (ts : List Tree) × AreAt scene.module.now.types.items fields.now ts ×
        AreFormed scene.vars.now ts ×
        (AreInSize ts → (vs : List Variable) → AreVariables scene.vars.now ts vs →
        IsReady (check_in scene) arm.now.body (enter_all vs context.old.variables)) }
    ensures typed { IfOk result (λ d. (ts : List Tree) →
        AreAt scene.entry.module.now.types.items fields.now ts →
        IsTypedUnder (check_in scene.entry) arm.now.binders.items ts context.old context.new
        arm.now.body (deriv_of d)) }
    ensures refused { IfErr result (λ f. (ts : List Tree) →
        AreAt scene.entry.module.now.types.items fields.now ts → IsShown f (
        IsLargeBinder arm.now.binders.items ts f ⊎
        Under (check_in scene.entry) arm.now.binders.items ts arm.now.body context.old
        (λ z. Shows (check_in scene.entry) arm.now.body z f) NoMore f)) }
{
    enter_fields(alloc, scene, context, &arm.binders, fields)?;
    let d = infer(alloc, scene, context, &arm.body)?;
    leave_all(alloc, context, &arm.binders)?;
    Ok(d)
}

/// The derivation of an arm of a `match`, whose variable holds what is left of the type after the arm's label.
#[cycle(infer)]
fn infer_rest_arm(
    alloc: Global,
    scene: Scene<'_>,
    context: &mut Context,
    t: &Ty,
    arm: &Arm,
) -> Result<Derivation, CheckFault>
    requires set_up { IsSetUp (check_in scene) }
    requires ready { IsArmReady (check_in scene)
        (rest t.now) arm.now.label arm.now.binders.items arm.now.body context.old.variables }
    ensures typed { IfOk result (λ d. IsArmTyped (check_in scene.entry)
        (rest t.now) arm.now.label arm.now.binders.items context.old context.new arm.now.body
        (deriv_of d)) }
    ensures refused { IfErr result (λ f. IsShown f
        (ShowsArm (check_in scene.entry) (rest t.now) arm.now.label arm.now.binders.items
        arm.now.body context.old f)) }
{
    let binder = &arm.binders[0];
    let next = offered(alloc, binder.at, &arm.label, t)?;
    infer_under(alloc, scene, context, binder, next, &arm.body)
}

/// The derivation of the arm with this number, whose variables hold what the binding says.
#[cycle(infer)]
fn infer_arm(
    alloc: Global,
    scene: Scene<'_>,
    context: &mut Context,
    binding: Binding<'_>,
    number: usize,
    arm: &Arm,
) -> Result<Derivation, CheckFault>
    requires set_up { IsSetUp (check_in scene) }
    requires numbered { IsNumbered binding number arm.now.label }
    requires ready { IsArmReady (check_in scene)
        (binding_of binding) arm.now.label arm.now.binders.items arm.now.body
        context.old.variables }
    ensures typed { IfOk result (λ d. IsArmTyped (check_in scene.entry)
        (binding_of binding.entry) arm.now.label arm.now.binders.items context.old context.new
        arm.now.body (deriv_of d)) }
    ensures refused { IfErr result (λ f. IsShown f
        (ShowsArm (check_in scene.entry) (binding_of binding.entry) arm.now.label
        arm.now.binders.items arm.now.body context.old f)) }
{
    match binding {
        Binding::Fields(makers, numbers) => {
            let fields = &makers[numbers[number] as usize].fields;
            infer_fields_arm(alloc, scene, context, fields, arm)
        }
        Binding::Rest(t) => infer_rest_arm(alloc, scene, context, t, arm),
    }
}

/// The derivations of arms behind the first, each of its type, behind that of what they look at and that of the first: each
/// arm begins with the same variables, and uses the same as the first.
#[cycle(infer)]
fn infer_further(
    alloc: Global,
    scene: Scene<'_>,
    context: &mut Context,
    binding: Binding<'_>,
    arms: &[Arm],
    after: &[bool],
    t: &Ty,
    value: Derivation,
    first: Derivation,
) -> Result<Vec<Derivation>, CheckFault>
    requires set_up { IsSetUp (check_in scene) }
    requires numbered { AreNumbered binding arms.now }
    requires ready { AreArmsReady (check_in scene) (binding_of binding)
        (core_arms_of arms.now) context.old.variables }
    requires first { IsFirstTyped (check_in scene) (binding_of binding)
        (core_arms_of arms.now) context.old (with_marks (reverse after.now) context.old)
        (deriv_of first) }
    requires wanted { t.now ≡ type_of (deriv_of first) }
    ensures typed { IfOk result (λ ds. AreArmsTyped (check_in scene.entry)
        (binding_of binding.entry) (core_arms_of arms.now) context.old
        (with_marks (reverse after.now) context.old) (deriv_of value)
        (row t.now (parts_of ds.items))) }
    ensures here { IfOk result (λ ds. context.new ≡ context.old) }
    ensures refused { IfErr result (λ f. IsShown f
        (ShowsArms (check_in scene.entry) (binding_of binding.entry)
        (core_arms_of arms.now) context.old f)) }
{
    let before = context.marks()?;
    let mut parts = two_parts(alloc, value, first)?;
    for i in 1..arms.len() {
        let again = Vec::from_slice(alloc, &before)?;
        let arm = &arms[i];
        let d = infer_arm(alloc, scene, context, binding, i, arm)?;
        let at = place_of(&arm.body);
        parts.push(joined(alloc, scene, context, after, at, t, d)?)?;
        context.exchange(again);
    }
    Ok(parts)
}

/// The row of arms behind the derivation of what they look at.
#[cycle(infer)]
fn infer_arms(
    alloc: Global,
    scene: Scene<'_>,
    context: &mut Context,
    value: Derivation,
    binding: Binding<'_>,
    arms: &[Arm],
) -> Result<Derivation, CheckFault>
    requires set_up { IsSetUp (check_in scene) }
    requires some { 0 < length arms.now }
    requires numbered { AreNumbered binding arms.now }
    requires ready { AreArmsReady (check_in scene) (binding_of binding)
        (core_arms_of arms.now) context.old.variables }
    ensures typed { IfOk result (λ w. AreArmsTyped (check_in scene.entry) (binding_of binding.entry)
        (core_arms_of arms.now) context.old context.new (deriv_of value) (deriv_of w)) }
    ensures refused { IfErr result (λ f. IsShown f
        (ShowsArms (check_in scene.entry) (binding_of binding.entry)
        (core_arms_of arms.now) context.old f)) }
{
    let before = context.marks()?;
    let first = infer_arm(alloc, scene, context, binding, 0, &arms[0])?;
    let t = copy(alloc, first.type_of())?;
    let after = context.exchange(before);
    let parts = infer_further(
        alloc, scene, context, binding, arms, &after, &t, value, first,
    )?;
    context.exchange(after);
    Ok(Derivation::row(t, parts))
}

/// The derivation of a `case`.
#[cycle(infer)]
pub(crate) fn infer_case(
    alloc: Global,
    scene: Scene<'_>,
    context: &mut Context,
    at: u32,
    value: &Term,
    arms: &[Arm],
) -> Result<Derivation, CheckFault>
    requires set_up { IsSetUp (check_in scene) }
    requires ready { IsReady (check_in scene)
        (case_of at value.now (core_arms_of arms.now)) context.old.variables }
    ensures typed { IfOk result (λ d. IsTyped (check_in scene.entry) context.old context.new
        (case_of at value.now (core_arms_of arms.now)) (deriv_of d)) }
    ensures refused { IfErr result (λ f. IsRefused (check_in scene.entry)
        (case_of at value.now (core_arms_of arms.now)) context.old f) }
{
    let d = infer(alloc, scene, context, value)?;
    let found = case_constructors(alloc, scene, at, d.type_of(), arms)?;
    let binding = Binding::Fields(found.makers, &found.numbers);
    infer_arms(alloc, scene, context, d, binding, arms)
}

/// The derivation of a `match`.
#[cycle(infer)]
pub(crate) fn infer_match(
    alloc: Global,
    scene: Scene<'_>,
    context: &mut Context,
    at: u32,
    channel: &Term,
    arms: &[Arm],
) -> Result<Derivation, CheckFault>
    requires set_up { IsSetUp (check_in scene) }
    requires ready { IsReady (check_in scene)
        (match_with at channel.now (core_arms_of arms.now)) context.old.variables }
    ensures typed { IfOk result (λ d. IsTyped (check_in scene.entry) context.old context.new
        (match_with at channel.now (core_arms_of arms.now)) (deriv_of d)) }
    ensures refused { IfErr result (λ f. IsRefused (check_in scene.entry)
        (match_with at channel.now (core_arms_of arms.now)) context.old f) }
{
    let d = infer(alloc, scene, context, channel)?;
    match_labels(alloc, at, d.type_of(), arms)?;
    let t = copy(alloc, d.type_of())?;
    infer_arms(alloc, scene, context, d, Binding::Rest(&t), arms)
}
