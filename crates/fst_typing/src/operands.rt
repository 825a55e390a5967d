// The operands of signs.

ghost use Rattle.std.specs.Prelude.{◌≡◌, ◌≤◌, IfOk, IfErr, None, Some};
ghost use Rattle.fst_types.specs.Tree.{plain};
ghost use Rattle.fst_derivations.specs.Deriv.{deriv_of, type_of, convert, row, two};
ghost use Rattle.fst_derivations.specs.Parts.{IsFormed};
ghost use Rattle.fst_typing.specs.Typed.{IsKnown};
ghost use Rattle.fst_premises.specs.Shown.{IsShown};
ghost use Rattle.fst_premises.specs.Signs.{operand, result_type};
ghost use Rattle.fst_typing.specs.Shown.{IsOperand, IsUnequal, ShowsOperand};
ghost use Rattle.fst_premises.specs.Scenes.{check_in};

use crate::comparing::{compared, copies};
use fst_derivations::Derivation;
use fst_premises::{CheckFault, Scene, base, fixed_operand, is_comparable, result_of};
use fst_terms::Op;
use fst_types::Base;
use std::alloc::Global;

/// The derivation of the first operand of a comparison, turned to the type that both operands are to have.
fn first_compared(
    alloc: Global,
    scene: Scene<'_>,
    at: u32,
    d: Derivation,
) -> Result<Derivation, CheckFault>
    requires budget { 1 ≤ scene.budget }
    requires found { IsFormed scene.vars.now (type_of (deriv_of d)) }
    ensures turned { IfOk result (λ c. deriv_of c ≡ convert (type_of (deriv_of d))
        (type_of (deriv_of c)) (deriv_of d)) }
    ensures known { IfOk result (λ c. IsKnown (check_in scene.entry) (type_of (deriv_of d))
        (type_of (deriv_of c))) }
    ensures operand { IfOk result (λ c. IsOperand (check_in scene.entry) None (type_of (deriv_of d))
        (type_of (deriv_of c))) }
    ensures refused { IfErr result (λ f. IsShown f
        (ShowsOperand (check_in scene.entry) None at (type_of (deriv_of d)) f)) }
{
    if is_comparable(d.type_of()) {
        let parts = copies(alloc, d.type_of(), d.type_of())?;
        return Ok(d.turned(alloc, parts.0, parts.1)?);
    }
    let wanted = base(Base::Int);
    compared(alloc, scene, at, &wanted, d)
}

/// The derivation of the first operand of a sign whose operands have this type.
fn first_fixed(
    alloc: Global,
    scene: Scene<'_>,
    at: u32,
    operand: Base,
    d: Derivation,
) -> Result<Derivation, CheckFault>
    requires budget { 1 ≤ scene.budget }
    requires found { IsFormed scene.vars.now (type_of (deriv_of d)) }
    ensures turned { IfOk result (λ c. deriv_of c ≡ convert (type_of (deriv_of d))
        (type_of (deriv_of c)) (deriv_of d)) }
    ensures known { IfOk result (λ c. IsKnown (check_in scene.entry) (type_of (deriv_of d))
        (type_of (deriv_of c))) }
    ensures operand { IfOk result (λ c. IsOperand (check_in scene.entry) (Some (plain operand))
        (type_of (deriv_of d)) (type_of (deriv_of c))) }
    ensures refused { IfErr result (λ f. IsShown f
        (ShowsOperand (check_in scene.entry) (Some (plain operand)) at (type_of (deriv_of d)) f)) }
{
    let wanted = base(operand);
    compared(alloc, scene, at, &wanted, d)
}

/// The derivation of a sign's first operand, turned to the type that both operands are to have.
pub(crate) fn first_operand(
    alloc: Global,
    scene: Scene<'_>,
    at: u32,
    op: Op,
    d: Derivation,
) -> Result<Derivation, CheckFault>
    requires budget { 1 ≤ scene.budget }
    requires found { IsFormed scene.vars.now (type_of (deriv_of d)) }
    ensures turned { IfOk result (λ c. deriv_of c ≡ convert (type_of (deriv_of d))
        (type_of (deriv_of c)) (deriv_of d)) }
    ensures known { IfOk result (λ c. IsKnown (check_in scene.entry) (type_of (deriv_of d))
        (type_of (deriv_of c))) }
    ensures operand { IfOk result (λ c. IsOperand (check_in scene.entry) (operand op)
        (type_of (deriv_of d)) (type_of (deriv_of c))) }
    ensures refused { IfErr result (λ f. IsShown f
        (ShowsOperand (check_in scene.entry) (operand op) at (type_of (deriv_of d)) f)) }
{
    match fixed_operand(op) {
        Some(operand) => first_fixed(alloc, scene, at, operand, d),
        None => first_compared(alloc, scene, at, d),
    }
}

/// The row of a sign, whose first operand is turned to the type that both are to have.
pub(crate) fn operated(
    alloc: Global,
    scene: Scene<'_>,
    at: u32,
    op: Op,
    d: Derivation,
    h: Derivation,
) -> Result<Derivation, CheckFault>
    requires budget { 1 ≤ scene.budget }
    requires found { IsFormed scene.vars.now (type_of (deriv_of h)) }
    requires wanted { IsFormed scene.vars.now (type_of (deriv_of d)) }
    ensures made { IfOk result (λ w. IsKnown (check_in scene.entry) (type_of (deriv_of h))
        (type_of (deriv_of d)) ×
        (deriv_of w ≡ row (result_type op)
        (two (deriv_of d) (convert (type_of (deriv_of h)) (type_of (deriv_of d))
        (deriv_of h))))) }
    ensures refused { IfErr result (λ f. IsShown f
        (IsUnequal (check_in scene.entry) at (type_of (deriv_of h)) (type_of (deriv_of d)) f)) }
{
    let right = compared(alloc, scene, at, d.type_of(), h)?;
    Ok(Derivation::with_two(alloc, result_of(op), d, right)?)
}
