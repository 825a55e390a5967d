// Whether a type is the one that is wanted.

ghost use Rattle.std.specs.Prelude.{◌≡◌, ◌⊎◌, ◌≤◌, IfOk, IfErr, OnOk, length};
ghost use mathlib.Core.List.{reverse};
ghost use Rattle.fst_types.specs.Tree as tree;
ghost use Rattle.fst_types.specs.declared.base.Base.TheVariants.{Bool as Truth};
ghost use Rattle.fst_context.specs.Scope.{with_marks};
ghost use Rattle.fst_derivations.specs.Deriv.{deriv_of, type_of, convert, row, one, two};
ghost use Rattle.fst_derivations.specs.Parts.{IsFormed};
ghost use Rattle.fst_typing.specs.Typed.{IsKnown};
ghost use Rattle.fst_premises.specs.Shown.{IsShown, UseDifferent};
ghost use Rattle.fst_typing.specs.Shown.{IsUnequal};
ghost use Rattle.fst_premises.specs.Scenes.{check_in};

use fst_context::Context;
use fst_derivations::Derivation;
use fst_equiv::{EquivFault, Same, same_type};
use fst_premises::{CheckFault, Difference, Scene, base, same_marks};
use fst_types::{Base, Ty, copy};
use std::alloc::{AllocError, Global};

/// Two types in memory of their own.
pub(crate) fn copies(alloc: Global, first: &Ty, second: &Ty) -> Result<(Ty, Ty), AllocError>
    ensures first { IfOk result (λ p. p.0 ≡ first.now) }
    ensures second { IfOk result (λ p. p.1 ≡ second.now) }
{
    Ok((copy(alloc, first)?, copy(alloc, second)?))
}

/// The derivation turned to the type that is wanted of it, where its type is known to be equal.
pub(crate) fn compared(
    alloc: Global,
    scene: Scene<'_>,
    at: u32,
    wanted: &Ty,
    d: Derivation,
) -> Result<Derivation, CheckFault>
    requires budget { 1 ≤ scene.budget }
    requires found { IsFormed scene.vars.now (type_of (deriv_of d)) }
    requires wanted { IsFormed scene.vars.now wanted.now }
    ensures turned { IfOk result (λ c. deriv_of c ≡ convert (type_of (deriv_of d)) wanted.now
        (deriv_of d)) }
    ensures known { IfOk result (λ c. IsKnown (check_in scene.entry)
        (type_of (deriv_of d)) wanted.now) }
    ensures refused { IfErr result (λ f. IsShown f
        (IsUnequal (check_in scene.entry) at (type_of (deriv_of d)) wanted.now f)) }
{
    match same_type(alloc, d.type_of(), wanted, scene.budget) {
        Ok(Same::Yes) => {
            let parts = copies(alloc, d.type_of(), wanted)?;
            Ok(d.turned(alloc, parts.0, parts.1)?)
        }
        Ok(Same::Shape) => {
            let parts = copies(alloc, d.type_of(), wanted)?;
            Err(CheckFault::Mismatch(at, parts.0, parts.1, Difference::Shape))
        }
        Ok(Same::Word(trace, side)) => {
            let parts = copies(alloc, d.type_of(), wanted)?;
            let difference = Difference::Word(trace, side);
            Err(CheckFault::Mismatch(at, parts.0, parts.1, difference))
        }
        Ok(Same::Undecided(grammar, pairs)) => {
            let parts = copies(alloc, d.type_of(), wanted)?;
            Err(CheckFault::Undecided(at, parts.0, parts.1, grammar, pairs))
        }
        Err(EquivFault::TooLarge) => Err(CheckFault::TooLarge(at)),
        Err(EquivFault::Memory) => Err(CheckFault::Memory),
    }
}

/// The derivation turned to the type of truth values.
pub(crate) fn truth(
    alloc: Global,
    scene: Scene<'_>,
    at: u32,
    d: Derivation,
) -> Result<Derivation, CheckFault>
    requires budget { 1 ≤ scene.budget }
    requires found { IsFormed scene.vars.now (type_of (deriv_of d)) }
    ensures turned { IfOk result (λ c. deriv_of c ≡ convert (type_of (deriv_of d))
        (tree.plain Truth) (deriv_of d)) }
    ensures known { IfOk result (λ c. IsKnown (check_in scene.entry) (type_of (deriv_of d))
        (tree.plain Truth)) }
    ensures refused { IfErr result (λ f. IsShown f
        (IsUnequal (check_in scene.entry) at (type_of (deriv_of d)) (tree.plain Truth) f)) }
{
    let wanted = base(Base::Bool);
    compared(alloc, scene, at, &wanted, d)
}

/// The row of the other truth value.
pub(crate) fn negated(
    alloc: Global,
    scene: Scene<'_>,
    at: u32,
    d: Derivation,
) -> Result<Derivation, CheckFault>
    requires budget { 1 ≤ scene.budget }
    requires found { IsFormed scene.vars.now (type_of (deriv_of d)) }
    ensures made { IfOk result (λ w. IsKnown (check_in scene.entry) (type_of (deriv_of d))
        (tree.plain Truth) ×
        (deriv_of w ≡ row (tree.plain Truth)
        (one (convert (type_of (deriv_of d)) (tree.plain Truth) (deriv_of d))))) }
    ensures refused { IfErr result (λ f. IsShown f
        (IsUnequal (check_in scene.entry) at (type_of (deriv_of d)) (tree.plain Truth) f)) }
{
    let c = truth(alloc, scene, at, d)?;
    Ok(Derivation::with_one(alloc, base(Base::Bool), c)?)
}

/// The row of a function of this type that is applied to an argument.
pub(crate) fn applied(
    alloc: Global,
    scene: Scene<'_>,
    at: u32,
    parts: (Ty, Ty),
    d: Derivation,
    h: Derivation,
) -> Result<Derivation, CheckFault>
    requires budget { 1 ≤ scene.budget }
    requires found { IsFormed scene.vars.now (type_of (deriv_of h)) }
    requires wanted { IsFormed scene.vars.now parts.0 }
    ensures made { IfOk result (λ w. IsKnown (check_in scene.entry) (type_of (deriv_of h)) parts.0 ×
        (deriv_of w ≡ row parts.1 (two (deriv_of d)
        (convert (type_of (deriv_of h)) parts.0 (deriv_of h))))) }
    ensures refused { IfErr result (λ f. IsShown f
        (IsUnequal (check_in scene.entry) at (type_of (deriv_of h)) parts.0 f)) }
{
    let argument = compared(alloc, scene, at, &parts.0, h)?;
    Ok(Derivation::with_two(alloc, parts.1, d, argument)?)
}

/// The derivation of a further branch, turned to the type of the first one, where it used the same variables as that: after
/// the first branch these were there.
pub(crate) fn joined(
    alloc: Global,
    scene: Scene<'_>,
    context: &Context,
    marks: &[bool],
    at: u32,
    wanted: &Ty,
    d: Derivation,
) -> Result<Derivation, CheckFault>
    requires budget { 1 ≤ scene.budget }
    requires long { length marks.now ≡ length context.now.there }
    requires found { IsFormed scene.vars.now (type_of (deriv_of d)) }
    requires wanted { IsFormed scene.vars.now wanted.now }
    ensures same { OnOk result (context.now.there ≡ reverse marks.now) }
    ensures turned { IfOk result (λ c. deriv_of c ≡ convert (type_of (deriv_of d)) wanted.now
        (deriv_of d)) }
    ensures known { IfOk result (λ c. IsKnown (check_in scene.entry)
        (type_of (deriv_of d)) wanted.now) }
    ensures refused { IfErr result (λ f. IsShown f (
        UseDifferent at (with_marks (reverse marks.now) context.now) context.now f ⊎
        ((context.now.there ≡ reverse marks.now) ×
        IsUnequal (check_in scene.entry) at (type_of (deriv_of d)) wanted.now f))) }
{
    same_marks(alloc, context, marks, at)?;
    compared(alloc, scene, at, wanted, d)
}
