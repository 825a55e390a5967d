ghost use mathlib.Core.List.{reverse};
ghost use Rattle.fst_terms.specs.InRange.{maker_of};
ghost use Rattle.fst_terms.specs.ModelCoreView.{core_arms_of, cores_of};
ghost use Rattle.fst_arms.specs.Arms.{arm_labels};
ghost use Rattle.fst_context.specs.Scope.{with_marks};
ghost use Rattle.fst_derivations.specs.Rules.{fields, rest};
ghost use Rattle.std.specs.Prelude.{◌≡◌, ◌<◌, IfOk, length, slice_get};
ghost use Rattle.fst_types.specs.Tree as tree;
ghost use Rattle.fst_derivations.specs.Deriv.{deriv_of, parts_of};
ghost use Rattle.fst_rules.specs.Levels.{binding_of, surroundings_at};
ghost use Rattle.fst_fits.specs.Tests.{same_tree};
ghost use Rattle.fst_rules.specs.Walks.{arm_walk, arms_walk, bound_types, case_row, further, further_walk, fields_walk, given, match_row, only, after, came, walk_of};

use crate::binding::{Binds, bound_types, close_all, enter_all, family_at};
use crate::following::follows;
use crate::levels::Place;
use crate::peeling::Row;
use fst_context::Context;
use fst_derivations::Derivation;
use fst_fits::{is_at, is_named, is_same, labels_fit, maker_at, makers_fit};
use fst_terms::{Arm, Term};
use fst_types::Ty;
use std::alloc::AllocError;

// A constructor's arguments, and arms.

/// Whether trees are derivations of terms, at the types with these numbers.
#[cycle(follows)]
#[tactic(auto, using(fst_terms::proofs::Laws::cores_height_at, crate::proofs::ArmLaws::none_fields, crate::proofs::ArmLaws::none_parts))]
fn fields_follow(
    place: &Place<'_>,
    context: &mut Context,
    terms: &[Term],
    fields: &[u32],
    parts: &[Derivation],
) -> Result<bool, AllocError>
    ensures { IfOk result (λ b. fields_walk (surroundings_at place.now) (cores_of terms.now)
        fields.now (parts_of parts.now) context.old ≡ came b context.new) }
{
    if terms.len() != fields.len() || terms.len() != parts.len() {
        return Ok(false);
    }
    for (i, term) in terms.iter().enumerate() {
        let part = &parts[i];
        if !is_at(&place.module.types, fields[i], part.type_of()) {
            return Ok(false);
        }
        if !follows(place, context, term, part)? {
            return Ok(false);
        }
    }
    Ok(true)
}

#[cycle(follows)]
pub(crate) fn make_follows(
    place: &Place<'_>,
    context: &mut Context,
    family: u32,
    maker: u32,
    terms: &[Term],
    row: Row<'_>,
) -> Result<bool, AllocError>
    ensures { IfOk result (λ b. only (same_tree row.entry.ty.now (tree.named family)) (given
        (maker_of (slice_get place.now.module.now.families.items family) maker)
        (λ o. fields_walk (surroundings_at place.now) (cores_of terms.now) o.fields.items
        (parts_of row.entry.parts.now))) context.old ≡ came b context.new) }
{
    if !is_named(row.ty, family) {
        return Ok(false);
    }
    let Some(maker) = maker_at(&place.module.families, family, maker) else {
        return Ok(false);
    };
    fields_follow(place, context, terms, &maker.fields, row.parts)
}

#[cycle(follows)]
fn arm_follows(
    place: &Place<'_>,
    context: &mut Context,
    binds: Binds<'_>,
    arm: &Arm,
    derivation: &Derivation,
) -> Result<bool, AllocError>
    ensures { IfOk result (λ b. arm_walk place.now.vars.now (bound_types (surroundings_at
        place.now) (binding_of binds.entry) arm.now.label) arm.now.binders.items
        (walk_of (surroundings_at place.now) arm.now.body (deriv_of derivation.now)) context.old
        ≡ came b context.new) }
{
    let Some(types) = bound_types(place, binds, &arm.label)? else {
        return Ok(false);
    };
    if !enter_all(place, context, &arm.binders, &types)? {
        return Ok(false);
    }
    if !follows(place, context, &arm.body, derivation)? {
        return Ok(false);
    }
    Ok(close_all(context, arm.binders.len()))
}

/// Whether a tree is a derivation of a further arm, which begins with these marks, with the same linear variables.
#[cycle(follows)]
fn further_arm_follows(
    place: &Place<'_>,
    context: &mut Context,
    binds: Binds<'_>,
    arm: &Arm,
    derivation: &Derivation,
    before: &[bool],
) -> Result<bool, AllocError>
    requires { length before.now ≡ length context.old.there }
    ensures { IfOk result (λ b. further (arm_walk place.now.vars.now (bound_types
        (surroundings_at place.now) (binding_of binds.entry) arm.now.label) arm.now.binders.items
        (walk_of (surroundings_at place.now) arm.now.body (deriv_of derivation.now))) (with_marks
        (reverse before.now) context.old) context.old ≡ came b context.new) }
{
    let marks = Vec::from_slice(place.alloc, before)?;
    let after = context.exchange(marks);
    if !arm_follows(place, context, binds, arm, derivation)? {
        return Ok(false);
    }
    Ok(context.differs(&after).is_none())
}

/// Whether trees are derivations of further arms at a type, which begin with these marks, with the same linear variables.
#[cycle(follows)]
#[tactic(auto, using(fst_terms::proofs::Laws::core_arms_height_at, crate::proofs::ArmLaws::none_further))]
fn further_arms_follow(
    place: &Place<'_>,
    context: &mut Context,
    binds: Binds<'_>,
    arms: &[Arm],
    ty: &Ty,
    parts: &[Derivation],
    before: &[bool],
) -> Result<bool, AllocError>
    requires { length before.now ≡ length context.old.there }
    ensures { IfOk result (λ b. further_walk (surroundings_at place.now) (binding_of binds.entry)
        (core_arms_of arms.now) ty.now (parts_of parts.now)
        (with_marks (reverse before.now) context.old) context.old ≡ came b context.new) }
{
    if arms.len() != parts.len() {
        return Ok(false);
    }
    for (i, arm) in arms.iter().enumerate() {
        let part = &parts[i];
        if !is_same(part.type_of(), ty) {
            return Ok(false);
        }
        if !further_arm_follows(place, context, binds, arm, part, before)? {
            return Ok(false);
        }
    }
    Ok(true)
}

/// Whether trees are derivations of arms at a type, all with the same linear variables.
#[cycle(follows)]
fn arms_follow(
    place: &Place<'_>,
    context: &mut Context,
    binds: Binds<'_>,
    arms: &[Arm],
    ty: &Ty,
    parts: &[Derivation],
) -> Result<bool, AllocError>
    ensures { IfOk result (λ b. arms_walk (surroundings_at place.now) (binding_of binds.entry)
        (core_arms_of arms.now) ty.now (parts_of parts.now) context.old ≡ came b context.new) }
{
    let Some((arm, others)) = arms.split_first() else {
        return Ok(false);
    };
    let Some((first, rest)) = parts.split_first() else {
        return Ok(false);
    };
    if !is_same(first.type_of(), ty) {
        return Ok(false);
    }
    let before = context.marks()?;
    if !arm_follows(place, context, binds, arm, first)? {
        return Ok(false);
    }
    further_arms_follow(place, context, binds, others, ty, rest, &before)
}

#[cycle(follows)]
pub(crate) fn case_follows(
    place: &Place<'_>,
    context: &mut Context,
    value: &Term,
    arms: &[Arm],
    row: Row<'_>,
) -> Result<bool, AllocError>
    ensures { IfOk result (λ b. case_row place.now.module.now.families.items (arm_labels
        (core_arms_of arms.now)) (parts_of row.entry.parts.now) (walk_of (surroundings_at
        place.now) value.now)
        (λ makers. arms_walk (surroundings_at place.now) (fields makers) (core_arms_of arms.now)
        row.entry.ty.now) context.old ≡ came b context.new) }
{
    let Some((first, rest)) = row.parts.split_first() else {
        return Ok(false);
    };
    let Some(family) = family_at(&place.module.families, first.type_of()) else {
        return Ok(false);
    };
    if !makers_fit(place.alloc, &family.makers, arms)? {
        return Ok(false);
    }
    if !follows(place, context, value, first)? {
        return Ok(false);
    }
    arms_follow(
        place,
        context,
        Binds::Fields(&family.makers),
        arms,
        row.ty,
        rest,
    )
}

#[cycle(follows)]
pub(crate) fn match_follows(
    place: &Place<'_>,
    context: &mut Context,
    channel: &Term,
    arms: &[Arm],
    row: Row<'_>,
) -> Result<bool, AllocError>
    ensures { IfOk result (λ b. match_row (arm_labels (core_arms_of arms.now)) (parts_of
        row.entry.parts.now) (walk_of (surroundings_at place.now) channel.now)
        (λ s. arms_walk (surroundings_at place.now) (rest s) (core_arms_of arms.now)
        row.entry.ty.now) context.old ≡ came b context.new) }
{
    let Some((first, others)) = row.parts.split_first() else {
        return Ok(false);
    };
    if !labels_fit(place.alloc, first.type_of(), arms)? {
        return Ok(false);
    }
    if !follows(place, context, channel, first)? {
        return Ok(false);
    }
    arms_follow(
        place,
        context,
        Binds::Rest(first.type_of()),
        arms,
        row.ty,
        others,
    )
}
