ghost use Rattle.std.specs.Prelude.{◌≡◌, ◌<◌, IfOk, slice_get};
ghost use Rattle.fst_derivations.specs.Deriv.{deriv_of, parts_of};
ghost use Rattle.fst_rules.specs.Levels.{surroundings_at};
ghost use Rattle.fst_rules.specs.Walks.{after, branches, came, if_row, in_body, inside, lambda_row, let_row, split_row, walk_of};

use crate::binding::closes;
use crate::following::follows;
use crate::levels::Place;
use crate::peeling::{Row, one, three, two};
use fst_context::Context;
use fst_derivations::Derivation;
use fst_fits::{arrow_fits, if_fits, is_same, pair_parts, type_at, use_in};
use fst_terms::{Binder, Term};
use fst_types::{Ty, Use, copy};
use std::alloc::AllocError;

// What is under binders and in branches.

#[cycle(follows)]
fn follows_inside(
    place: &Place<'_>,
    context: &mut Context,
    binder: &Binder,
    ty: &Ty,
    uses: Use,
    body: &Term,
    derivation: &Derivation,
) -> Result<bool, AllocError>
    ensures { IfOk result (λ b. inside binder.now.name (record { type = ty.now; uses = uses })
        (walk_of (surroundings_at place.now) body.now (deriv_of derivation.now)) context.old ≡
        came b context.new) }
{
    context.enter(binder, copy(place.alloc, ty)?, uses)?;
    if !follows(place, context, body, derivation)? {
        return Ok(false);
    }
    Ok(closes(context))
}

#[cycle(follows)]
fn function_follows(
    place: &Place<'_>,
    context: &mut Context,
    uses: Use,
    binder: &Binder,
    ty: &Ty,
    use_of: Use,
    body: &Term,
    derivation: &Derivation,
) -> Result<bool, AllocError>
    ensures { IfOk result (λ b. in_body uses (inside binder.now.name (record {
      type = ty.now;
      uses = use_of;
    })
        (walk_of (surroundings_at place.now) body.now (deriv_of derivation.now))) context.old ≡
        came b context.new) }
{
    match uses {
        Use::Once => follows_inside(place, context, binder, ty, use_of, body, derivation),
        Use::Many => {
            context.begin()?;
            if !follows_inside(place, context, binder, ty, use_of, body, derivation)? {
                return Ok(false);
            }
            context.end();
            Ok(true)
        }
    }
}

#[cycle(follows)]
pub(crate) fn lambda_follows(
    place: &Place<'_>,
    context: &mut Context,
    uses: Use,
    k: u32,
    binder: &Binder,
    body: &Term,
    row: Row<'_>,
) -> Result<bool, AllocError>
    ensures { IfOk result (λ b. lambda_row place.now.vars.now uses binder.now.name
        row.entry.ty.now (slice_get place.now.module.now.types.items k)
        (parts_of row.entry.parts.now) (walk_of (surroundings_at place.now) body.now) context.old
        ≡ came b context.new) }
{
    let Some(from) = type_at(&place.module.types, k) else {
        return Ok(false);
    };
    let Some(use_of) = use_in(place.alloc, place.vars, from)? else {
        return Ok(false);
    };
    let Some(part) = one(row.parts) else {
        return Ok(false);
    };
    if !arrow_fits(row.ty, uses, from, part.type_of()) {
        return Ok(false);
    }
    function_follows(place, context, uses, binder, from, use_of, body, part)
}

#[cycle(follows)]
pub(crate) fn let_follows(
    place: &Place<'_>,
    context: &mut Context,
    binder: &Binder,
    value: &Term,
    body: &Term,
    row: Row<'_>,
) -> Result<bool, AllocError>
    ensures { IfOk result (λ b. let_row place.now.vars.now binder.now.name row.entry.ty.now
        (parts_of row.entry.parts.now)
        (walk_of (surroundings_at place.now) value.now) (walk_of (surroundings_at place.now)
        body.now) context.old ≡ came b context.new) }
{
    let Some((first, second)) = two(row.parts) else {
        return Ok(false);
    };
    if !is_same(row.ty, second.type_of()) {
        return Ok(false);
    }
    let Some(uses) = use_in(place.alloc, place.vars, first.type_of())? else {
        return Ok(false);
    };
    if !follows(place, context, value, first)? {
        return Ok(false);
    }
    follows_inside(place, context, binder, first.type_of(), uses, body, second)
}

#[cycle(follows)]
pub(crate) fn split_follows(
    place: &Place<'_>,
    context: &mut Context,
    left_binder: &Binder,
    right_binder: &Binder,
    value: &Term,
    body: &Term,
    row: Row<'_>,
) -> Result<bool, AllocError>
    ensures { IfOk result (λ b. split_row place.now.vars.now left_binder.now.name
        right_binder.now.name row.entry.ty.now (parts_of row.entry.parts.now)
        (walk_of (surroundings_at place.now) value.now) (walk_of (surroundings_at place.now)
        body.now) context.old ≡ came b context.new) }
{
    let Some((first, second)) = two(row.parts) else {
        return Ok(false);
    };
    if !is_same(row.ty, second.type_of()) {
        return Ok(false);
    }
    let Some((left, right)) = pair_parts(first.type_of()) else {
        return Ok(false);
    };
    let Some(left_use) = use_in(place.alloc, place.vars, left)? else {
        return Ok(false);
    };
    let Some(right_use) = use_in(place.alloc, place.vars, right)? else {
        return Ok(false);
    };
    if !follows(place, context, value, first)? {
        return Ok(false);
    }
    context.enter(left_binder, copy(place.alloc, left)?, left_use)?;
    if !follows_inside(place, context, right_binder, right, right_use, body, second)? {
        return Ok(false);
    }
    Ok(closes(context))
}

/// Whether two trees are derivations of two terms with the same linear variables.
#[cycle(follows)]
fn branches_follow(
    place: &Place<'_>,
    context: &mut Context,
    first: &Term,
    first_derivation: &Derivation,
    second: &Term,
    second_derivation: &Derivation,
) -> Result<bool, AllocError>
    ensures { IfOk result (λ b. branches (walk_of (surroundings_at place.now) first.now (deriv_of
        first_derivation.now))
        (walk_of (surroundings_at place.now) second.now (deriv_of second_derivation.now))
        context.old ≡ came b context.new) }
{
    let before = context.marks()?;
    if !follows(place, context, first, first_derivation)? {
        return Ok(false);
    }
    let after = context.exchange(before);
    if !follows(place, context, second, second_derivation)? {
        return Ok(false);
    }
    Ok(context.differs(&after).is_none())
}

#[cycle(follows)]
pub(crate) fn if_follows(
    place: &Place<'_>,
    context: &mut Context,
    condition: &Term,
    then: &Term,
    otherwise: &Term,
    row: Row<'_>,
) -> Result<bool, AllocError>
    ensures { IfOk result (λ b. if_row row.entry.ty.now (parts_of row.entry.parts.now) (walk_of
        (surroundings_at place.now) condition.now)
        (walk_of (surroundings_at place.now) then.now) (walk_of (surroundings_at place.now)
        otherwise.now) context.old ≡ came b context.new) }
{
    let Some((first, second, third)) = three(row.parts) else {
        return Ok(false);
    };
    if !if_fits(row.ty, first.type_of(), second.type_of(), third.type_of()) {
        return Ok(false);
    }
    if !follows(place, context, condition, first)? {
        return Ok(false);
    }
    branches_follow(place, context, then, second, otherwise, third)
}
