ghost use Rattle.std.specs.Prelude.{◌≡◌, ◌<◌, ◌&&◌, IfOk, IsFalse, slice_get};
ghost use Rattle.fst_types.specs.Tree as tree;
ghost use Rattle.fst_terms.specs.Around.{has_first};
ghost use Rattle.fst_derivations.specs.Deriv.{deriv_of, parts_of};
ghost use Rattle.fst_rules.specs.Levels.{surroundings_at};
ghost use Rattle.fst_fits.specs.Tests.{is_channel, is_global_type, same_tree};
ghost use Rattle.fst_rules.specs.Walks.{after, came, has_none, local_row, row_1, row_2, row_walk, walk_of};
ghost use Rattle.fst_fits.specs.Fits.{close_fits, fork_fits, negate_fits, pair_fits, receive_fits, select_fits, send_fits, seq_fits, wait_fits};

use crate::arms::{case_follows, make_follows, match_follows};
use crate::inside::{if_follows, lambda_follows, let_follows, split_follows};
use crate::levels::{Place, levels_of, pop_level};
use crate::peeling::{Row, has_none, one, two};
use fst_context::{Context, Taken};
use fst_derivations::Derivation;
use fst_fits::{
    channel_fits, close_fits, fork_fits, global_fits, is_plain, is_same, negate_fits, pair_fits,
    receive_fits, select_fits, send_fits, seq_fits, wait_fits,
};
use fst_terms::{Form, Term};
use fst_types::{Base, Name};
use std::alloc::AllocError;

// Whether a tree is a derivation of a term. The linear variables that it has are taken out of the context; where it is none,
// the context is of no use any more.

/// Whether a row is one of a variable, which is taken.
fn local_follows(context: &mut Context, k: u32, row: Row<'_>) -> bool
    ensures { local_row k row.entry.ty.now (parts_of row.entry.parts.now) context.old ≡ came
        result context.new }
{
    if !has_none(row.parts) || !context.has(k) || !is_same(row.ty, context.type_of(k)) {
        return false;
    }
    match context.take(k) {
        Taken::Here => true,
        Taken::Gone => false,
        Taken::Outside => false,
    }
}

/// Whether a row is one of a plain value of a base type.
fn plain_follows(base: Base, row: Row<'_>) -> bool
    ensures { result ≡ (has_none (parts_of row.entry.parts.now) && same_tree row.entry.ty.now
        (tree.plain base)) }
{
    has_none(row.parts) && is_plain(row.ty, base)
}

fn global_follows(
    place: &Place<'_>,
    k: u32,
    types: &[u32],
    row: Row<'_>,
) -> Result<bool, AllocError>
    ensures { IfOk result (λ b. b ≡ (has_none (parts_of row.entry.parts.now) && is_global_type
        place.now.vars.now place.now.module.now.types.items
        (slice_get place.now.module.now.globals.items k) types.now row.entry.ty.now)) }
{
    Ok(has_none(row.parts) && global_fits(place.alloc, place.module, place.vars, k, types, row.ty)?)
}

fn channel_follows(place: &Place<'_>, k: u32, row: Row<'_>) -> Result<bool, AllocError>
    ensures { IfOk result (λ b. b ≡ (has_none (parts_of row.entry.parts.now) && is_channel
        (slice_get place.now.module.now.types.items k) row.entry.ty.now)) }
{
    Ok(has_none(row.parts) && channel_fits(place.alloc, &place.module.types, k, row.ty)?)
}

#[cycle(follows)]
fn both_follow(
    place: &Place<'_>,
    context: &mut Context,
    first: &Term,
    first_derivation: &Derivation,
    second: &Term,
    second_derivation: &Derivation,
) -> Result<bool, AllocError>
    ensures { IfOk result (λ b. after (walk_of (surroundings_at place.now) first.now (deriv_of
        first_derivation.now))
        (walk_of (surroundings_at place.now) second.now (deriv_of second_derivation.now))
        context.old ≡ came b context.new) }
{
    if !follows(place, context, first, first_derivation)? {
        return Ok(false);
    }
    follows(place, context, second, second_derivation)
}

#[cycle(follows)]
fn pair_follows(
    place: &Place<'_>,
    context: &mut Context,
    first: &Term,
    second: &Term,
    row: Row<'_>,
) -> Result<bool, AllocError>
    ensures { IfOk result (λ b. row_2 (pair_fits row.entry.ty.now) (parts_of row.entry.parts.now)
        (walk_of (surroundings_at place.now) first.now) (walk_of (surroundings_at place.now)
        second.now) context.old ≡ came b context.new) }
{
    let Some((d, h)) = two(row.parts) else {
        return Ok(false);
    };
    if !pair_fits(row.ty, d.type_of(), h.type_of()) {
        return Ok(false);
    }
    both_follow(place, context, first, d, second, h)
}

#[cycle(follows)]
fn send_follows(
    place: &Place<'_>,
    context: &mut Context,
    first: &Term,
    second: &Term,
    row: Row<'_>,
) -> Result<bool, AllocError>
    ensures { IfOk result (λ b. row_2 (send_fits row.entry.ty.now) (parts_of row.entry.parts.now)
        (walk_of (surroundings_at place.now) first.now) (walk_of (surroundings_at place.now)
        second.now) context.old ≡ came b context.new) }
{
    let Some((d, h)) = two(row.parts) else {
        return Ok(false);
    };
    if !send_fits(place.alloc, row.ty, d.type_of(), h.type_of())? {
        return Ok(false);
    }
    both_follow(place, context, first, d, second, h)
}

#[cycle(follows)]
fn seq_follows(
    place: &Place<'_>,
    context: &mut Context,
    first: &Term,
    second: &Term,
    row: Row<'_>,
) -> Result<bool, AllocError>
    ensures { IfOk result (λ b. row_2 (seq_fits place.now.vars.now row.entry.ty.now) (parts_of
        row.entry.parts.now)
        (walk_of (surroundings_at place.now) first.now) (walk_of (surroundings_at place.now)
        second.now) context.old ≡ came b context.new) }
{
    let Some((d, h)) = two(row.parts) else {
        return Ok(false);
    };
    if !seq_fits(place.alloc, place.vars, row.ty, d.type_of(), h.type_of())? {
        return Ok(false);
    }
    both_follow(place, context, first, d, second, h)
}

#[cycle(follows)]
fn negate_follows(
    place: &Place<'_>,
    context: &mut Context,
    part: &Term,
    row: Row<'_>,
) -> Result<bool, AllocError>
    ensures { IfOk result (λ b. row_1 (negate_fits row.entry.ty.now) (parts_of
        row.entry.parts.now)
        (walk_of (surroundings_at place.now) part.now) context.old ≡ came b context.new) }
{
    let Some(d) = one(row.parts) else {
        return Ok(false);
    };
    if !negate_fits(row.ty, d.type_of()) {
        return Ok(false);
    }
    follows(place, context, part, d)
}

#[cycle(follows)]
fn receive_follows(
    place: &Place<'_>,
    context: &mut Context,
    part: &Term,
    row: Row<'_>,
) -> Result<bool, AllocError>
    ensures { IfOk result (λ b. row_1 (receive_fits row.entry.ty.now) (parts_of
        row.entry.parts.now)
        (walk_of (surroundings_at place.now) part.now) context.old ≡ came b context.new) }
{
    let Some(d) = one(row.parts) else {
        return Ok(false);
    };
    if !receive_fits(place.alloc, row.ty, d.type_of())? {
        return Ok(false);
    }
    follows(place, context, part, d)
}

#[cycle(follows)]
fn close_follows(
    place: &Place<'_>,
    context: &mut Context,
    part: &Term,
    row: Row<'_>,
) -> Result<bool, AllocError>
    ensures { IfOk result (λ b. row_1 (close_fits row.entry.ty.now) (parts_of
        row.entry.parts.now)
        (walk_of (surroundings_at place.now) part.now) context.old ≡ came b context.new) }
{
    let Some(d) = one(row.parts) else {
        return Ok(false);
    };
    if !close_fits(place.alloc, row.ty, d.type_of())? {
        return Ok(false);
    }
    follows(place, context, part, d)
}

#[cycle(follows)]
fn wait_follows(
    place: &Place<'_>,
    context: &mut Context,
    part: &Term,
    row: Row<'_>,
) -> Result<bool, AllocError>
    ensures { IfOk result (λ b. row_1 (wait_fits row.entry.ty.now) (parts_of
        row.entry.parts.now)
        (walk_of (surroundings_at place.now) part.now) context.old ≡ came b context.new) }
{
    let Some(d) = one(row.parts) else {
        return Ok(false);
    };
    if !wait_fits(place.alloc, row.ty, d.type_of())? {
        return Ok(false);
    }
    follows(place, context, part, d)
}

#[cycle(follows)]
fn select_follows(
    place: &Place<'_>,
    context: &mut Context,
    label: &Name,
    part: &Term,
    row: Row<'_>,
) -> Result<bool, AllocError>
    ensures { IfOk result (λ b. row_1 (select_fits label.now row.entry.ty.now) (parts_of
        row.entry.parts.now)
        (walk_of (surroundings_at place.now) part.now) context.old ≡ came b context.new) }
{
    let Some(d) = one(row.parts) else {
        return Ok(false);
    };
    if !select_fits(place.alloc, label, row.ty, d.type_of())? {
        return Ok(false);
    }
    follows(place, context, part, d)
}

#[cycle(follows)]
fn fork_follows(
    place: &Place<'_>,
    context: &mut Context,
    part: &Term,
    row: Row<'_>,
) -> Result<bool, AllocError>
    ensures { IfOk result (λ b. row_1 (fork_fits place.now.vars.now row.entry.ty.now) (parts_of
        row.entry.parts.now)
        (walk_of (surroundings_at place.now) part.now) context.old ≡ came b context.new) }
{
    let Some(d) = one(row.parts) else {
        return Ok(false);
    };
    if !fork_fits(place.alloc, place.vars, row.ty, d.type_of())? {
        return Ok(false);
    }
    follows(place, context, part, d)
}

/// Whether a row is one of a term that has no first part.
#[cycle(follows)]
fn head_follows(
    place: &Place<'_>,
    context: &mut Context,
    head: &Term,
    row: Row<'_>,
) -> Result<bool, AllocError>
    requires { IsFalse (has_first head.now) }
    ensures { IfOk result (λ b. row_walk (surroundings_at place.now) head.now row.entry.ty.now
        (parts_of row.entry.parts.now) context.old ≡ came b context.new) }
{
    match &head.form {
        Form::Local(k) => Ok(local_follows(context, *k, row)),
        Form::GlobalUse(k, types) => global_follows(place, *k, types, row),
        Form::Int(_) => Ok(plain_follows(Base::Int, row)),
        Form::Bool(_) => Ok(plain_follows(Base::Bool, row)),
        Form::Char(_) => Ok(plain_follows(Base::Char, row)),
        Form::Unit => Ok(plain_follows(Base::Unit, row)),
        Form::Pair(first, second) => pair_follows(place, context, first, second, row),
        Form::Make(family, maker, terms) => {
            make_follows(place, context, *family, *maker, terms, row)
        }
        Form::Lambda(uses, k, binder, body) => {
            lambda_follows(place, context, *uses, *k, binder, body, row)
        }
        Form::Apply(_, _) => unreachable!(),
        Form::Let(binder, value, body) => let_follows(place, context, binder, value, body, row),
        Form::Split(x, y, value, body) => { split_follows(place, context, x, y, value, body, row) }
        Form::If(condition, then, otherwise) => {
            if_follows(place, context, condition, then, otherwise, row)
        }
        Form::Case(value, arms) => case_follows(place, context, value, arms, row),
        Form::Operate(_, _, _) => unreachable!(),
        Form::Not(part) => negate_follows(place, context, part, row),
        Form::New(k) => channel_follows(place, *k, row),
        Form::Send(first, second) => send_follows(place, context, first, second, row),
        Form::Receive(part) => receive_follows(place, context, part, row),
        Form::Close(part) => close_follows(place, context, part, row),
        Form::Wait(part) => wait_follows(place, context, part, row),
        Form::Select(label, part) => select_follows(place, context, label, part, row),
        Form::Match(channel, arms) => match_follows(place, context, channel, arms, row),
        Form::Fork(part) => fork_follows(place, context, part, row),
        Form::Then(first, second) => seq_follows(place, context, first, second, row),
    }
}

/// Whether a tree is a derivation of a term.
#[cycle(follows)]
pub(crate) fn follows<'a>(
    place: &Place<'_>,
    context: &mut Context,
    term: &'a Term,
    derivation: &'a Derivation,
) -> Result<bool, AllocError>
    ensures { IfOk result (λ b. walk_of (surroundings_at place.now) term.now (deriv_of
        derivation.now) context.old ≡ came b context.new) }
{
    let Some(mut walk) = levels_of(place, term, derivation)? else {
        return Ok(false);
    };
    if !head_follows(place, context, walk.head, walk.row)? {
        return Ok(false);
    }
    while let Some(level) = pop_level(&mut walk.levels) {
        if !follows(place, context, level.term, level.derivation)? {
            return Ok(false);
        }
    }
    Ok(true)
}
