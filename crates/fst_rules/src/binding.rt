ghost use Rattle.std.specs.Prelude.{◌≡◌, ◌≤◌, ◌<◌, ◌∷◌, [], IfOk, length, option_map};
ghost use Rattle.fst_terms.specs.InRange.{maker_named};
ghost use Rattle.fst_rules.specs.Levels.{binding_of, surroundings_at};
ghost use Rattle.fst_fits.specs.Tests.{family_number};
ghost use Rattle.fst_rules.specs.Walks.{bound_types, came, closed, closed_all, entered_all, family_of};

use crate::levels::Place;
use fst_context::{Context, Left};
use fst_fits::{types_at, use_in};
use fst_lts::step;
use fst_terms::Binder;
use fst_types::{Family, Label, Maker, Name, Ty, TyForm, copy};
use std::alloc::{AllocError, Global};

// What arms bind.

/// What the variables of arms hold: the fields of constructors, or what is left of a channel's type.
#[derive(Clone, Copy)]
pub(crate) enum Binds<'a> {
    Fields(&'a [Maker]),
    Rest(&'a Ty),
}

fn maker_named<'a>(makers: &'a [Maker], label: &Name) -> Option<&'a Maker>
    ensures { option_map (λ o. o.now) result ≡ maker_named label.now makers.now }
{
    for maker in makers {
        if label.as_slice() == maker.name.as_slice() {
            return Some(maker);
        }
    }
    None
}

// The only type.
fn one_type(alloc: Global, ty: Ty) -> Result<Vec<Ty>, AllocError>
    ensures { IfOk result (λ ts. ts.items ≡ ty ∷ []) }
{
    let mut types = Vec::new(alloc);
    types.push(ty)?;
    Ok(types)
}

/// The types of the variables that the arm of a constructor or of a label binds.
pub(crate) fn bound_types(
    place: &Place<'_>,
    binds: Binds<'_>,
    label: &Name,
) -> Result<Option<Vec<Ty>>, AllocError>
    ensures { IfOk result (λ o. option_map (λ ts. ts.items) o ≡ bound_types (surroundings_at
        place.now) (binding_of binds.entry) label.now) }
{
    match binds {
        Binds::Fields(makers) => match maker_named(makers, label) {
            Some(maker) => types_at(place.alloc, &place.module.types, &maker.fields),
            None => Ok(None),
        },
        Binds::Rest(channel) => {
            let label = Label::Offer(label.copy(place.alloc)?);
            match step(place.alloc, channel, &label)? {
                Some(next) => Ok(Some(one_type(place.alloc, next)?)),
                None => Ok(None),
            }
        }
    }
}

/// Enters variables of these types, which have to be as many.
#[tactic(auto, using(crate::proofs::ArmLaws::none_entered))]
pub(crate) fn enter_all(
    place: &Place<'_>,
    context: &mut Context,
    binders: &[Binder],
    types: &[Ty],
) -> Result<bool, AllocError>
    ensures { IfOk result (λ b. entered_all place.now.vars.now binders.now types.now context.old
        ≡ came b context.new) }
{
    if binders.len() != types.len() {
        return Ok(false);
    }
    for (i, binder) in binders.iter().enumerate() {
        let ty = &types[i];
        let Some(uses) = use_in(place.alloc, place.vars, ty)? else {
            return Ok(false);
        };
        context.enter(binder, copy(place.alloc, ty)?, uses)?;
    }
    Ok(true)
}

/// The innermost variable is left, which has to be taken.
pub(crate) fn closes(context: &mut Context) -> bool
    requires { 0 < length context.old.variables }
    ensures { closed context.old ≡ came result context.new }
{
    match context.leave() {
        Left::Used => true,
        Left::Unused => false,
    }
}

/// So many of the innermost variables are left, which have to be taken.
pub(crate) fn close_all(context: &mut Context, n: usize) -> bool
    requires { n ≤ length context.old.variables }
    ensures { closed_all n context.old ≡ came result context.new }
{
    let mut i = 0;
    while i < n {
        if !closes(context) {
            return false;
        }
        i += 1;
    }
    true
}

/// The data type that a type is.
pub(crate) fn family_at<'a>(families: &'a [Family], ty: &Ty) -> Option<&'a Family>
    ensures { option_map (λ f. f.now) result ≡ family_of families.now (family_number ty.now) }
{
    match &ty.form {
        TyForm::Named(n) => families.get(*n as usize),
        _ => None,
    }
}
