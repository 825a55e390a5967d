// The parameters in front of an equation, each of which is looked at, entered and taken off by itself.

ghost use Rattle.std.specs.Prelude.{◌≡◌, ◌∷◌, ◌++◌, [], ◌<◌, ℕ, IfErr, IfSome, MatchOption, OnOk, length};
ghost use Rattle.fst_terms.specs.InRange.{IsInRange};
ghost use Rattle.fst_derivations.specs.Parts.{IsFormed};
ghost use Rattle.fst_derivations.specs.Modules.{HasNoParameter};
ghost use Rattle.fst_premises.specs.Scenes.{bounds, check_in};
ghost use Rattle.fst_premises.specs.Shown.{IsShown, IsTooLargeAt};
ghost use Rattle.fst_premises.specs.Parameters.{HasParameter, IsEntered};

use crate::binding::{begin_body, enter};
use crate::fault::CheckFault;
use crate::scene::{Scene, fits, type_at};
use fst_context::Context;
use fst_terms::{Binder, Form, Term};
use fst_types::{Ty, TyForm, Use, copy, same};
use std::alloc::Global;

/// The first parameter of an equation: the use of its arrow, its name, what is under it, the type of the equation, and the
/// types in front of its arrow and behind it.
#[derive(Clone, Copy)]
pub struct Parameter<'a> {
    pub uses: Use,
    pub binder: &'a Binder,
    pub body: &'a Term,
    pub wanted: &'a Ty,
    pub from: &'a Ty,
    pub to: &'a Ty,
}

/// The parameter in front of a term at this type: a function at the place of its variable, of just the arrow's type.
pub fn parameter_of<'a>(scene: Scene<'a>, wanted: &'a Ty, term: &'a Term) -> Option<Parameter<'a>>
    requires { (n : ℕ) × IsInRange (bounds (check_in scene)) n term.now }
    ensures { MatchOption result (HasNoParameter
        (check_in scene.entry).surroundings.types term.now wanted.now)
        (HasParameter (check_in scene.entry) term.now wanted.now) }
{
    let Form::Lambda(uses, k, binder, body) = &term.form else {
        return None;
    };
    if term.at != binder.at {
        return None;
    }
    match &wanted.form {
        TyForm::Arrow(arrow, from, to) if arrow == uses && same(from, type_at(scene, *k)) => {
            Some(Parameter {
                uses: *uses,
                binder,
                body,
                wanted,
                from,
                to,
            })
        }
        _ => None,
    }
}

/// Enters a parameter.
pub fn enter_parameter(
    alloc: Global,
    scene: Scene<'_>,
    context: &mut Context,
    parameter: Parameter<'_>,
) -> Result<(), CheckFault>
    requires { IsFormed scene.vars.now parameter.from.now }
    ensures entered { OnOk result (IsEntered
        (check_in scene.entry) parameter.entry context.old context.new) }
    ensures refused { IfErr result (λ f. IsShown f
        (IsTooLargeAt parameter.entry.binder.now.at parameter.entry.from.now f)) }
{
    fits(parameter.binder.at, parameter.from)?;
    begin_body(context, parameter.uses)?;
    let from = copy(alloc, parameter.from)?;
    enter(alloc, scene, context, parameter.binder, from)?;
    Ok(())
}

/// The innermost parameter, which is taken off.
#[tactic(auto, using(crate::proofs::ParameterLaws::last_popped))]
pub fn pop_parameter<'a>(parameters: &mut Vec<Parameter<'a>>) -> Option<Parameter<'a>>
    ensures less { IfSome result (λ p. length parameters.new.items < length parameters.old.items) }
    ensures items { MatchOption result (parameters.old.items ≡ [])
        (λ p. parameters.old.items ≡ parameters.new.items ++ p ∷ []) }
{
    parameters.pop()
}
