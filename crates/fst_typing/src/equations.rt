// The plain derivation of an equation: its parameters have the types in front of its signature's arrows, and the term under
// them is compared with the result.

ghost use Rattle.std.specs.Prelude.{◌≡◌, ◌∷◌, ◌++◌, [], ◌<◌, IfErr, IfOk, length};
ghost use Rattle.fst_types.specs.Tree.{Tree};
ghost use Rattle.fst_types.specs.declared.kind.Use.TheVariants.{Many};
ghost use Rattle.fst_terms.specs.CoreTree.{CoreTree};
ghost use Rattle.fst_context.specs.Scope.{Scope};
ghost use Rattle.fst_derivations.specs.Deriv.{deriv_of};
ghost use Rattle.fst_derivations.specs.Parts.{IsFormed};
ghost use Rattle.fst_derivations.specs.Modules.{HasNoParameter};
ghost use Rattle.fst_premises.specs.Scenes.{check_in, IsReady, IsSetUp};
ghost use Rattle.fst_premises.specs.Shown.{IsShown};
ghost use Rattle.fst_premises.specs.Checks.{Check};
ghost use Rattle.fst_premises.specs.Parameters.{AreEntered, HasParameter, IsEntered};
ghost use Rattle.fst_typing.specs.Equations.{IsEquationTyped, ShowsEquation, ShowsResult};

use crate::comparing::compared;
use crate::infer::infer;
use fst_context::Context;
use fst_derivations::Derivation;
use fst_premises::{
    CheckFault, Parameter, Scene, end_body, enter_parameter, leave, parameter_of, place_of,
    pop_parameter,
};
use fst_terms::Term;
use fst_types::{Ty, copy};
use std::alloc::Global;

/// An equation from the inside: its parameters, the first outermost, the term under them and the type that it is to have.
#[derive(Drop)]
pub(crate) struct Entered<'a> {
    parameters: Vec<Parameter<'a>>,
    body: &'a Term,
    to: &'a Ty,
}

/// Enters the parameters of an equation, from the first one.
fn enter_parameters<'a>(
    alloc: Global,
    scene: Scene<'a>,
    context: &mut Context,
    wanted: &'a Ty,
    term: &'a Term,
) -> Result<Entered<'a>, CheckFault>
    requires ready { IsReady (check_in scene) term.now context.old.variables }
    requires formed { IsFormed scene.vars.now wanted.now }
    ensures entered { IfOk result (λ o. AreEntered
        (check_in scene.entry) term.now wanted.now context.old o.parameters.items o.body.now
        o.to.now context.new) }
    ensures last { IfOk result (λ o. HasNoParameter
        (check_in scene.entry).surroundings.types o.body.now o.to.now) }
    ensures ready { IfOk result (λ o. IsReady
        (check_in scene.entry) o.body.now context.new.variables) }
    ensures formed { IfOk result (λ o. IsFormed scene.entry.vars.now o.to.now) }
    ensures refused { IfErr result (λ f. IsShown f
        (ShowsEquation (check_in scene.entry) term.now wanted.now context.old f)) }
{
    let mut parameters = Vec::new(alloc);
    let mut body = term;
    let mut to = wanted;
    while let Some(parameter) = parameter_of(scene, to, body) {
        enter_parameter(alloc, scene, context, parameter)?;
        parameters.push(parameter)?;
        body = parameter.body;
        to = parameter.to;
    }
    Ok(Entered {
        parameters,
        body,
        to,
    })
}

/// The derivation of an equation with a parameter, which is left, from that of what is under it.
fn leave_parameter(
    alloc: Global,
    context: &mut Context,
    parameter: Parameter<'_>,
    under: Derivation,
) -> Result<Derivation, CheckFault>
    requires some { 0 < length context.old.variables }
    requires bodies { parameter.uses ≡ Many → 0 < length context.old.bodies }
    ensures typed { IfOk result (λ d. (c : Check) (e : CoreTree) (t : Tree) (s z : Scope) →
        HasParameter c e t parameter.entry → IsEntered c parameter.entry s z →
        IsEquationTyped c parameter.entry.to.now z context.old parameter.entry.body.now
        (deriv_of under) →
        IsEquationTyped c t s context.new e (deriv_of d)) }
    ensures refused { IfErr result (λ f. (c : Check) (e : CoreTree) (t : Tree) (s z : Scope) →
        HasParameter c e t parameter.entry → IsEntered c parameter.entry s z →
        IsEquationTyped c parameter.entry.to.now z context.old parameter.entry.body.now
        (deriv_of under) →
        IsShown f (ShowsEquation c e t s f)) }
{
    leave(alloc, context, parameter.binder)?;
    end_body(context, parameter.uses);
    let t = copy(alloc, parameter.wanted)?;
    Ok(Derivation::with_one(alloc, t, under)?)
}

/// The derivation of an equation without parameters, compared with its type.
fn infer_result(
    alloc: Global,
    scene: Scene<'_>,
    context: &mut Context,
    wanted: &Ty,
    term: &Term,
) -> Result<Derivation, CheckFault>
    requires set_up { IsSetUp (check_in scene) }
    requires ready { IsReady (check_in scene) term.now context.old.variables }
    requires formed { IsFormed scene.vars.now wanted.now }
    ensures typed { IfOk result (λ d. HasNoParameter
        (check_in scene.entry).surroundings.types term.now wanted.now →
        IsEquationTyped (check_in scene.entry) wanted.now context.old context.new term.now
        (deriv_of d)) }
    ensures refused { IfErr result (λ f. IsShown f
        (ShowsResult (check_in scene.entry) term.now wanted.now context.old f)) }
{
    let found = infer(alloc, scene, context, term)?;
    compared(alloc, scene, place_of(term), wanted, found)
}

/// The derivation of an equation at its type, whose linear variables are taken out of the context. Its parameters are
/// entered from the first one and left from the last, in loops, so many of them take no deep stack.
pub(crate) fn infer_equation(
    alloc: Global,
    scene: Scene<'_>,
    context: &mut Context,
    wanted: &Ty,
    term: &Term,
) -> Result<Derivation, CheckFault>
    requires set_up { IsSetUp (check_in scene) }
    requires ready { IsReady (check_in scene) term.now context.old.variables }
    requires formed { IsFormed scene.vars.now wanted.now }
    ensures typed { IfOk result (λ d. IsEquationTyped
        (check_in scene.entry) wanted.now context.old context.new term.now (deriv_of d)) }
    ensures refused { IfErr result (λ f. IsShown f
        (ShowsEquation (check_in scene.entry) term.now wanted.now context.old f)) }
{
    let mut entered = enter_parameters(alloc, scene, context, wanted, term)?;
    let mut found = infer_result(alloc, scene, context, entered.to, entered.body)?;
    while let Some(parameter) = pop_parameter(&mut entered.parameters) {
        found = leave_parameter(alloc, context, parameter, found)?;
    }
    Ok(found)
}
