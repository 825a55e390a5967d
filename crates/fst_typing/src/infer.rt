// The plain derivation of a term, along its first parts.

ghost use Rattle.std.specs.Prelude.{◌≡◌, IfOk, IfErr, IsFalse};
ghost use Rattle.fst_terms.specs.Around.{has_first, second, wrap};
ghost use Rattle.fst_terms.specs.CoreTree.{CoreTree};
ghost use Rattle.fst_context.specs.Scope.{Scope};
ghost use Rattle.fst_derivations.specs.Deriv.{deriv_of, type_of};
ghost use Rattle.fst_derivations.specs.Parts.{IsFormed};
ghost use Rattle.fst_typing.specs.Typed.{IsTyped};
ghost use Rattle.fst_premises.specs.Shown.{place};
ghost use Rattle.fst_typing.specs.Shown.{IsRefused};
ghost use Rattle.fst_premises.specs.Scenes.{check_in, IsReady, IsSetUp};

use crate::comparing::applied;
use crate::infer_arms::{infer_case, infer_match};
use crate::infer_parts::{
    infer_close, infer_fork, infer_if, infer_make, infer_not, infer_pair, infer_receive,
    infer_select, infer_send, infer_then, infer_wait,
};
use crate::infer_under::{infer_function, infer_let, infer_split};
use crate::operands::{first_operand, operated};
use fst_context::Context;
use fst_derivations::Derivation;
use fst_premises::{
    CheckFault, Scene, function_parts, global_use, new_channel, place_of, plain_value, variable,
};
use fst_terms::{Form, Step, Term, pop_step, spine_of};
use fst_types::Base;
use std::alloc::Global;

/// The plain derivation of a term, whose linear variables are taken out of the context.
#[cycle(infer)]
pub(crate) fn infer(
    alloc: Global,
    scene: Scene<'_>,
    context: &mut Context,
    term: &Term,
) -> Result<Derivation, CheckFault>
    requires set_up { IsSetUp (check_in scene) }
    requires ready { IsReady (check_in scene) term.now context.old.variables }
    ensures typed { IfOk result (λ d. IsTyped
        (check_in scene.entry) context.old context.new term.now (deriv_of d)) }
    ensures refused { IfErr result (λ f. IsRefused (check_in scene.entry) term.now context.old f) }
{
    let mut spine = spine_of(alloc, term)?;
    let mut at = place_of(spine.head);
    let mut found = infer_head(alloc, scene, context, spine.head)?;
    while let Some(step) = pop_step(&mut spine.steps) {
        found = infer_step(alloc, scene, context, at, found, step)?;
        at = begin_of(step);
    }
    Ok(found)
}

/// Where the term of a step begins.
fn begin_of(step: Step<'_>) -> u32
    ensures { (e : CoreTree) → result ≡ place (wrap step.entry e) }
{
    match step {
        Step::Operate(at, _op, _second) => at,
        Step::Apply(at, _second) => at,
    }
}

/// The derivation of an operation or an application, from that of its first part, which begins at this place.
#[cycle(infer)]
fn infer_step(
    alloc: Global,
    scene: Scene<'_>,
    context: &mut Context,
    at: u32,
    first: Derivation,
    step: Step<'_>,
) -> Result<Derivation, CheckFault>
    requires set_up { IsSetUp (check_in scene) }
    requires ready { IsReady (check_in scene) (second step) context.old.variables }
    requires formed { IsFormed scene.vars.now (type_of (deriv_of first)) }
    ensures typed { IfOk result (λ d. (s : Scope) (e : CoreTree) →
        IsTyped (check_in scene.entry) s context.old e (deriv_of first) →
        IsTyped (check_in scene.entry) s context.new (wrap step.entry e) (deriv_of d)) }
    ensures refused { IfErr result (λ f. (s : Scope) (e : CoreTree) →
        IsTyped (check_in scene.entry) s context.old e (deriv_of first) → at ≡ place e →
        IsRefused (check_in scene.entry) (wrap step.entry e) s f) }
{
    match step {
        Step::Operate(_at, op, second) => {
            let left = first_operand(alloc, scene, at, op, first)?;
            let h = infer(alloc, scene, context, second)?;
            operated(alloc, scene, place_of(second), op, left, h)
        }
        Step::Apply(_at, second) => {
            let parts = function_parts(alloc, at, first.type_of())?;
            let h = infer(alloc, scene, context, second)?;
            applied(alloc, scene, place_of(second), parts, first, h)
        }
    }
}

/// The derivation of a term that is no operation and no application.
#[cycle(infer)]
fn infer_head(
    alloc: Global,
    scene: Scene<'_>,
    context: &mut Context,
    head: &Term,
) -> Result<Derivation, CheckFault>
    requires set_up { IsSetUp (check_in scene) }
    requires ready { IsReady (check_in scene) head.now context.old.variables }
    requires first { IsFalse (has_first head.now) }
    ensures typed { IfOk result (λ d. IsTyped
        (check_in scene.entry) context.old context.new head.now (deriv_of d)) }
    ensures refused { IfErr result (λ f. IsRefused (check_in scene.entry) head.now context.old f) }
{
    let at = place_of(head);
    match &head.form {
        Form::Local(k) => variable(alloc, scene, context, at, *k),
        Form::GlobalUse(k, ks) => global_use(alloc, scene, context, at, *k, ks),
        Form::Int(_number) => Ok(plain_value(alloc, Base::Int)),
        Form::Bool(_truth) => Ok(plain_value(alloc, Base::Bool)),
        Form::Char(_character) => Ok(plain_value(alloc, Base::Char)),
        Form::Unit => Ok(plain_value(alloc, Base::Unit)),
        Form::Pair(first, second) => infer_pair(alloc, scene, context, at, first, second),
        Form::Make(family, maker, arguments) => {
            infer_make(alloc, scene, context, at, *family, *maker, arguments)
        }
        Form::Lambda(uses, k, binder, body) => {
            infer_function(alloc, scene, context, at, *uses, *k, binder, body)
        }
        Form::Let(binder, first, second) => {
            infer_let(alloc, scene, context, at, binder, first, second)
        }
        Form::Split(left, right, first, second) => {
            infer_split(alloc, scene, context, at, left, right, first, second)
        }
        Form::If(condition, yes, no) => infer_if(alloc, scene, context, at, condition, yes, no),
        Form::Case(value, arms) => infer_case(alloc, scene, context, at, value, arms),
        Form::Not(part) => infer_not(alloc, scene, context, at, part),
        Form::New(k) => new_channel(alloc, scene, context, at, *k),
        Form::Send(value, channel) => infer_send(alloc, scene, context, at, value, channel),
        Form::Receive(channel) => infer_receive(alloc, scene, context, at, channel),
        Form::Close(channel) => infer_close(alloc, scene, context, at, channel),
        Form::Wait(channel) => infer_wait(alloc, scene, context, at, channel),
        Form::Select(label, channel) => infer_select(alloc, scene, context, at, label, channel),
        Form::Match(channel, arms) => infer_match(alloc, scene, context, at, channel, arms),
        Form::Fork(part) => infer_fork(alloc, scene, context, at, part),
        Form::Then(first, second) => infer_then(alloc, scene, context, at, first, second),
        Form::Operate(_op, _first, _second) => unreachable!(),
        Form::Apply(_first, _second) => unreachable!(),
    }
}
