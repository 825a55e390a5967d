// The plain derivations of terms whose parts are looked at one after another, and of branches.

ghost use Rattle.std.specs.Prelude.{IfOk, IfErr, List};
ghost use Rattle.fst_types.specs.Tree.{Tree};
ghost use Rattle.fst_terms.specs.CoreTree.{close, fork, if_else, make, negate, pair, receive, select, send, seq, wait};
ghost use Rattle.fst_terms.specs.ModelCoreView.{cores_of};
ghost use Rattle.fst_derivations.specs.Deriv.{deriv_of, parts_of};
ghost use Rattle.fst_derivations.specs.Parts.{AreAt};
ghost use Rattle.fst_typing.specs.Typed.{AreFieldsTyped, IsTyped};
ghost use Rattle.fst_premises.specs.Shown.{IsShown};
ghost use Rattle.fst_typing.specs.Shown.{ShowsFields, IsRefused};
ghost use Rattle.fst_premises.specs.Scenes.{check_in, IsReady, IsSetUp};
ghost use Rattle.fst_typing.specs.Scenes.{AreFieldsReady};

use crate::comparing::{compared, joined, negated, truth};
use crate::infer::infer;
use fst_context::Context;
use fst_derivations::Derivation;
use fst_premises::{
    CheckFault, Scene, awaited_row, branches, closed_row, fields_of, forked_row, may_be_dropped,
    named, pair_row, place_of, received_row, selected_row, sent_row, sequence, type_at,
};
use fst_terms::Term;
use fst_types::Name;
use std::alloc::Global;

/// The derivation of a pair.
#[cycle(infer)]
pub(crate) fn infer_pair(
    alloc: Global,
    scene: Scene<'_>,
    context: &mut Context,
    at: u32,
    first: &Term,
    second: &Term,
) -> Result<Derivation, CheckFault>
    requires set_up { IsSetUp (check_in scene) }
    requires ready { IsReady (check_in scene) (pair at first.now second.now) context.old.variables }
    ensures typed { IfOk result (λ d. IsTyped (check_in scene.entry) context.old context.new
        (pair at first.now second.now) (deriv_of d)) }
    ensures refused { IfErr result (λ f. IsRefused (check_in scene.entry)
        (pair at first.now second.now) context.old f) }
{
    let d = infer(alloc, scene, context, first)?;
    let h = infer(alloc, scene, context, second)?;
    pair_row(alloc, at, d, h)
}

/// The derivations of a constructor's arguments, each compared with its field's type.
#[cycle(infer)]
fn infer_fields(
    alloc: Global,
    scene: Scene<'_>,
    context: &mut Context,
    arguments: &[Term],
    fields: &[u32],
) -> Result<Vec<Derivation>, CheckFault>
    requires set_up { IsSetUp (check_in scene) }
    requires ready { AreFieldsReady (check_in scene)
        (cores_of arguments.now) fields.now context.old.variables }
    ensures typed { IfOk result (λ ds. (ts : List Tree) →
        AreAt scene.entry.module.now.types.items fields.now ts →
        AreFieldsTyped (check_in scene.entry) (cores_of arguments.now) ts context.old context.new
        (parts_of ds.items)) }
    ensures refused { IfErr result (λ f. (ts : List Tree) →
        AreAt scene.entry.module.now.types.items fields.now ts →
        IsShown f (ShowsFields (check_in scene.entry) (cores_of arguments.now) ts context.old f)) }
{
    let mut parts = Vec::new(alloc);
    for i in 0..arguments.len() {
        let argument = &arguments[i];
        let d = infer(alloc, scene, context, argument)?;
        let wanted = type_at(scene, fields[i]);
        parts.push(compared(alloc, scene, place_of(argument), wanted, d)?)?;
    }
    Ok(parts)
}

/// The derivation of a constructor with its arguments.
#[cycle(infer)]
pub(crate) fn infer_make(
    alloc: Global,
    scene: Scene<'_>,
    context: &mut Context,
    at: u32,
    family: u32,
    maker: u32,
    arguments: &[Term],
) -> Result<Derivation, CheckFault>
    requires set_up { IsSetUp (check_in scene) }
    requires ready { IsReady (check_in scene)
        (make at family maker (cores_of arguments.now)) context.old.variables }
    ensures typed { IfOk result (λ d. IsTyped (check_in scene.entry) context.old context.new
        (make at family maker (cores_of arguments.now)) (deriv_of d)) }
    ensures refused { IfErr result (λ f. IsRefused (check_in scene.entry)
        (make at family maker (cores_of arguments.now)) context.old f) }
{
    let fields = fields_of(scene, family, maker);
    let parts = infer_fields(alloc, scene, context, arguments, fields)?;
    Ok(Derivation::row(named(family), parts))
}

/// The derivation of a term with a condition.
#[cycle(infer)]
pub(crate) fn infer_if(
    alloc: Global,
    scene: Scene<'_>,
    context: &mut Context,
    at: u32,
    condition: &Term,
    yes: &Term,
    no: &Term,
) -> Result<Derivation, CheckFault>
    requires set_up { IsSetUp (check_in scene) }
    requires ready { IsReady (check_in scene)
        (if_else at condition.now yes.now no.now) context.old.variables }
    ensures typed { IfOk result (λ d. IsTyped (check_in scene.entry) context.old context.new
        (if_else at condition.now yes.now no.now) (deriv_of d)) }
    ensures refused { IfErr result (λ f. IsRefused (check_in scene.entry)
        (if_else at condition.now yes.now no.now) context.old f) }
{
    let found = infer(alloc, scene, context, condition)?;
    let tested = truth(alloc, scene, place_of(condition), found)?;
    let before = context.marks()?;
    let d = infer(alloc, scene, context, yes)?;
    let after = context.exchange(before);
    let h = infer(alloc, scene, context, no)?;
    let other = joined(alloc, scene, context, &after, place_of(no), d.type_of(), h)?;
    Ok(branches(alloc, tested, d, other)?)
}

/// The derivation of the other truth value.
#[cycle(infer)]
pub(crate) fn infer_not(
    alloc: Global,
    scene: Scene<'_>,
    context: &mut Context,
    at: u32,
    part: &Term,
) -> Result<Derivation, CheckFault>
    requires set_up { IsSetUp (check_in scene) }
    requires ready { IsReady (check_in scene) (negate at part.now) context.old.variables }
    ensures typed { IfOk result (λ d. IsTyped (check_in scene.entry) context.old context.new
        (negate at part.now) (deriv_of d)) }
    ensures refused { IfErr result (λ f. IsRefused (check_in scene.entry)
        (negate at part.now) context.old f) }
{
    let d = infer(alloc, scene, context, part)?;
    negated(alloc, scene, place_of(part), d)
}

/// The derivation of a value that is sent.
#[cycle(infer)]
pub(crate) fn infer_send(
    alloc: Global,
    scene: Scene<'_>,
    context: &mut Context,
    at: u32,
    value: &Term,
    channel: &Term,
) -> Result<Derivation, CheckFault>
    requires set_up { IsSetUp (check_in scene) }
    requires ready { IsReady (check_in scene)
        (send at value.now channel.now) context.old.variables }
    ensures typed { IfOk result (λ d. IsTyped (check_in scene.entry) context.old context.new
        (send at value.now channel.now) (deriv_of d)) }
    ensures refused { IfErr result (λ f. IsRefused (check_in scene.entry)
        (send at value.now channel.now) context.old f) }
{
    let d = infer(alloc, scene, context, value)?;
    let h = infer(alloc, scene, context, channel)?;
    sent_row(alloc, at, d, h)
}

/// The derivation of a value that is received.
#[cycle(infer)]
pub(crate) fn infer_receive(
    alloc: Global,
    scene: Scene<'_>,
    context: &mut Context,
    at: u32,
    channel: &Term,
) -> Result<Derivation, CheckFault>
    requires set_up { IsSetUp (check_in scene) }
    requires ready { IsReady (check_in scene) (receive at channel.now) context.old.variables }
    ensures typed { IfOk result (λ d. IsTyped (check_in scene.entry) context.old context.new
        (receive at channel.now) (deriv_of d)) }
    ensures refused { IfErr result (λ f. IsRefused (check_in scene.entry)
        (receive at channel.now) context.old f) }
{
    let d = infer(alloc, scene, context, channel)?;
    received_row(alloc, at, d)
}

/// The derivation of an end that is closed.
#[cycle(infer)]
pub(crate) fn infer_close(
    alloc: Global,
    scene: Scene<'_>,
    context: &mut Context,
    at: u32,
    channel: &Term,
) -> Result<Derivation, CheckFault>
    requires set_up { IsSetUp (check_in scene) }
    requires ready { IsReady (check_in scene) (close at channel.now) context.old.variables }
    ensures typed { IfOk result (λ d. IsTyped (check_in scene.entry) context.old context.new
        (close at channel.now) (deriv_of d)) }
    ensures refused { IfErr result (λ f. IsRefused (check_in scene.entry)
        (close at channel.now) context.old f) }
{
    let d = infer(alloc, scene, context, channel)?;
    closed_row(alloc, at, d)
}

/// The derivation of an end at which the other side's closing is waited for.
#[cycle(infer)]
pub(crate) fn infer_wait(
    alloc: Global,
    scene: Scene<'_>,
    context: &mut Context,
    at: u32,
    channel: &Term,
) -> Result<Derivation, CheckFault>
    requires set_up { IsSetUp (check_in scene) }
    requires ready { IsReady (check_in scene) (wait at channel.now) context.old.variables }
    ensures typed { IfOk result (λ d. IsTyped (check_in scene.entry) context.old context.new
        (wait at channel.now) (deriv_of d)) }
    ensures refused { IfErr result (λ f. IsRefused (check_in scene.entry)
        (wait at channel.now) context.old f) }
{
    let d = infer(alloc, scene, context, channel)?;
    awaited_row(alloc, at, d)
}

/// The derivation of a branch that is selected.
#[cycle(infer)]
pub(crate) fn infer_select(
    alloc: Global,
    scene: Scene<'_>,
    context: &mut Context,
    at: u32,
    label: &Name,
    channel: &Term,
) -> Result<Derivation, CheckFault>
    requires set_up { IsSetUp (check_in scene) }
    requires ready { IsReady (check_in scene)
        (select at label.now channel.now) context.old.variables }
    ensures typed { IfOk result (λ d. IsTyped (check_in scene.entry) context.old context.new
        (select at label.now channel.now) (deriv_of d)) }
    ensures refused { IfErr result (λ f. IsRefused (check_in scene.entry)
        (select at label.now channel.now) context.old f) }
{
    let d = infer(alloc, scene, context, channel)?;
    selected_row(alloc, at, label, d)
}

/// The derivation of a term in a task of its own.
#[cycle(infer)]
pub(crate) fn infer_fork(
    alloc: Global,
    scene: Scene<'_>,
    context: &mut Context,
    at: u32,
    part: &Term,
) -> Result<Derivation, CheckFault>
    requires set_up { IsSetUp (check_in scene) }
    requires ready { IsReady (check_in scene) (fork at part.now) context.old.variables }
    ensures typed { IfOk result (λ d. IsTyped (check_in scene.entry) context.old context.new
        (fork at part.now) (deriv_of d)) }
    ensures refused { IfErr result (λ f. IsRefused (check_in scene.entry)
        (fork at part.now) context.old f) }
{
    let d = infer(alloc, scene, context, part)?;
    forked_row(alloc, scene.vars, place_of(part), d)
}

/// The derivation of one term after another.
#[cycle(infer)]
pub(crate) fn infer_then(
    alloc: Global,
    scene: Scene<'_>,
    context: &mut Context,
    at: u32,
    first: &Term,
    second: &Term,
) -> Result<Derivation, CheckFault>
    requires set_up { IsSetUp (check_in scene) }
    requires ready { IsReady (check_in scene) (seq at first.now second.now) context.old.variables }
    ensures typed { IfOk result (λ d. IsTyped (check_in scene.entry) context.old context.new
        (seq at first.now second.now) (deriv_of d)) }
    ensures refused { IfErr result (λ f. IsRefused (check_in scene.entry)
        (seq at first.now second.now) context.old f) }
{
    let d = infer(alloc, scene, context, first)?;
    may_be_dropped(alloc, scene.vars, place_of(first), d.type_of())?;
    let h = infer(alloc, scene, context, second)?;
    Ok(sequence(alloc, d, h)?)
}
