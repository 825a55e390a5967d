// The types after the moves that terms ask of ends.

ghost use Rattle.std.specs.Prelude.{◌≡◌, Contains, IfOk, IfErr, IfSome, IsSome, MatchOption, OnOk, Some};
ghost use Rattle.fst_types.specs.Tree as tree;
ghost use Rattle.fst_types.specs.Tree.{Tree};
ghost use Rattle.fst_types.specs.declared.base.Base.{Base};
ghost use Rattle.fst_types.specs.declared.label.Label.TheVariants as label;
ghost use Rattle.fst_lts.specs.Step.{step};
ghost use Rattle.fst_premises.specs.Checks.{IsInSize};
ghost use Rattle.fst_premises.specs.Shown.{IsTooLargeAt, ShowsClose, ShowsReceive, ShowsSelect, ShowsSend, ShowsWait, IsShown};

use crate::builders::{base, pair_of};
use crate::fault::CheckFault;
use fst_lts::{StepFault, labels, step, step_within_limit};
use fst_types::{Base, Label, Move, Name, Ty, TyForm, copy};
use std::alloc::Global;

/// The type after a label; `at` is where it would be too large.
fn after(alloc: Global, at: u32, t: &Ty, a: &Label) -> Result<Option<Ty>, CheckFault>
    ensures next { IfOk result (λ next. next ≡ step t.now a.now) }
    ensures small { IfOk result (λ next. IfSome next IsInSize) }
    ensures refused { IfErr result (λ f. IsShown f
        ((next : Tree) × (step t.now a.now ≡ Some next) × IsTooLargeAt at next f)) }
{
    match step_within_limit(alloc, t, a) {
        Ok(next) => Ok(next),
        Err(StepFault::TooLarge) => Err(CheckFault::TooLarge(at)),
        Err(StepFault::Memory) => Err(CheckFault::Memory),
    }
}

/// The type of an end after a value of the type `value` was sent on it.
pub(crate) fn sent(alloc: Global, at: u32, value: &Ty, channel: &Ty) -> Result<Ty, CheckFault>
    ensures sent { IfOk result (λ next. (b : Base) × (value.now ≡ tree.plain b) ×
        (step channel.now (label.Send b) ≡ Some next)) }
    ensures small { IfOk result (λ t. IsInSize t) }
    ensures refused { IfErr result (λ f. IsShown f (ShowsSend at value.now channel.now f)) }
{
    if let TyForm::Plain(base) = &value.form {
        if let Some(next) = after(alloc, at, channel, &Label::Send(*base))? {
            return Ok(next);
        }
    }
    Err(CheckFault::NoSuchMove(at, copy(alloc, channel)?, Move::Send(copy(alloc, value)?)))
}

/// The payload that a label receives.
fn payload(a: &Label) -> Option<Base>
    ensures { MatchOption result ((b : Base) → a.now ≡ label.Receive b → ⊥)
        (λ b. a.now ≡ label.Receive b) }
{
    match a {
        Label::Receive(payload) => Some(*payload),
        Label::Send(_payload) => None,
        Label::Select(_name) => None,
        Label::Offer(_name) => None,
        Label::Close => None,
        Label::Wait => None,
        Label::Var(_variable) => None,
    }
}

/// The payload of the label among these that receives.
fn received_payload(labels: &[Label]) -> Option<Base>
    ensures { MatchOption result ((b : Base) → Contains labels.now (label.Receive b) → ⊥)
        (λ b. Contains labels.now (label.Receive b)) }
{
    for label in labels {
        if let Some(base) = payload(label) {
            return Some(base);
        }
    }
    None
}

/// What is received on an end by this payload, and the type of the end afterwards, as a pair.
fn received_at(alloc: Global, at: u32, channel: &Ty, payload: Base) -> Result<Ty, CheckFault>
    requires { IsSome (step channel.now (label.Receive payload)) }
    ensures received { IfOk result (λ t. (next : Tree) ×
        (step channel.now (label.Receive payload) ≡ Some next) ×
        (t ≡ tree.pair (tree.plain payload) next)) }
    ensures small { IfOk result (λ t. IsInSize t) }
    ensures refused { IfErr result (λ f. IsShown f
        ((next : Tree) × (step channel.now (label.Receive payload) ≡ Some next) ×
        IsTooLargeAt at (tree.pair (tree.plain payload) next) f)) }
{
    match after(alloc, at, channel, &Label::Receive(payload))? {
        Some(next) => pair_of(alloc, at, &base(payload), &next),
        None => unreachable!(),
    }
}

/// What is received on an end, and the type of the end afterwards, as a pair.
pub(crate) fn received(alloc: Global, at: u32, channel: &Ty) -> Result<Ty, CheckFault>
    ensures received { IfOk result (λ t. (b : Base) × (next : Tree) ×
        (step channel.now (label.Receive b) ≡ Some next) × (t ≡ tree.pair (tree.plain b) next)) }
    ensures small { IfOk result (λ t. IsInSize t) }
    ensures refused { IfErr result (λ f. IsShown f (ShowsReceive at channel.now f)) }
{
    let found = labels(alloc, channel)?;
    match received_payload(&found) {
        Some(payload) => received_at(alloc, at, channel, payload),
        None => Err(CheckFault::NoSuchMove(at, copy(alloc, channel)?, Move::Receive)),
    }
}

/// An end that can be closed.
pub(crate) fn closed(alloc: Global, at: u32, channel: &Ty) -> Result<(), CheckFault>
    ensures closed { OnOk result
        ((next : Tree) × (step channel.now label.Close ≡ Some next)) }
    ensures refused { IfErr result (λ f. IsShown f (ShowsClose at channel.now f)) }
{
    match step(alloc, channel, &Label::Close)? {
        Some(_next) => Ok(()),
        None => Err(CheckFault::NoSuchMove(at, copy(alloc, channel)?, Move::Close)),
    }
}

/// An end at which the other side's closing can be waited for.
pub(crate) fn awaited(alloc: Global, at: u32, channel: &Ty) -> Result<(), CheckFault>
    ensures awaited { OnOk result
        ((next : Tree) × (step channel.now label.Wait ≡ Some next)) }
    ensures refused { IfErr result (λ f. IsShown f (ShowsWait at channel.now f)) }
{
    match step(alloc, channel, &Label::Wait)? {
        Some(_next) => Ok(()),
        None => Err(CheckFault::NoSuchMove(at, copy(alloc, channel)?, Move::Wait)),
    }
}

/// The type of an end after a branch was selected on it.
pub(crate) fn selected(alloc: Global, at: u32, name: &Name, channel: &Ty) -> Result<Ty, CheckFault>
    ensures selected { IfOk result (λ next. step channel.now (label.Select name.now) ≡ Some next) }
    ensures small { IfOk result (λ t. IsInSize t) }
    ensures refused { IfErr result (λ f. IsShown f (ShowsSelect at name.now channel.now f)) }
{
    match after(alloc, at, channel, &Label::Select(name.copy(alloc)?))? {
        Some(next) => Ok(next),
        None => Err(CheckFault::NoSuchMove(
            at,
            copy(alloc, channel)?,
            Move::Select(name.copy(alloc)?),
        )),
    }
}

/// What is left of a type after an offered branch that it has.
pub fn offered(alloc: Global, at: u32, name: &Name, channel: &Ty) -> Result<Ty, CheckFault>
    requires { IsSome (step channel.now (label.Offer name.now)) }
    ensures offered { IfOk result (λ next. step channel.now (label.Offer name.now) ≡ Some next) }
    ensures small { IfOk result (λ t. IsInSize t) }
    ensures refused { IfErr result (λ f. IsShown f
        ((next : Tree) × (step channel.now (label.Offer name.now) ≡ Some next) ×
        IsTooLargeAt at next f)) }
{
    match after(alloc, at, channel, &Label::Offer(name.copy(alloc)?))? {
        Some(next) => Ok(next),
        None => unreachable!(),
    }
}
