ghost use Rattle.std.specs.Prelude.{◌≡◌, IfOk, IsSome, Some, true};
ghost use Rattle.fst_lts.specs.Step.{step};
ghost use Rattle.fst_cell.specs.Heads.{GoesOn, MovesOn};
ghost use Rattle.fst_lts.specs.Residuals.{sends, receives};

use crate::heads::{Next, head};
use fst_lts::{is_end, receiving_label, sending_label, step};
use fst_types::{Event, Label, MOST_OPEN, Ty};
use std::alloc::{AllocError, Global};

// What is left of a residual by a label by which it moves.
#[tactic(auto, using(crate::proofs::HeadLaws::head_moves, crate::proofs::HeadLaws::head_stays))]
fn next_by(alloc: Global, residual: &Ty, label: &Label) -> Result<Next, AllocError>
    requires { IsSome (step residual.now label.now) }
    ensures { IfOk result (λ next. MovesOn residual.now label.now next) }
{
    if is_end(label) {
        return Ok(Next::Ended);
    }
    let Some(first) = head(residual, MOST_OPEN)? else {
        unreachable!()
    };
    let Some(next) = step(alloc, first, label)? else {
        unreachable!()
    };
    Ok(Next::Head(next))
}

// What is left of it by an event that is sent.
#[tactic(auto, unfolding(fst_lts::specs::Residuals::sends), using(crate::proofs::HeadLaws::sent_on))]
pub(crate) fn next_sent(alloc: Global, residual: &Ty, event: &Event) -> Result<Next, AllocError>
    requires { sends (Some residual.now) event.now ≡ true }
    ensures { IfOk result (λ next. GoesOn residual.now event.now next) }
{
    let label = sending_label(alloc, event)?;
    next_by(alloc, residual, &label)
}

// What is left of it by an event that is received.
#[tactic(auto, unfolding(fst_lts::specs::Residuals::receives), using(crate::proofs::HeadLaws::received_on))]
fn next_received(alloc: Global, residual: &Ty, event: &Event) -> Result<Next, AllocError>
    requires { receives (Some residual.now) event.now ≡ true }
    ensures { IfOk result (λ next. GoesOn residual.now event.now next) }
{
    let label = receiving_label(alloc, event)?;
    next_by(alloc, residual, &label)
}

// The same, and the event twice.
pub(crate) fn room(
    alloc: Global,
    residual: &Ty,
    event: &Event,
) -> Result<(Next, Event, Event), AllocError>
    requires { receives (Some residual.now) event.now ≡ true }
    ensures { IfOk result (λ r. GoesOn residual.now event.now r.0 × (r.1 ≡ event.now) ×
        (r.2 ≡ event.now)) }
{
    let next = next_received(alloc, residual, event)?;
    Ok((next, event.copy(alloc)?, event.copy(alloc)?))
}
