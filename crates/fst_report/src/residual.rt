//! What is left of a type behind the events of a history.

ghost use Rattle.std.specs.Prelude.{◌≡◌, ◌<◌, ◌+◌, ◌∷◌, [], IfOk, OnOk, MatchOption, reverse};
ghost use Rattle.fst_types.specs.Size.{nodes};
ghost use Rattle.fst_report.specs.Parts.{GoOn, MoveAlike, MovesFirst, left_in, nodes_in};
ghost use Rattle.fst_report.specs.ReportTexts.{behind_event, sends};

use fst_lts::{is_end, receiving_label, sending_label, step, terminated};
use fst_types::{Event, Label, Ty, TyForm, copy};
use std::alloc::{AllocError, Global};
use std::marker::Model;

/// What is left of a type, which contracts see as a type. Its parts are kept one after another, the first of them last in the
/// list, so that an event costs no more than the part that moves by it, however much stands behind that part.
#[derive(Drop)]
pub(crate) struct Residual {
    parts: Vec<Ty>,
}

impl Model for Residual {
    ghost use Rattle.fst_types.specs.Tree.{Tree};
    ghost use Rattle.fst_types.specs.ModelCode.{tree_code};
    ghost use Rattle.fst_report.specs.Parts.{left_in};

    ghost Value = { Tree };

    ghost coded = { tree_code };

    ghost view = { λ r. left_in r.parts.items };
}

impl Residual {
    /// The whole type.
    pub(crate) fn of(alloc: Global, ty: &Ty) -> Result<Residual, AllocError>
        ensures { IfOk result (λ r. r ≡ ty.now) }
    {
        let mut parts = Vec::new(alloc);
        push(&mut parts, copy(alloc, ty)?)?;
        Ok(Residual { parts })
    }

    /// Goes on to what is left behind the event, and says whether the event is sent.
    pub(crate) fn advance(&mut self, alloc: Global, event: &Event) -> Result<bool, AllocError>
        ensures sends { IfOk result (λ out. out ≡ sends self.old event.now) }
        ensures left { OnOk result (self.new ≡ behind_event self.old event.now) }
    {
        advance_parts(alloc, &mut self.parts, event)
    }
}

fn push(parts: &mut Vec<Ty>, part: Ty) -> Result<(), AllocError>
    ensures { OnOk result (reverse parts.new.items ≡ part ∷ reverse parts.old.items) }
{
    parts.push(part)?;
    Ok(())
}

fn pop(parts: &mut Vec<Ty>) -> Option<Ty>
    ensures { MatchOption result (reverse parts.old.items ≡ [])
        (λ t. reverse parts.old.items ≡ t ∷ reverse parts.new.items) }
{
    parts.pop()
}

// Gives the part where it moves. The two parts of a sequence are put back, and a part without moves is let go.
fn take_apart(parts: &mut Vec<Ty>, part: Ty) -> Result<Option<Ty>, AllocError>
    ensures moves { IfOk result (λ found. MatchOption found
        (MoveAlike (part ∷ reverse parts.old.items) (reverse parts.new.items))
        (λ t. MovesFirst t (reverse parts.new.items) (part ∷ reverse parts.old.items))) }
    ensures less { IfOk result (λ found. MatchOption found
        (nodes_in (reverse parts.new.items) < nodes part + nodes_in (reverse parts.old.items))
        (λ t. reverse parts.new.items ≡ reverse parts.old.items)) }
{
    match part.form {
        TyForm::Seq(first, second) => {
            push(parts, Box::into_inner(second))?;
            push(parts, Box::into_inner(first))?;
            Ok(None)
        }
        form => {
            let part = Ty { form };
            if terminated(&part) {
                Ok(None)
            } else {
                Ok(Some(part))
            }
        }
    }
}

// Takes the first part that moves, or `Skip` where none does.
fn next_part(parts: &mut Vec<Ty>) -> Result<Ty, AllocError>
    ensures { IfOk result (λ part. MovesFirst part (reverse parts.new.items)
        (reverse parts.old.items)) }
{
    while let Some(part) = pop(parts) {
        if let Some(found) = take_apart(parts, part)? {
            return Ok(found);
        }
    }
    Ok(Ty { form: TyForm::Skip })
}

// Goes on by the label, and says whether the part in front moves by it. Where a protocol ends by the label nothing is left; else
// the parts behind the one in front stay as they are.
fn advance_by(
    alloc: Global,
    parts: &mut Vec<Ty>,
    part: &Ty,
    label: &Label,
) -> Result<bool, AllocError>
    ensures { IfOk result (GoOn part.now label.now (reverse parts.old.items)
        (reverse parts.new.items)) }
{
    let Some(behind) = step(alloc, part, label)? else {
        return Ok(false);
    };
    if is_end(label) {
        parts.clear();
    } else {
        push(parts, behind)?;
    }
    Ok(true)
}

// Goes on to what is left behind the event, and says whether an end of this type sends it.
fn advance_parts(alloc: Global, parts: &mut Vec<Ty>, event: &Event) -> Result<bool, AllocError>
    ensures sends { IfOk result (λ out. out ≡ sends (left_in parts.old.items) event.now) }
    ensures left { OnOk result (left_in parts.new.items ≡ behind_event
        (left_in parts.old.items) event.now) }
{
    let part = next_part(parts)?;
    let sent = sending_label(alloc, event)?;
    if advance_by(alloc, parts, &part, &sent)? {
        return Ok(true);
    }
    let received = receiving_label(alloc, event)?;
    if !advance_by(alloc, parts, &part, &received)? {
        parts.clear();
    }
    Ok(false)
}
