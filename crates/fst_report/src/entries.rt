//! What passed over a channel as text, seen from its left end.

ghost use Rattle.std.specs.Prelude.{◌≡◌, ◌++◌, OnOk, codes};
ghost use Rattle.fst_base.specs.Gains.{Gains};
ghost use Rattle.fst_report.specs.ReportTexts.{behind_all, behind_event, entries_text, event_text, label_sign, sends, value_sign};

use crate::residual::Residual;
use fst_base::push_number;
use fst_types::{Entry, Event, Ty};
use fst_value::{push_quoted, truth_text};
use std::alloc::{AllocError, Global};

fn value_sign(out: bool) -> &'static str
    ensures { result.now ≡ value_sign out }
{
    if out { "!" } else { "?" }
}

fn label_sign(out: bool) -> &'static str
    ensures { result.now ≡ label_sign out }
{
    if out { "+" } else { "&" }
}

fn push_event(text: &mut String, out: bool, event: &Event) -> Result<(), AllocError>
    ensures { Gains result text.old text.new (event_text out event.now) }
{
    match event {
        Event::Int(number) => {
            text.push_str(value_sign(out))?;
            push_number(text, *number)
        }
        Event::Bool(truth) => {
            text.push_str(value_sign(out))?;
            text.push_str(truth_text(*truth))
        }
        Event::Char(character) => {
            text.push_str(value_sign(out))?;
            push_quoted(text, *character)
        }
        Event::Unit => {
            text.push_str(value_sign(out))?;
            text.push_str("()")
        }
        Event::Label(label) => {
            text.push_str(label_sign(out))?;
            text.push_str(label.as_str())
        }
        Event::Closed => text.push_str("closed"),
    }
}

// The next entry, where this is left of the left end's type.
fn push_entry(
    alloc: Global,
    text: &mut String,
    residual: &mut Residual,
    entry: &Entry,
) -> Result<(), AllocError>
    ensures text { Gains result text.old text.new
        (codes " " ++ event_text (sends residual.old entry.now.event) entry.now.event) }
    ensures left { OnOk result (residual.new ≡ behind_event residual.old entry.now.event) }
{
    let out = residual.advance(alloc, &entry.event)?;
    text.push_str(" ")?;
    push_event(text, out, &entry.event)
}

/// Entries of a history, where this is left of the left end's type: a space and the entry each.
pub(crate) fn push_part(
    alloc: Global,
    text: &mut String,
    residual: &mut Residual,
    entries: &[Entry],
) -> Result<(), AllocError>
    ensures text { Gains result text.old text.new (entries_text residual.old entries.now) }
    ensures left { OnOk result (residual.new ≡ behind_all residual.old entries.now) }
{
    for entry in entries {
        push_entry(alloc, text, residual, entry)?;
    }
    Ok(())
}

pub(crate) fn push_entries(
    alloc: Global,
    text: &mut String,
    declared: &Ty,
    entries: &[Entry],
) -> Result<(), AllocError>
    ensures { Gains result text.old text.new (entries_text declared.now entries.now) }
{
    let mut residual = Residual::of(alloc, declared)?;
    push_part(alloc, text, &mut residual, entries)
}
