//! The text of events.

ghost use Rattle.std.specs.Prelude.{◌≡◌, IfOk, OnOk, suc};
ghost use Rattle.std.specs.String.{string_bytes};
ghost use Rattle.fst_base.specs.Gains.{Gains};
ghost use Rattle.fst_merge.specs.EventTexts.{events_text, fork_text, new_text};
ghost use Rattle.fst_merge.specs.Counts.{GainsEvent, GainsLine, IsCounted, MayCount, MayRise, counted};

use fst_base::push_number;
use fst_machine::Code;
use fst_runs::{CoreEvent, Stamped};
use fst_type_print::{push_channel, push_path};
use fst_types::Path;
use std::alloc::{AllocError, Global};
use std::collections::BTreeMap;

/// How many channels and how many tasks each task has made, by the paths of those that have made some.
#[derive(Drop)]
struct Made {
    channels: BTreeMap<Vec<u32>, u64>,
    tasks: BTreeMap<Vec<u32>, u64>,
}

/// The events of a run of the code as text, a line each.
pub fn events_text(alloc: Global, _code: &Code, events: &[Stamped]) -> Result<String, AllocError>
    ensures { IfOk result (λ text. string_bytes text ≡ events_text events.now) }
{
    let mut text = String::new(alloc);
    let mut made = Made {
        channels: BTreeMap::new(alloc),
        tasks: BTreeMap::new(alloc),
    };
    for event in events {
        push_line(alloc, &mut text, &mut made, event)?;
    }
    Ok(text)
}

// Adds the line of an event.
fn push_line(
    alloc: Global,
    text: &mut String,
    made: &mut Made,
    event: &Stamped,
) -> Result<(), AllocError>
    requires few { MayCount made.old }
    ensures { OnOk result (GainsLine event.now made.old made.new (string_bytes text.old)
        (string_bytes text.new)) }
{
    text.push_str("event ")?;
    push_number(text, event.stamp)?;
    text.push_str(" ")?;
    push_event(alloc, text, made, &event.event)?;
    text.push_str("\n")
}

// Adds what happens in an event.
fn push_event(
    alloc: Global,
    text: &mut String,
    made: &mut Made,
    event: &CoreEvent,
) -> Result<(), AllocError>
    requires few { MayCount made.old }
    ensures { OnOk result (GainsEvent event.now made.old made.new (string_bytes text.old)
        (string_bytes text.new)) }
{
    match event {
        CoreEvent::Local(path) => {
            text.push_str("local ")?;
            push_path(text, path)
        }
        CoreEvent::New(path) => push_new(alloc, text, &mut made.channels, path),
        CoreEvent::Fork(path) => push_fork(alloc, text, &mut made.tasks, path),
        CoreEvent::Meet(sender, receiver, channel) => {
            text.push_str("meet ")?;
            push_channel(text, channel)?;
            text.push_str(" ")?;
            push_path(text, sender)?;
            text.push_str(" ")?;
            push_path(text, receiver)
        }
    }
}

// Adds that a task makes a channel, and counts it.
fn push_new(
    alloc: Global,
    text: &mut String,
    counts: &mut BTreeMap<Vec<u32>, u64>,
    path: &Path,
) -> Result<(), AllocError>
    requires few { MayRise counts.old.entries path.now }
    ensures text { Gains result text.old text.new
        (new_text path.now (counted counts.old.entries path.now)) }
    ensures counts { OnOk result (IsCounted path.now counts.old.entries counts.new.entries) }
{
    text.push_str("new ")?;
    push_path(text, path)?;
    text.push_str(" ")?;
    push_path(text, path)?;
    text.push_str("#")?;
    let number = count(alloc, counts, path)?;
    push_number(text, number)
}

// Adds that a task makes a task, and counts it.
fn push_fork(
    alloc: Global,
    text: &mut String,
    counts: &mut BTreeMap<Vec<u32>, u64>,
    path: &Path,
) -> Result<(), AllocError>
    requires few { MayRise counts.old.entries path.now }
    ensures text { Gains result text.old text.new
        (fork_text path.now (counted counts.old.entries path.now)) }
    ensures counts { OnOk result (IsCounted path.now counts.old.entries counts.new.entries) }
{
    text.push_str("fork ")?;
    push_path(text, path)?;
    text.push_str(" ")?;
    push_path(text, path)?;
    if !path.as_slice().is_empty() {
        text.push_str(".")?;
    }
    let number = count(alloc, counts, path)?;
    push_number(text, number)
}

// Counts one more at a path, and answers how many there are then.
fn count(
    alloc: Global,
    counts: &mut BTreeMap<Vec<u32>, u64>,
    path: &Path,
) -> Result<u64, AllocError>
    requires few { MayRise counts.old.entries path.now }
    ensures number { IfOk result (λ n. n ≡ suc (counted counts.old.entries path.now)) }
    ensures counts { OnOk result (IsCounted path.now counts.old.entries counts.new.entries) }
{
    if let Some(count) = counts.get_mut(path.as_slice()) {
        *count += 1;
        return Ok(*count);
    }
    let key = Vec::from_slice(alloc, path.as_slice())?;
    counts.insert(key, 1)?;
    Ok(1)
}
