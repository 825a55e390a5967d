ghost use Rattle.std.specs.Prelude.{◌≡◌, IfOk, Some, length};
ghost use Rattle.std.specs.List.{flat_map};
ghost use Rattle.std.specs.String.{string_bytes};
ghost use Rattle.fst_types.specs.Named.{IsNamedWithin};
ghost use Rattle.fst_types.specs.Scoped.{IsScoped};
ghost use Rattle.fst_base.specs.Gains.{Gains};
ghost use Rattle.fst_report.specs.DeclaredTypes.{AreNamedWithin, AreScoped};
ghost use Rattle.fst_report.specs.ReportTexts.{history_line, history_text, report_text, result_line, type_line, waiting_text};

use crate::entries::push_entries;
use fst_type_print::{push_channel, push_path, side_text, type_text};
use fst_types::{ChannelHistory, Family};
use fst_value::{Value, print};
use fst_vm::{Report, Waiting};
use std::alloc::{AllocError, Global};

/// The line of main's value, or that it has none.
pub(crate) fn push_result(
    alloc: Global,
    text: &mut String,
    value: &Option<Value>,
    families: &[Family],
) -> Result<(), AllocError>
    ensures { Gains result text.old text.new (result_line families.now value.now) }
{
    text.push_str("result ")?;
    match value {
        Some(value) => text.push_str(&print(alloc, value, families)?)?,
        None => text.push_str("none")?,
    }
    text.push_str("\n")
}

fn push_waiting(text: &mut String, waiting: &Waiting) -> Result<(), AllocError>
    ensures { Gains result text.old text.new (waiting_text waiting.now) }
{
    text.push_str("waiting ")?;
    push_path(text, &waiting.task)?;
    text.push_str(" at ")?;
    push_channel(text, &waiting.end.channel)?;
    text.push_str(" ")?;
    text.push_str(side_text(waiting.end.side))?;
    text.push_str("\n")
}

/// The lines of the tasks that wait.
pub(crate) fn push_tasks(text: &mut String, tasks: &[Waiting]) -> Result<(), AllocError>
    ensures { Gains result text.old text.new (flat_map waiting_text tasks.now) }
{
    for task in tasks {
        push_waiting(text, task)?;
    }
    Ok(())
}

/// The line of a channel and its type.
pub(crate) fn push_type_line(
    alloc: Global,
    text: &mut String,
    channel: &ChannelHistory,
    families: &[Family],
) -> Result<(), AllocError>
    requires scoped { IsScoped 0 channel.now.declared }
    requires named { IsNamedWithin (length families.now) channel.now.declared }
    ensures { Gains result text.old text.new (type_line families.now channel.now) }
{
    text.push_str("channel ")?;
    push_channel(text, &channel.name)?;
    text.push_str(" : ")?;
    text.push_str(&type_text(alloc, &channel.declared, families)?)?;
    text.push_str("\n")
}

fn push_history_line(
    alloc: Global,
    text: &mut String,
    channel: &ChannelHistory,
) -> Result<(), AllocError>
    ensures { Gains result text.old text.new (history_line channel.now) }
{
    text.push_str("history ")?;
    push_channel(text, &channel.name)?;
    text.push_str(" :")?;
    push_entries(alloc, text, &channel.declared, &channel.entries)?;
    text.push_str("\n")
}

fn push_history(
    alloc: Global,
    text: &mut String,
    channel: &ChannelHistory,
    families: &[Family],
) -> Result<(), AllocError>
    requires scoped { IsScoped 0 channel.now.declared }
    requires named { IsNamedWithin (length families.now) channel.now.declared }
    ensures { Gains result text.old text.new (history_text families.now channel.now) }
{
    push_type_line(alloc, text, channel, families)?;
    push_history_line(alloc, text, channel)
}

fn push_channels(
    alloc: Global,
    text: &mut String,
    channels: &[ChannelHistory],
    families: &[Family],
) -> Result<(), AllocError>
    requires scoped { AreScoped channels.now }
    requires named { AreNamedWithin (length families.now) channels.now }
    ensures { Gains result text.old text.new (flat_map (history_text families.now) channels.now) }
{
    for channel in channels {
        push_history(alloc, text, channel, families)?;
    }
    Ok(())
}

/// The report of a run as text, a line each: the value of `main`, the tasks that wait, and the channels with what passed over
/// them, seen from their left ends.
pub fn report_text(alloc: Global, r: &Report, families: &[Family]) -> Result<String, AllocError>
    requires scoped { AreScoped r.now.channels.items }
    requires named { AreNamedWithin (length families.now) r.now.channels.items }
    ensures { IfOk result (λ text. string_bytes text ≡ report_text families.now r.now) }
{
    let mut text = String::new(alloc);
    push_result(alloc, &mut text, &r.result, families)?;
    push_tasks(&mut text, &r.waiting)?;
    push_channels(alloc, &mut text, &r.channels, families)?;
    Ok(text)
}
