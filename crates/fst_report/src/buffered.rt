//! The report of a buffered run as text.

ghost use Rattle.std.specs.Prelude.{◌≡◌, ◌≤◌, IfOk, length};
ghost use Rattle.std.specs.String.{string_bytes};
ghost use Rattle.fst_base.specs.Gains.{Gains};
ghost use Rattle.fst_report.specs.DeclaredTypes.{AreNamedWithin, AreScoped};
ghost use Rattle.fst_report.specs.BufferedTexts.{AreWithin, buffered_text, channels_text, parted_line, parted_text, unread_text};

use crate::entries::push_part;
use crate::report::{push_result, push_tasks, push_type_line};
use crate::residual::Residual;
use fst_type_print::push_channel;
use fst_types::{ChannelHistory, Entry, Family, Ty};
use fst_vm::Report;
use std::alloc::{AllocError, Global};

// What one side has not taken, where this is left of the left end's type.
fn push_unread(
    alloc: Global,
    text: &mut String,
    residual: &mut Residual,
    entries: &[Entry],
) -> Result<(), AllocError>
    ensures { Gains result text.old text.new (unread_text residual.old entries.now) }
{
    if entries.is_empty() {
        return Ok(());
    }
    text.push_str(" unread")?;
    push_part(alloc, text, residual, entries)
}

// So many entries of a history, and then those that one side has not taken.
fn push_parted(
    alloc: Global,
    text: &mut String,
    declared: &Ty,
    entries: &[Entry],
    taken: usize,
) -> Result<(), AllocError>
    requires { taken ≤ length entries.now }
    ensures { Gains result text.old text.new (parted_text declared.now taken entries.now) }
{
    let mut residual = Residual::of(alloc, declared)?;
    push_part(alloc, text, &mut residual, &entries[..taken])?;
    push_unread(alloc, text, &mut residual, &entries[taken..])
}

fn push_parted_line(
    alloc: Global,
    text: &mut String,
    channel: &ChannelHistory,
    unread: u64,
) -> Result<(), AllocError>
    requires { unread ≤ length channel.now.entries.items }
    ensures { Gains result text.old text.new (parted_line channel.now unread) }
{
    text.push_str("history ")?;
    push_channel(text, &channel.name)?;
    text.push_str(" :")?;
    let taken = channel.entries.len() - unread as usize;
    push_parted(alloc, text, &channel.declared, &channel.entries, taken)?;
    text.push_str("\n")
}

fn push_channels(
    alloc: Global,
    text: &mut String,
    channels: &[ChannelHistory],
    unread: &[u64],
    families: &[Family],
) -> Result<(), AllocError>
    requires scoped { AreScoped channels.now }
    requires named { AreNamedWithin (length families.now) channels.now }
    requires within { AreWithin channels.now unread.now }
    ensures { Gains result text.old text.new (channels_text families.now channels.now unread.now) }
{
    let mut index = 0;
    for channel in channels {
        push_type_line(alloc, text, channel, families)?;
        push_parted_line(alloc, text, channel, unread[index])?;
        index += 1;
    }
    Ok(())
}

/// The report of a buffered run as text, a line each: the value of `main`, the tasks that wait, and the channels with what was
/// taken of each and then what one side has not taken, seen from their left ends.
pub fn buffered_text(
    alloc: Global,
    r: &Report,
    unread: &[u64],
    families: &[Family],
) -> Result<String, AllocError>
    requires scoped { AreScoped r.now.channels.items }
    requires named { AreNamedWithin (length families.now) r.now.channels.items }
    requires within { AreWithin r.now.channels.items unread.now }
    ensures { IfOk result (λ text. string_bytes text ≡ buffered_text families.now r.now
        unread.now) }
{
    let mut text = String::new(alloc);
    push_result(alloc, &mut text, &r.result, families)?;
    push_tasks(&mut text, &r.waiting)?;
    push_channels(alloc, &mut text, &r.channels, unread, families)?;
    Ok(text)
}
