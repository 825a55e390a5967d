//! What a run came to, in four lines.

ghost use Rattle.std.specs.Prelude.{◌≡◌, IfOk};
ghost use Rattle.std.specs.String.{string_bytes};
ghost use Rattle.fst_base.specs.Gains.{Gains};
ghost use Rattle.fst_report.specs.SummaryTexts.{count_line, summary_text};

use crate::report::push_result;
use fst_base::push_number;
use fst_vm::Report;
use std::alloc::{AllocError, Global};

fn push_count(text: &mut String, name: &str, count: u64) -> Result<(), AllocError>
    ensures { Gains result text.old text.new (count_line name.now count) }
{
    text.push_str(name)?;
    text.push_str(" ")?;
    push_number(text, count)?;
    text.push_str("\n")
}

/// The summary of a run as text, a line each: how many bytes the module has, how many events and channels there were, and the
/// value of `main`, as values are written where there are no data types.
pub fn summary_text(alloc: Global, bytes: u64, r: &Report) -> Result<String, AllocError>
    ensures { IfOk result (λ text. string_bytes text ≡ summary_text bytes r.now) }
{
    let mut text = String::new(alloc);
    push_count(&mut text, "bytes", bytes)?;
    push_count(&mut text, "events", r.events)?;
    push_count(&mut text, "channels", r.channels.len() as u64)?;
    push_result(alloc, &mut text, &r.result, &[])?;
    Ok(text)
}
