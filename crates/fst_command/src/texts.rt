ghost use Rattle.std.specs.Prelude.{◌≡◌, ◌≤◌, ◌++◌, IfOk, OnOk, decimal, length, string_bytes, take};
ghost use Rattle.fst_base.specs.Limits.{most_bytes};
ghost use Rattle.fst_command.specs.Texts.{column_of, is_line_feed, line_of, no_text, place_text, refused_text, too_deep_text, too_large_text, undecided_text};

use fst_base::push_number;
use fst_print::{Phrase, Refusal, refusal_text, side_text, word_text};
use fst_types::{Label, Side};
use std::alloc::{AllocError, Global};

/// The line that says that this side alone performs this word.
pub(crate) fn no_text(alloc: Global, word: &[Label], side: Side) -> Result<String, AllocError>
    ensures { IfOk result (λ text. string_bytes text ≡ no_text word.now side) }
{
    let mut text = String::from_str(alloc, "no ")?;
    text.push_str(&word_text(alloc, word)?)?;
    text.push_str(" ")?;
    text.push_str(side_text(side))?;
    text.push_str("\n")?;
    Ok(text)
}

/// The line that says that so many pairs show no difference, that there are more, and that there is no basis within so many.
pub(crate) fn undecided_text(alloc: Global, budget: u32) -> Result<String, AllocError>
    ensures { IfOk result (λ text. string_bytes text ≡ undecided_text budget) }
{
    let mut text = String::from_str(alloc, "undecided ")?;
    push_number(&mut text, u64::from(budget))?;
    text.push_str("\n")?;
    Ok(text)
}

fn is_line_feed(byte: u8) -> bool
    ensures { result ≡ is_line_feed byte }
{
    byte == b'\n'
}

// The bytes in front of one of a text.
fn before(text: &[u8], at: u32) -> &[u8]
    ensures front { result.now ≡ take at text.now }
    ensures short { length result.now ≤ length text.now }
{
    let at = (at as usize).min(text.len());
    &text[..at]
}

fn line_of(text: &[u8], at: u32) -> u32
    requires { length text.now ≤ most_bytes }
    ensures { result ≡ line_of text.now at }
{
    let feeds = before(text, at)
        .iter()
        .filter(|byte| is_line_feed(**byte))
        .count();
    feeds as u32 + 1
}

fn column_of(text: &[u8], at: u32) -> u32
    requires { length text.now ≤ most_bytes }
    ensures { result ≡ column_of text.now at }
{
    let front = before(text, at);
    let mut column: u32 = 1;
    for byte in front {
        if is_line_feed(*byte) {
            column = 1;
        } else {
            column += 1;
        }
    }
    column
}

/// The line that refuses a text at this byte.
pub(crate) fn refused_text(
    alloc: Global,
    text: &[u8],
    at: u32,
    phrase: Phrase,
) -> Result<String, AllocError>
    requires { length text.now ≤ most_bytes }
    ensures { IfOk result (λ out. string_bytes out ≡ refused_text text.now at phrase) }
{
    let line = line_of(text, at);
    let column = column_of(text, at);
    let refusal = Refusal {
        line,
        column,
        phrase,
    };
    let mut out = refusal_text(alloc, &refusal)?;
    out.push_str("\n")?;
    Ok(out)
}

pub(crate) fn push_place(out: &mut String, text: &[u8], at: u32) -> Result<(), AllocError>
    requires { length text.now ≤ most_bytes }
    ensures { OnOk result (string_bytes out.new ≡ string_bytes out.old ++ place_text text.now at) }
{
    push_number(out, u64::from(line_of(text, at)))?;
    out.push_str(":")?;
    push_number(out, u64::from(column_of(text, at)))
}

/// The line that says that the token at this byte is nested too deep.
pub(crate) fn too_deep_text(alloc: Global, text: &[u8], at: u32) -> Result<String, AllocError>
    requires { length text.now ≤ most_bytes }
    ensures { IfOk result (λ out. string_bytes out ≡ too_deep_text text.now at) }
{
    let mut out = String::from_str(alloc, "limit ")?;
    push_place(&mut out, text, at)?;
    out.push_str(" depth\n")?;
    Ok(out)
}

/// The line that says that the type at this byte, or the grammar of the types of which the left one is there, is too large.
pub(crate) fn too_large_text(alloc: Global, text: &[u8], at: u32) -> Result<String, AllocError>
    requires { length text.now ≤ most_bytes }
    ensures { IfOk result (λ out. string_bytes out ≡ too_large_text text.now at) }
{
    let mut out = String::from_str(alloc, "limit ")?;
    push_place(&mut out, text, at)?;
    out.push_str(" type size\n")?;
    Ok(out)
}
