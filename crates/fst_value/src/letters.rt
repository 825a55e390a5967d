//! The texts of values that have no value in them.

ghost use Rattle.std.specs.Prelude.{◌≡◌, ◌++◌, codes};
ghost use Rattle.fst_value.specs.Texts.{truth_text, character_text};
ghost use Rattle.fst_base.specs.Gains.{Gains};

use std::alloc::AllocError;

/// A truth value.
pub fn truth_text(b: bool) -> &'static str
    ensures { result.now ≡ truth_text b }
{
    if b { "True" } else { "False" }
}

fn push_character(text: &mut String, c: char) -> Result<(), AllocError>
    ensures { Gains result text.old text.new (character_text c) }
{
    match c {
        '\n' => text.push_str("\\n"),
        '\t' => text.push_str("\\t"),
        '\\' => text.push_str("\\\\"),
        '\'' => text.push_str("\\'"),
        _ => text.push(c),
    }
}

/// A character between its quotes.
pub fn push_quoted(text: &mut String, c: char) -> Result<(), AllocError>
    ensures { Gains result text.old text.new (codes "'" ++ character_text c ++ codes "'") }
{
    text.push_str("'")?;
    push_character(text, c)?;
    text.push_str("'")
}
