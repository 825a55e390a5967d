ghost use Rattle.std.specs.Prelude.{◌≡◌, IfOk};
ghost use Rattle.std.specs.String.{string_bytes};
ghost use Rattle.fst_base.specs.Gains.{Gains};
ghost use Rattle.fst_type_print.specs.Texts.{label_text, side_text, word_text};

use crate::pieces::{push_receive, push_send, push_variable};
use fst_types::{Label, Side};
use std::alloc::{AllocError, Global};

/// The side of a comparison, in a word.
pub fn side_text(side: Side) -> &'static str
    ensures { result.now ≡ side_text side }
{
    match side {
        Side::Left => "left",
        Side::Right => "right",
    }
}

fn push_label(text: &mut String, label: &Label) -> Result<(), AllocError>
    ensures { Gains result text.old text.new (label_text label.now) }
{
    match label {
        Label::Send(base) => push_send(text, *base),
        Label::Receive(base) => push_receive(text, *base),
        Label::Select(name) => {
            text.push_str("+")?;
            text.push_str(name.as_str())
        }
        Label::Offer(name) => {
            text.push_str("&")?;
            text.push_str(name.as_str())
        }
        Label::Close => text.push_str("Close"),
        Label::Wait => text.push_str("Wait"),
        Label::Var(k) => push_variable(text, u64::from(*k)),
    }
}

fn push_word(text: &mut String, word: &[Label]) -> Result<(), AllocError>
    ensures { Gains result text.old text.new (word_text word.now) }
{
    let [first, others @ ..] = word else {
        return Ok(());
    };
    push_label(text, first)?;
    for label in others {
        text.push_str(" ")?;
        push_label(text, label)?;
    }
    Ok(())
}

/// A word as text: its labels in order. The empty word is the empty text.
pub fn word_text(alloc: Global, w: &[Label]) -> Result<String, AllocError>
    ensures { IfOk result (λ text. string_bytes text ≡ word_text w.now) }
{
    let mut text = String::new(alloc);
    push_word(&mut text, w)?;
    Ok(text)
}
