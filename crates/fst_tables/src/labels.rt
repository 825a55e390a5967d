use fst_types::{Base, Label, Name};
use std::alloc::{AllocError, Global};

fn base(text: &str) -> Base {
    match text.as_bytes() {
        b"Int" => Base::Int,
        b"Bool" => Base::Bool,
        b"Char" => Base::Char,
        _ => Base::Unit,
    }
}

/// The label of a text such as `!Int`, `?()`, `+A`, `&A`, `Close` or `Wait`; any other is that of the fourth variable.
fn label(alloc: Global, text: &str) -> Result<Label, AllocError> {
    if let Some(text) = text.strip_prefix('!') {
        Ok(Label::Send(base(text)))
    } else if let Some(text) = text.strip_prefix('?') {
        Ok(Label::Receive(base(text)))
    } else if let Some(text) = text.strip_prefix('+') {
        Ok(Label::Select(Name::of(alloc, text.as_bytes())?))
    } else if let Some(text) = text.strip_prefix('&') {
        Ok(Label::Offer(Name::of(alloc, text.as_bytes())?))
    } else {
        Ok(match text.as_bytes() {
            b"Close" => Label::Close,
            b"Wait" => Label::Wait,
            _ => Label::Var(3),
        })
    }
}

/// The labels of their texts, with spaces between.
pub fn word(alloc: Global, text: &str) -> Result<Vec<Label>, AllocError> {
    let mut labels = Vec::new(alloc);
    for part in text.split_whitespace() {
        labels.push(label(alloc, part)?)?;
    }
    Ok(labels)
}
