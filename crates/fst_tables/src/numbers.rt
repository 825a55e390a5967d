//! Numbers as text, for the answers of tables.

use fst_basis::Pair;
use fst_shared::SharedPair;
use std::alloc::{AllocError, Global};

/// The last digits of numbers, one after the other.
pub fn digits_text(alloc: Global, numbers: &[u32]) -> Result<String, AllocError> {
    let mut text = String::new(alloc);
    for number in numbers {
        text.push(char::from_digit(*number % 10, 10).unwrap_or('?'))?;
    }
    Ok(text)
}

/// Pairs as text, such as ` 0-1 2-3`.
pub fn pairs_text(alloc: Global, pairs: &[SharedPair]) -> Result<String, AllocError> {
    let mut text = String::new(alloc);
    for pair in pairs {
        text.push(' ')?;
        text.push_str(&digits_text(alloc, pair.left.to_word(alloc)?.as_slice())?)?;
        text.push('-')?;
        text.push_str(&digits_text(alloc, pair.right.to_word(alloc)?.as_slice())?)?;
    }
    Ok(text)
}

/// The pairs of a basis as text, such as ` 2-3`.
pub fn basis_text(alloc: Global, basis: &[Pair]) -> Result<String, AllocError> {
    let mut text = String::new(alloc);
    for b in basis {
        text.push(' ')?;
        text.push_str(&digits_text(alloc, b.left.as_slice())?)?;
        text.push('-')?;
        text.push_str(&digits_text(alloc, b.right.as_slice())?)?;
    }
    Ok(text)
}
