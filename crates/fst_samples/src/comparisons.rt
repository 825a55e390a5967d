//! How types of any shape compare, as text.

use crate::building::are_formed;
use crate::kinds::four_kinds;
use fst_equiv::{EquivFault, Same, same_type};
use fst_print::{side_text, word_text};
use fst_types::Ty;
use std::alloc::{AllocError, Global};

/// How two types compare, where the variables a, b, c and d have the four kinds in turn; types that aren't well formed come
/// out as a want of memory.
pub fn compared(alloc: Global, t: &Ty, u: &Ty, budget: u32) -> Result<Same, EquivFault> {
    if budget > 0 && are_formed(alloc, t, u, &four_kinds()) {
        same_type(alloc, t, u, budget)
    } else {
        Err(EquivFault::Memory)
    }
}

/// As `yes`, `shape`, `word +A !Int left`, `undecided 1000` or `too large`.
pub fn comparison_text(
    alloc: Global,
    found: &Result<Same, EquivFault>,
) -> Result<String, AllocError> {
    match found {
        Ok(Same::Yes) => format!(in alloc; "yes"),
        Ok(Same::Shape) => format!(in alloc; "shape"),
        Ok(Same::Word(word, side)) => {
            format!(in alloc; "word {} {}", word_text(alloc, word)?, side_text(*side))
        }
        Ok(Same::Undecided(_, pairs)) => format!(in alloc; "undecided {}", pairs.len()),
        Err(EquivFault::TooLarge) => format!(in alloc; "too large"),
        Err(EquivFault::Memory) => format!(in alloc; "memory"),
    }
}
