//! Translations and verdicts of session types, as text.

use crate::building::is_session;
use fst_equiv::{Certificate, EquivFault, Verdict, ask};
use fst_grammar::{TranslateFault, translate};
use fst_print::{side_text, word_text};
use fst_tables::{basis_text, pairs_text};
use fst_types::{Kind, Prekind, Ty, Use};
use fst_words::{Grammar, Word};
use std::alloc::{AllocError, Global};

/// The kinds of a signature's variables: `1S` each.
fn vars() -> [Kind; 6] {
    [Kind {
        prekind: Prekind::Session,
        uses: Use::Once,
    }; 6]
}

/// The translation of two session types; types that are none come out as a want of memory.
pub fn translated(alloc: Global, s: &Ty, r: &Ty) -> Result<(Grammar, Word, Word), TranslateFault> {
    if is_session(alloc, s, &vars()) && is_session(alloc, r, &vars()) {
        translate(alloc, s, r)
    } else {
        Err(TranslateFault::Memory)
    }
}

/// The verdict on two session types; types that are none come out as a want of memory.
pub fn asked(alloc: Global, s: &Ty, r: &Ty, budget: u32) -> Result<Verdict, EquivFault> {
    if budget > 0 && is_session(alloc, s, &[]) && is_session(alloc, r, &[]) {
        ask(alloc, s, r, budget)
    } else {
        Err(EquivFault::Memory)
    }
}

/// As `yes 0-1`, `yes by basis 0-1`, `no +A !Int left`, `undecided 1000` or `too large`, with the last digits of numbers.
pub fn verdict_text(
    alloc: Global,
    found: &Result<Verdict, EquivFault>,
) -> Result<String, AllocError> {
    match found {
        Ok(Verdict::Yes(Certificate::Visited(_, _, _, pairs))) => {
            format!(in alloc; "yes{}", pairs_text(alloc, pairs)?)
        }
        Ok(Verdict::Yes(Certificate::Basis(_, _, _, proof))) => {
            format!(in alloc; "yes by basis{}", basis_text(alloc, &proof.basis)?)
        }
        Ok(Verdict::No(word, side)) => {
            format!(in alloc; "no {} {}", word_text(alloc, word)?, side_text(*side))
        }
        Ok(Verdict::Undecided(_, pairs)) => format!(in alloc; "undecided {}", pairs.len()),
        Err(EquivFault::TooLarge) => format!(in alloc; "too large"),
        Err(EquivFault::Memory) => format!(in alloc; "memory"),
    }
}
