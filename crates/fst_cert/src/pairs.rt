//! The lines of pairs.

ghost use Rattle.std.specs.Prelude.{◌≡◌, ◌++◌, ◌∷◌, ℕ, List, IfNone, IfOk, IfSome};
ghost use Rattle.fst_basis.specs.declared.proof.Pair.{Pair};
ghost use Rattle.fst_cert.specs.Certificates.{IsPairFit};
ghost use Rattle.fst_cert.specs.Texts.{line_feed, pair_line};

use crate::numbers::{cut_at, read_numbers};
use fst_basis::Pair;
use fst_words::Word;
use std::alloc::{AllocError, Global};

// The pair whose line this is.
fn read_pair(alloc: Global, line: &[u8]) -> Result<Option<Pair>, AllocError>
    ensures some { IfOk result (λ o. IfSome o (λ b. (line.now ≡ pair_line b) × IsPairFit b)) }
    ensures none { IfOk result (λ o. IfNone o ((b : Pair) → IsPairFit b → line.now ≡ pair_line b →
        ⊥)) }
{
    let Some(words) = line.strip_prefix(b"pair") else {
        return Ok(None);
    };
    let Some((before, right)) = cut_at(words, b'~') else {
        return Ok(None);
    };
    let Some(left) = before.strip_suffix(b" ") else {
        return Ok(None);
    };
    let Some(left) = read_numbers(alloc, left, b' ')? else {
        return Ok(None);
    };
    let Some(right) = read_numbers(alloc, right, b' ')? else {
        return Ok(None);
    };
    if left.is_empty() || right.is_empty() {
        return Ok(None);
    }
    Ok(Some(Pair {
        left: Word::from_vec(left),
        right: Word::from_vec(right),
    }))
}

/// The pair in whose line the text begins, and what stands behind this line.
pub(crate) fn next_pair(alloc: Global, text: &[u8]) -> Result<Option<(Pair, &[u8])>, AllocError>
    ensures some { IfOk result (λ o. IfSome o
        (λ p. (text.now ≡ pair_line p.0 ++ line_feed ∷ p.1.now) × IsPairFit p.0)) }
    ensures none { IfOk result (λ o. IfNone o ((b : Pair) (rest : List ℕ) → IsPairFit b →
        text.now ≡ pair_line b ++ line_feed ∷ rest → ⊥)) }
{
    let Some((line, rest)) = cut_at(text, b'\n') else {
        return Ok(None);
    };
    let Some(pair) = read_pair(alloc, line)? else {
        return Ok(None);
    };
    Ok(Some((pair, rest)))
}
