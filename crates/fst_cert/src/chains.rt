//! The lines of chains.

ghost use Rattle.std.specs.Prelude.{◌≡◌, ◌<◌, ◌^◌, ◌++◌, ◌∷◌, ℕ, List, All, IfNone, IfOk, IfSome, decimal};
ghost use Rattle.fst_basis.specs.declared.proof.Rewrite.{Rewrite};
ghost use Rattle.fst_cert.specs.Certificates.{IsChainFit, IsRewriteFit, IsWord};
ghost use Rattle.fst_cert.specs.Texts.{chain_line, colon, line_feed, listed, point, rewrite_text, rewrites_text};

use crate::numbers::{cut_at, end_of, next_piece, read_number, read_numbers};
use fst_basis::{Chain, Rewrite};
use fst_words::Word;
use std::alloc::{AllocError, Global};

// The place and the pair of an exchange: numbers with a colon between.
fn read_exchange(text: &[u8]) -> Option<(u64, u32)>
    ensures some { IfSome result (λ e. text.now ≡ decimal e.0 ++ colon ∷ decimal e.1) }
    ensures none { IfNone result ((at pair : ℕ) → at < 2 ^ 64 → pair < 2 ^ 32 →
        text.now ≡ decimal at ++ colon ∷ decimal pair → ⊥) }
{
    let (at, pair) = cut_at(text, b':')?;
    let at = read_number(at, u64::MAX)?;
    let pair = read_number(pair, u64::from(u32::MAX))?;
    Some((at, pair as u32))
}

// The place and the tail of a cut: numbers with points between.
fn read_cut(alloc: Global, text: &[u8]) -> Result<Option<(u64, Word)>, AllocError>
    ensures some { IfOk result (λ o. IfSome o
        (λ c. (text.now ≡ decimal c.0 ++ listed point c.1) × IsWord c.1)) }
    ensures none { IfOk result (λ o. IfNone o ((at : ℕ) (tail : List ℕ) → at < 2 ^ 64 →
        IsWord tail → text.now ≡ decimal at ++ listed point tail → ⊥)) }
{
    let (at, tail) = text.split_at(end_of(text, b'.'));
    let Some(at) = read_number(at, u64::MAX) else {
        return Ok(None);
    };
    let Some(tail) = read_numbers(alloc, tail, b'.')? else {
        return Ok(None);
    };
    Ok(Some((at, Word::from_vec(tail))))
}

// The rewrite whose text this is.
fn read_rewrite(alloc: Global, text: &[u8]) -> Result<Option<Rewrite>, AllocError>
    ensures some { IfOk result (λ o. IfSome o (λ r. (text.now ≡ rewrite_text r) × IsRewriteFit r)) }
    ensures none { IfOk result (λ o. IfNone o ((r : Rewrite) → IsRewriteFit r →
        text.now ≡ rewrite_text r → ⊥)) }
{
    let Some((kind, rest)) = text.split_first() else {
        return Ok(None);
    };
    match *kind {
        b'f' => Ok(read_exchange(rest).map(|(at, pair)| Rewrite::Forth { at, pair })),
        b'b' => Ok(read_exchange(rest).map(|(at, pair)| Rewrite::Back { at, pair })),
        b'c' => Ok(read_cut(alloc, rest)?.map(|(at, tail)| Rewrite::Cut { at, tail })),
        b'g' => Ok(read_cut(alloc, rest)?.map(|(at, tail)| Rewrite::Grow { at, tail })),
        _ => Ok(None),
    }
}

// The rewrites of a text, with a space in front of each.
fn read_rewrites(alloc: Global, text: &[u8]) -> Result<Option<Vec<Rewrite>>, AllocError>
    ensures some { IfOk result (λ o. IfSome o
        (λ rs. (text.now ≡ rewrites_text rs.items) × All IsRewriteFit rs.items)) }
    ensures none { IfOk result (λ o. IfNone o ((rs : List Rewrite) → All IsRewriteFit rs →
        text.now ≡ rewrites_text rs → ⊥)) }
{
    let mut steps = Vec::new(alloc);
    let mut rest = text;
    while !rest.is_empty() {
        let Some((piece, more)) = next_piece(rest, b' ') else {
            return Ok(None);
        };
        let Some(step) = read_rewrite(alloc, piece)? else {
            return Ok(None);
        };
        steps.push(step)?;
        rest = more;
    }
    Ok(Some(steps))
}

/// The chain in whose line the text begins, and what stands behind this line.
pub(crate) fn next_chain(alloc: Global, text: &[u8]) -> Result<Option<(Chain, &[u8])>, AllocError>
    ensures some { IfOk result (λ o. IfSome o
        (λ p. (text.now ≡ chain_line p.0.steps.items ++ line_feed ∷ p.1.now) ×
        IsChainFit p.0.steps.items)) }
    ensures none { IfOk result (λ o. IfNone o ((steps : List Rewrite) (rest : List ℕ) →
        IsChainFit steps → text.now ≡ chain_line steps ++ line_feed ∷ rest → ⊥)) }
{
    let Some((line, rest)) = cut_at(text, b'\n') else {
        return Ok(None);
    };
    let Some(rewrites) = line.strip_prefix(b"chain") else {
        return Ok(None);
    };
    let Some(steps) = read_rewrites(alloc, rewrites)? else {
        return Ok(None);
    };
    Ok(Some((Chain { steps }, rest)))
}
