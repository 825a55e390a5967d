//! A certificate from its text.

ghost use Rattle.std.specs.Prelude.{◌≡◌, ◌≢◌, ◌<◌, ◌≤◌, ◌++◌, ◌∷◌, ℕ, List, All, IfErr, IfNone, IfOk, IfSome, decimal, length, map};
ghost use Rattle.fst_basis.specs.declared.proof.Pair.{Pair};
ghost use Rattle.fst_basis.specs.declared.proof.Rewrite.{Rewrite};
ghost use Rattle.fst_cert.specs.Certificates.{IsCertOf, IsChainFit, IsFault, IsPairFit};
ghost use Rattle.fst_cert.specs.Texts.{chain_line, line_feed, lines_text, pair_line, steps_of};

use crate::chains::next_chain;
use crate::fault::CertFault;
use crate::numbers::{cut_at, read_number};
use crate::pairs::next_pair;
use fst_basis::{Chain, Pair, Proof};
use std::alloc::{AllocError, Global};

// The number behind this word in the first line of a text, and what stands behind that line.
fn next_count<'a>(text: &'a [u8], word: &[u8], greatest: u64) -> Option<(u64, &'a [u8])>
    requires one_line { All (λ b. b ≢ line_feed) word.now }
    ensures some { IfSome result (λ p. (text.now ≡ (word.now ++ decimal p.0) ++ line_feed ∷
        p.1.now) × (p.0 ≤ greatest)) }
    ensures none { IfNone result ((n : ℕ) (rest : List ℕ) → n ≤ greatest →
        text.now ≡ (word.now ++ decimal n) ++ line_feed ∷ rest → ⊥) }
{
    let (line, rest) = cut_at(text, b'\n')?;
    let number = read_number(line.strip_prefix(word)?, greatest)?;
    Some((number, rest))
}

// The pairs in whose lines the text begins, at most as many as this, and what stands behind these lines.
fn read_pairs(alloc: Global, text: &[u8], most: u64) -> Result<(Vec<Pair>, &[u8]), AllocError>
    ensures read { IfOk result (λ p. text.now ≡ lines_text (map pair_line p.0.items) ++ p.1.now) }
    ensures fit { IfOk result (λ p. All IsPairFit p.0.items) }
    ensures within { IfOk result (λ p. length p.0.items ≤ most) }
    ensures no_more { IfOk result (λ p. length p.0.items < most → (b : Pair) (rest : List ℕ) →
        IsPairFit b → p.1.now ≡ pair_line b ++ line_feed ∷ rest → ⊥) }
{
    let mut pairs = Vec::new(alloc);
    let mut rest = text;
    while (pairs.len() as u64) < most {
        let Some((pair, more)) = next_pair(alloc, rest)? else {
            return Ok((pairs, rest));
        };
        pairs.push(pair)?;
        rest = more;
    }
    Ok((pairs, rest))
}

// The chains in whose lines the text begins, at most as many as this, and what stands behind these lines.
fn read_chains(alloc: Global, text: &[u8], most: u64) -> Result<(Vec<Chain>, &[u8]), AllocError>
    ensures read { IfOk result (λ p. text.now ≡ lines_text (map chain_line (steps_of p.0.items)) ++
        p.1.now) }
    ensures fit { IfOk result (λ p. All IsChainFit (steps_of p.0.items)) }
    ensures within { IfOk result (λ p. length p.0.items ≤ most) }
    ensures no_more { IfOk result (λ p. length p.0.items < most → (steps : List Rewrite)
        (rest : List ℕ) → IsChainFit steps →
        p.1.now ≡ chain_line steps ++ line_feed ∷ rest → ⊥) }
{
    let mut chains = Vec::new(alloc);
    let mut rest = text;
    while (chains.len() as u64) < most {
        let Some((chain, more)) = next_chain(alloc, rest)? else {
            return Ok((chains, rest));
        };
        chains.push(chain)?;
        rest = more;
    }
    Ok((chains, rest))
}

/// The certificate whose text this is, or the first line that no certificate has there.
pub fn read_cert(alloc: Global, text: &[u8]) -> Result<Proof, CertFault>
    ensures read { IfOk result (λ p. IsCertOf text.now p.basis.items (steps_of p.chains.items)) }
    ensures fault { IfErr result (IsFault text.now) }
{
    let Some((count, rest)) = next_count(text, b"pairs ", u64::from(u32::MAX)) else {
        return Err(CertFault::BadLine(1));
    };
    let (basis, rest) = read_pairs(alloc, rest, count)?;
    let line = basis.len() as u64 + 2;
    if (basis.len() as u64) < count {
        return Err(CertFault::BadLine(line));
    }
    let Some((many, rest)) = next_count(rest, b"chains ", u64::MAX) else {
        return Err(CertFault::BadLine(line));
    };
    let (chains, rest) = read_chains(alloc, rest, many)?;
    if (chains.len() as u64) < many || !rest.is_empty() {
        return Err(CertFault::BadLine(line + chains.len() as u64 + 1));
    }
    Ok(Proof { basis, chains })
}
