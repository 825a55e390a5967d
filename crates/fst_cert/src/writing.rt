//! The text of a certificate.

ghost use Rattle.std.specs.Prelude.{◌≡◌, ◌++◌, ◌∷◌, [], ℕ, All, IfOk, OnOk, decimal, map};
ghost use Rattle.std.specs.String.{string_bytes};
ghost use Rattle.fst_base.specs.Gains.{Gains};
ghost use Rattle.fst_cert.specs.Certificates.{HasNoEmpty, IsCertOf, IsChainFit, IsPairFit, IsRewriteFit, IsWord};
ghost use Rattle.fst_cert.specs.Texts.{chain_line, colon, line_feed, lines_text, listed, pair_line, point, rewrite_text, rewrites_text, steps_of};

use fst_base::push_number;
use fst_basis::{Chain, Pair, Proof, Rewrite};
use std::alloc::{AllocError, Global};

// Adds numbers, with this mark in front of each.
fn push_numbers(text: &mut String, numbers: &[u32], mark: &str) -> Result<(), AllocError>
    ensures text { (c : ℕ) → mark.now ≡ c ∷ [] → Gains result text.old text.new
        (listed c numbers.now) }
    ensures fit { IsWord numbers.now }
{
    for number in numbers {
        text.push_str(mark)?;
        push_number(text, *number)?;
    }
    Ok(())
}

// Adds the place and the pair of an exchange.
fn push_exchange(text: &mut String, at: u64, pair: u32) -> Result<(), AllocError>
    ensures { Gains result text.old text.new (decimal at ++ colon ∷ decimal pair) }
{
    push_number(text, at)?;
    text.push_str(":")?;
    push_number(text, pair)
}

// Adds the place and the tail of a cut.
fn push_cut(text: &mut String, at: u64, tail: &[u32]) -> Result<(), AllocError>
    ensures text { Gains result text.old text.new (decimal at ++ listed point tail.now) }
    ensures fit { OnOk result (IsWord tail.now) }
{
    push_number(text, at)?;
    push_numbers(text, tail, ".")
}

fn push_rewrite(text: &mut String, rewrite: &Rewrite) -> Result<(), AllocError>
    ensures text { Gains result text.old text.new (rewrite_text rewrite.now) }
    ensures fit { OnOk result (IsRewriteFit rewrite.now) }
{
    match rewrite {
        Rewrite::Forth { at, pair } => {
            text.push_str("f")?;
            push_exchange(text, *at, *pair)
        }
        Rewrite::Back { at, pair } => {
            text.push_str("b")?;
            push_exchange(text, *at, *pair)
        }
        Rewrite::Cut { at, tail } => {
            text.push_str("c")?;
            push_cut(text, *at, tail.as_slice())
        }
        Rewrite::Grow { at, tail } => {
            text.push_str("g")?;
            push_cut(text, *at, tail.as_slice())
        }
    }
}

// Adds the line of a pair.
fn push_pair(text: &mut String, pair: &Pair) -> Result<(), AllocError>
    requires { HasNoEmpty pair.now }
    ensures text { Gains result text.old text.new (pair_line pair.now ++ line_feed ∷ []) }
    ensures fit { OnOk result (IsPairFit pair.now) }
{
    text.push_str("pair")?;
    push_numbers(text, pair.left.as_slice(), " ")?;
    text.push_str(" ~")?;
    push_numbers(text, pair.right.as_slice(), " ")?;
    text.push_str("\n")
}

fn push_rewrites(text: &mut String, steps: &[Rewrite]) -> Result<(), AllocError>
    ensures text { Gains result text.old text.new (rewrites_text steps.now) }
    ensures fit { OnOk result (All IsRewriteFit steps.now) }
{
    for step in steps {
        text.push_str(" ")?;
        push_rewrite(text, step)?;
    }
    Ok(())
}

// Adds the line of a chain.
fn push_chain(text: &mut String, chain: &Chain) -> Result<(), AllocError>
    ensures text { Gains result text.old text.new (chain_line chain.now.steps.items ++ line_feed ∷
        []) }
    ensures fit { OnOk result (IsChainFit chain.now.steps.items) }
{
    text.push_str("chain")?;
    push_rewrites(text, &chain.steps)?;
    text.push_str("\n")
}

fn push_pairs(text: &mut String, pairs: &[Pair]) -> Result<(), AllocError>
    requires { All HasNoEmpty pairs.now }
    ensures text { Gains result text.old text.new (lines_text (map pair_line pairs.now)) }
    ensures fit { OnOk result (All IsPairFit pairs.now) }
{
    for pair in pairs {
        push_pair(text, pair)?;
    }
    Ok(())
}

fn push_chains(text: &mut String, chains: &[Chain]) -> Result<(), AllocError>
    ensures text { Gains result text.old text.new (lines_text
        (map chain_line (steps_of chains.now))) }
    ensures fit { OnOk result (All IsChainFit (steps_of chains.now)) }
{
    for chain in chains {
        push_chain(text, chain)?;
    }
    Ok(())
}

// Adds this word, a number and a line feed.
fn push_count(text: &mut String, word: &str, count: usize) -> Result<(), AllocError>
    ensures { Gains result text.old text.new (word.now ++ decimal count ++ line_feed ∷ []) }
{
    text.push_str(word)?;
    push_number(text, count)?;
    text.push_str("\n")
}

/// The text of a proof: of its pairs, and of its chains. A basis of over 4,294,967,295 pairs has none, and wants memory.
pub fn cert_text(alloc: Global, p: &Proof) -> Result<String, AllocError>
    requires { All HasNoEmpty p.now.basis.items }
    ensures { IfOk result (λ text. IsCertOf (string_bytes text) p.now.basis.items
        (steps_of p.now.chains.items)) }
{
    if p.basis.len() > u32::MAX as usize {
        return Err(AllocError);
    }
    let mut text = String::new(alloc);
    push_count(&mut text, "pairs ", p.basis.len())?;
    push_pairs(&mut text, &p.basis)?;
    push_count(&mut text, "chains ", p.chains.len())?;
    push_chains(&mut text, &p.chains)?;
    Ok(text)
}
