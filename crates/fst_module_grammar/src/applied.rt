ghost use Rattle.std.specs.Prelude.{◌∷◌, codes};
ghost use Rattle.fst_reading.specs.Reading.{andthen, word};
ghost use Rattle.fst_reading.specs.Gives.{Gives};
ghost use Rattle.fst_module_grammar.specs.TermReading.{inside, expr_at, type_atom_with, applied_with};

use crate::shut::{Wanted, shut};
use fst_reading::{Lexeme, Stop, comes, expect};
use fst_type_syntax::atom;
use fst_types::Written;
use std::alloc::Global;
use std::convert::identity;

/// An atomic type, where `left` more operands may stand, and what stands behind it.
#[tactic(auto, using(crate::proofs::Inside::length_inside), unfolding(crate::specs::Steps::types))]
pub fn type_atom<'a>(
    alloc: Global,
    left: u32,
    tokens: &'a [Lexeme<'a>],
) -> Result<(Written, &'a [Lexeme<'a>]), Stop<'a>>
    ensures { Gives (λ x. (x.0, x.1.now)) result (type_atom_with (inside left) tokens.now) }
{
    if left == 0 {
        return Err(shut(Wanted::Type, tokens));
    }
    atom(alloc, left - 1, tokens)
}

/// A type argument, and what stands behind it.
#[tactic(auto, using(crate::proofs::Inside::length_inside), unfolding(crate::specs::Steps::apply))]
fn argument<'a>(
    alloc: Global,
    left: u32,
    tokens: &'a [Lexeme<'a>],
) -> Result<(Written, &'a [Lexeme<'a>]), Stop<'a>>
    ensures { Gives (λ x. (x.0, x.1.now)) result
        (andthen (word (codes "@")) (λ k. type_atom_with (expr_at left ∷ inside left)) tokens.now) }
{
    let rest = expect("@", tokens)?;
    atom(alloc, left, rest)
}

/// Type arguments with at most `left` types inside one another, and what stands behind them.
pub fn applied<'a>(
    alloc: Global,
    left: u32,
    tokens: &'a [Lexeme<'a>],
) -> Result<(Vec<Written>, &'a [Lexeme<'a>]), Stop<'a>>
    ensures { Gives (λ x. (x.0.items, x.1.now)) result
        (applied_with (expr_at left ∷ inside left) tokens.now) }
{
    let mut arguments = Vec::new(alloc);
    let mut rest = tokens;
    for _ in 0..tokens.len() {
        if !comes("@", rest) {
            return Ok((arguments, rest));
        }
        let (argument, remaining) = argument(alloc, left, rest)?;
        arguments.push(argument)?;
        rest = identity(remaining);
    }
    Ok((arguments, rest))
}
