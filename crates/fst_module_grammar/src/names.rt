ghost use Rattle.std.specs.Prelude.{◌≡◌, IfOk};
ghost use Rattle.fst_reading.specs.Reading.{one, map_reader, begins};
ghost use Rattle.fst_reading.specs.Lexeme.{lower_of};
ghost use Rattle.fst_reading.specs.Gives.{Gives};
ghost use Rattle.fst_module_grammar.specs.Grammar.{bound};
ghost use Rattle.fst_module_grammar.specs.TermReading.{is_lower, names};

use fst_lexer::TokenKind;
use fst_reading::{Lexeme, Stop, lower};
use fst_terms::Binder;
use fst_types::Name;
use std::alloc::{AllocError, Global};
use std::convert::identity;

/// A token that is a name, as what it binds.
pub fn bound(alloc: Global, token: &Lexeme<'_>) -> Result<Binder, AllocError>
    ensures { IfOk result (λ b. b ≡ bound token.now) }
{
    let name = Name::of(alloc, token.text.as_bytes())?;
    Ok(Binder { name, at: token.at })
}

/// Whether a lower name comes next.
fn comes_lower(tokens: &[Lexeme<'_>]) -> bool
    ensures { result ≡ begins is_lower tokens.now }
{
    match tokens {
        [] => false,
        [first, ..] => matches!(first.kind, TokenKind::Lower),
    }
}

/// A lower name as what it binds, and what stands behind it.
#[tactic(auto, unfolding(fst_reading::specs::Reading::bind, fst_reading::specs::Reading::map_reader))]
fn name<'a>(alloc: Global, tokens: &'a [Lexeme<'a>]) -> Result<(Binder, &'a [Lexeme<'a>]), Stop<'a>>
    ensures { Gives (λ x. (x.0, x.1.now)) result (map_reader bound (one lower_of) tokens.now) }
{
    let (token, rest) = lower(tokens)?;
    let name = bound(alloc, token)?;
    Ok((name, rest))
}

/// Lower names as what they bind, and what stands behind them.
pub fn names<'a>(
    alloc: Global,
    tokens: &'a [Lexeme<'a>],
) -> Result<(Vec<Binder>, &'a [Lexeme<'a>]), Stop<'a>>
    ensures { Gives (λ x. (x.0.items, x.1.now)) result (names tokens.now) }
{
    let mut names = Vec::new(alloc);
    let mut rest = tokens;
    for _ in 0..tokens.len() {
        if !comes_lower(rest) {
            return Ok((names, rest));
        }
        let (name, remaining) = name(alloc, rest)?;
        names.push(name)?;
        rest = identity(remaining);
    }
    Ok((names, rest))
}
