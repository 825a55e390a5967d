ghost use Rattle.std.specs.Prelude.{◌≡◌, true, false, MatchOption};
ghost use Rattle.fst_reading.specs.Lexeme.{place, start, spells, lower_of, upper_of, is_one};
ghost use Rattle.fst_reading.specs.Reading.{one, word, begins, behind};
ghost use Rattle.fst_reading.specs.Gives.{Gives};

use crate::lexeme::{Lexeme, is_one, spells};
use crate::stop::Stop;
use fst_lexer::TokenKind;

/// Where the first token begins, and where none is left the text ends.
pub fn place(tokens: &[Lexeme<'_>], end: u32) -> u32
    ensures { result ≡ place end tokens.now }
{
    match tokens {
        [] => end,
        [first, ..] => first.at,
    }
}

/// Where a phrase begins that has these tokens.
pub fn start(tokens: &[Lexeme<'_>]) -> u32
    ensures { result ≡ start tokens.now }
{
    match tokens {
        [] => 0,
        [first, ..] => first.at,
    }
}

/// What stands behind this reserved word or sign.
#[tactic(auto, unfolding(crate::specs::Steps::all))]
pub fn expect<'a>(wanted: &str, tokens: &'a [Lexeme<'a>]) -> Result<&'a [Lexeme<'a>], Stop<'a>>
    ensures { Gives (λ r. (tt, r.now)) result (word wanted.now tokens.now) }
{
    match tokens {
        [first, rest @ ..] if spells(wanted, first) => Ok(rest),
        _ => Err(Stop::Syntax(tokens)),
    }
}

/// Whether this reserved word or sign comes next.
pub fn comes(wanted: &str, tokens: &[Lexeme<'_>]) -> bool
    ensures { result ≡ begins (spells wanted.now) tokens.now }
{
    match tokens {
        [] => false,
        [first, ..] => spells(wanted, first),
    }
}

/// What stands behind the first token.
pub fn behind<'a>(tokens: &'a [Lexeme<'a>]) -> &'a [Lexeme<'a>]
    ensures { result.now ≡ behind tokens.now }
{
    match tokens {
        [] => tokens,
        [_, rest @ ..] => rest,
    }
}

/// What stands behind this reserved word or sign, where it comes next.
pub fn after<'a>(wanted: &str, tokens: &'a [Lexeme<'a>]) -> Option<&'a [Lexeme<'a>]>
    ensures { MatchOption result (begins (spells wanted.now) tokens.now ≡ false)
        (λ r. (begins (spells wanted.now) tokens.now ≡ true) × (r.now ≡ behind tokens.now)) }
{
    match tokens {
        [first, rest @ ..] if spells(wanted, first) => Some(rest),
        _ => None,
    }
}

/// What stands behind a number of value 1, where one comes next.
pub fn after_one<'a>(tokens: &'a [Lexeme<'a>]) -> Option<&'a [Lexeme<'a>]>
    ensures { MatchOption result (begins is_one tokens.now ≡ false)
        (λ r. (begins is_one tokens.now ≡ true) × (r.now ≡ behind tokens.now)) }
{
    match tokens {
        [first, rest @ ..] if is_one(first) => Some(rest),
        _ => None,
    }
}

/// A lower name, and what stands behind it.
#[tactic(auto, unfolding(crate::specs::Reading::switch, crate::specs::Reading::give))]
pub fn lower<'a>(tokens: &'a [Lexeme<'a>]) -> Result<(&'a Lexeme<'a>, &'a [Lexeme<'a>]), Stop<'a>>
    ensures { Gives (λ x. (x.0.now, x.1.now)) result (one lower_of tokens.now) }
{
    match tokens {
        [] => Err(Stop::Syntax(tokens)),
        [first, rest @ ..] => match first.kind {
            TokenKind::Lower => Ok((first, rest)),
            _ => Err(Stop::Syntax(tokens)),
        },
    }
}

/// An upper name, and what stands behind it.
#[tactic(auto, unfolding(crate::specs::Reading::switch, crate::specs::Reading::give))]
pub fn upper<'a>(tokens: &'a [Lexeme<'a>]) -> Result<(&'a Lexeme<'a>, &'a [Lexeme<'a>]), Stop<'a>>
    ensures { Gives (λ x. (x.0.now, x.1.now)) result (one upper_of tokens.now) }
{
    match tokens {
        [] => Err(Stop::Syntax(tokens)),
        [first, rest @ ..] => match first.kind {
            TokenKind::Upper => Ok((first, rest)),
            _ => Err(Stop::Syntax(tokens)),
        },
    }
}
