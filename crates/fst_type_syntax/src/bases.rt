ghost use Rattle.fst_reading.specs.Reading.{one};
ghost use Rattle.fst_reading.specs.Gives.{Gives};
ghost use Rattle.fst_type_syntax.specs.TypeReading.{base_at, base_word};

use crate::starts::base_word;
use fst_reading::{Lexeme, Stop, after, expect};
use fst_types::Base;

/// A base type that is one word, and what stands behind it.
#[tactic(auto, unfolding(fst_reading::specs::Reading::switch, fst_reading::specs::Reading::give))]
fn one_base<'a>(tokens: &'a [Lexeme<'a>]) -> Result<(Base, &'a [Lexeme<'a>]), Stop<'a>>
    ensures { Gives (λ x. (x.0, x.1.now)) result (one base_word tokens.now) }
{
    match tokens {
        [] => Err(Stop::Syntax(tokens)),
        [first, rest @ ..] => match base_word(first) {
            Some(base) => Ok((base, rest)),
            None => Err(Stop::Syntax(tokens)),
        },
    }
}

/// A base type, and what stands behind it.
#[tactic(auto, unfolding(fst_reading::specs::Steps::all, crate::specs::TypeReading::base_at))]
pub(crate) fn base<'a>(tokens: &'a [Lexeme<'a>]) -> Result<(Base, &'a [Lexeme<'a>]), Stop<'a>>
    ensures { Gives (λ x. (x.0, x.1.now)) result (base_at tokens.now) }
{
    match after("(", tokens) {
        Some(behind) => {
            let rest = expect(")", behind)?;
            Ok((Base::Unit, rest))
        }
        None => one_base(tokens),
    }
}
