ghost use Rattle.std.specs.Prelude.{◌≡◌, ◌∷◌, false, MatchOption};
ghost use Rattle.fst_reading.specs.Lexeme.{Lexeme};
ghost use Rattle.fst_reading.specs.Reading.{begins};
ghost use Rattle.fst_module_grammar.specs.TermReading.{comparison, addition, is_op};
ghost use Rattle.fst_module_grammar.specs.Levels.{operator_of};

use fst_reading::{Lexeme, spells};
use fst_terms::Op;

/// The chains of operators, from the loosest to the tightest.
#[derive(Clone, Copy, Debug)]
pub enum Level {
    Or,
    And,
    Sum,
    Product,
}

/// The operator of a comparison that is this token.
#[tactic(auto, unfolding(fst_base::specs::Choice::choose, crate::specs::TermReading::comparison))]
fn comparison(token: &Lexeme<'_>) -> Option<Op>
    ensures { result ≡ comparison token.now }
{
    if spells("==", token) {
        Some(Op::Equal)
    } else if spells("/=", token) {
        Some(Op::Unequal)
    } else if spells("<", token) {
        Some(Op::Less)
    } else if spells("<=", token) {
        Some(Op::AtMost)
    } else if spells(">", token) {
        Some(Op::Greater)
    } else if spells(">=", token) {
        Some(Op::AtLeast)
    } else {
        None
    }
}

/// The operator of a sum that is this token.
#[tactic(auto, unfolding(fst_base::specs::Choice::choose, crate::specs::TermReading::addition))]
fn addition(token: &Lexeme<'_>) -> Option<Op>
    ensures { result ≡ addition token.now }
{
    if spells("+", token) {
        Some(Op::Add)
    } else if spells("-", token) {
        Some(Op::Subtract)
    } else {
        None
    }
}

/// The operator of a chain that is this token.
#[tactic(auto, unfolding(fst_base::specs::Choice::choose, crate::specs::TermReading::operator))]
fn operator(level: Level, token: &Lexeme<'_>) -> Option<Op>
    ensures { result ≡ operator_of level token.now }
{
    match level {
        Level::Or if spells("||", token) => Some(Op::Or),
        Level::And if spells("&&", token) => Some(Op::And),
        Level::Sum => addition(token),
        Level::Product if spells("*", token) => Some(Op::Multiply),
        _ => None,
    }
}

/// The operator of a comparison, where one comes next, and what stands behind it.
pub fn compared_by<'a>(tokens: &'a [Lexeme<'a>]) -> Option<(Op, &'a [Lexeme<'a>])>
    ensures { MatchOption result (begins (λ k. is_op (comparison k)) tokens.now ≡ false)
        (λ x. (k : Lexeme) × (tokens.now ≡ k ∷ x.1.now) × (comparison k ≡ Some x.0)) }
{
    match tokens {
        [] => None,
        [first, rest @ ..] => match comparison(first) {
            None => None,
            Some(op) => Some((op, rest)),
        },
    }
}

/// The operator of a chain, where one comes next, and what stands behind it.
pub fn chained_by<'a>(level: Level, tokens: &'a [Lexeme<'a>]) -> Option<(Op, &'a [Lexeme<'a>])>
    ensures { MatchOption result (begins (λ k. is_op (operator_of level k)) tokens.now ≡ false)
        (λ x. (k : Lexeme) × (tokens.now ≡ k ∷ x.1.now) × (operator_of level k ≡ Some x.0)) }
{
    match tokens {
        [] => None,
        [first, rest @ ..] => match operator(level, first) {
            None => None,
            Some(op) => Some((op, rest)),
        },
    }
}
