ghost use Rattle.fst_reading.specs.Gives.{Gives};
ghost use Rattle.fst_module_grammar.specs.TermReading.{inside, chain_with, cmp_with, unary_with, app_begun_with};
ghost use Rattle.fst_module_grammar.specs.Levels.{operator_of, operand_with, level_with};

use crate::atoms::{arguments, boxed_atom, head};
use fst_module_grammar::applied::type_atom;
use fst_module_grammar::building::operate;
use fst_module_grammar::heads::label;
use fst_module_grammar::operators::{Level, chained_by, compared_by};
use fst_module_grammar::shut::{Wanted, shut};
use fst_module_grammar::starts::{AppStart, app_start};
use fst_reading::{Lexeme, Stop, spells, start};
use fst_terms::{SourceForm, SourceTerm};
use fst_types::Name;
use std::alloc::Global;

/// A chain of operands, and what stands behind it.
#[cycle(reader)]
#[tactic(auto, using(crate::proofs::Inside::next_inside), unfolding(crate::specs::Steps::chains))]
pub(crate) fn chain<'a>(
    alloc: Global,
    level: Level,
    left: u32,
    tokens: &'a [Lexeme<'a>],
) -> Result<(SourceTerm, &'a [Lexeme<'a>]), Stop<'a>>
    ensures { Gives (λ x. (x.0, x.1.now)) result (level_with level (inside left) tokens.now) }
{
    let at = start(tokens);
    let (mut term, rest) = operand(alloc, level, left, tokens)?;
    let rest = more(alloc, level, left.saturating_sub(1), at, &mut term, rest)?;
    Ok((term, rest))
}

/// An operand of a chain.
#[cycle(reader)]
fn operand<'a>(
    alloc: Global,
    level: Level,
    left: u32,
    tokens: &'a [Lexeme<'a>],
) -> Result<(SourceTerm, &'a [Lexeme<'a>]), Stop<'a>>
    ensures { Gives (λ x. (x.0, x.1.now)) result (operand_with level (inside left) tokens.now) }
{
    match level {
        Level::Or => chain(alloc, Level::And, left, tokens),
        Level::And => compared(alloc, left, tokens),
        Level::Sum => chain(alloc, Level::Product, left, tokens),
        Level::Product => unary(alloc, left, tokens),
    }
}

/// The operators of a chain with the operands behind them, which this term takes in, and what stands behind them.
#[cycle(reader)]
fn more<'a>(
    alloc: Global,
    level: Level,
    left: u32,
    at: u32,
    term: &mut SourceTerm,
    tokens: &'a [Lexeme<'a>],
) -> Result<&'a [Lexeme<'a>], Stop<'a>>
    ensures { Gives (λ r. (term.new, r.now)) result
        (chain_with (operator_of level) (operand_with level) at (inside left) term.old tokens.now) }
{
    match chained_by(level, tokens) {
        None => Ok(tokens),
        Some((op, behind)) => {
            if left == 0 {
                return Err(Stop::TooDeep(tokens));
            }
            let (second, rest) = operand(alloc, level, left, behind)?;
            operate(alloc, at, op, term, second)?;
            more(alloc, level, left - 1, at, term, rest)
        }
    }
}

/// A sum, or a comparison of two.
#[cycle(reader)]
#[tactic(auto, unfolding(crate::specs::Steps::compared))]
fn compared<'a>(
    alloc: Global,
    left: u32,
    tokens: &'a [Lexeme<'a>],
) -> Result<(SourceTerm, &'a [Lexeme<'a>]), Stop<'a>>
    ensures { Gives (λ x. (x.0, x.1.now)) result (cmp_with (inside left) tokens.now) }
{
    if left == 0 {
        return Err(shut(Wanted::Operand, tokens));
    }
    let at = start(tokens);
    let (first, rest) = chain(alloc, Level::Sum, left, tokens)?;
    match compared_by(rest) {
        None => Ok((first, rest)),
        Some((op, behind)) => {
            let first = Box::new(alloc, first)?;
            let (second, rest) = boxed_sum(alloc, left, behind)?;
            let form = SourceForm::Operate(op, first, second);
            Ok((SourceTerm { at, form }, rest))
        }
    }
}

/// A sum in memory of its own.
#[cycle(reader)]
fn boxed_sum<'a>(
    alloc: Global,
    left: u32,
    tokens: &'a [Lexeme<'a>],
) -> Result<(Box<SourceTerm>, &'a [Lexeme<'a>]), Stop<'a>>
    ensures { Gives (λ x. (x.0.value, x.1.now)) result
        (level_with Level.Sum (inside left) tokens.now) }
{
    let (term, rest) = chain(alloc, Level::Sum, left, tokens)?;
    Ok((Box::new(alloc, term)?, rest))
}

/// An application behind any number of `not`s.
#[cycle(reader)]
#[tactic(auto, unfolding(crate::specs::Steps::unary))]
fn unary<'a>(
    alloc: Global,
    left: u32,
    tokens: &'a [Lexeme<'a>],
) -> Result<(SourceTerm, &'a [Lexeme<'a>]), Stop<'a>>
    ensures { Gives (λ x. (x.0, x.1.now)) result (unary_with (inside left) tokens.now) }
{
    if left == 0 {
        return Err(shut(Wanted::Operand, tokens));
    }
    match tokens {
        [] => Err(Stop::Syntax(tokens)),
        [first, behind @ ..] => {
            if spells("not", first) {
                let (inner, rest) = unary(alloc, left - 1, behind)?;
                let form = SourceForm::Not(Box::new(alloc, inner)?);
                return Ok((SourceTerm { at: first.at, form }, rest));
            }
            match app_start(first) {
                Some(start) => app(alloc, left - 1, start, first, behind),
                None => head(alloc, left - 1, tokens),
            }
        }
    }
}

/// An application that begins so with this token.
#[cycle(reader)]
#[tactic(auto, using(crate::proofs::Inside::next_inside), unfolding(crate::specs::Steps::app))]
fn app<'a>(
    alloc: Global,
    left: u32,
    start: AppStart,
    first: &Lexeme<'_>,
    tokens: &'a [Lexeme<'a>],
) -> Result<(SourceTerm, &'a [Lexeme<'a>]), Stop<'a>>
    ensures { Gives (λ x. (x.0, x.1.now)) result
        (app_begun_with (inside left) start first.now tokens.now) }
{
    let at = first.at;
    match start {
        AppStart::Send => {
            let (value, rest) = boxed_atom(alloc, left, tokens)?;
            let (channel, rest) = boxed_atom(alloc, left.saturating_sub(1), rest)?;
            let form = SourceForm::Send(value, channel);
            Ok((SourceTerm { at, form }, rest))
        }
        AppStart::Receive => {
            let (channel, rest) = boxed_atom(alloc, left, tokens)?;
            let form = SourceForm::Receive(channel);
            Ok((SourceTerm { at, form }, rest))
        }
        AppStart::Close => {
            let (channel, rest) = boxed_atom(alloc, left, tokens)?;
            let form = SourceForm::Close(channel);
            Ok((SourceTerm { at, form }, rest))
        }
        AppStart::Wait => {
            let (channel, rest) = boxed_atom(alloc, left, tokens)?;
            let form = SourceForm::Wait(channel);
            Ok((SourceTerm { at, form }, rest))
        }
        AppStart::Select => {
            let (label, rest) = label(left, tokens)?;
            let label = Name::of(alloc, label.text.as_bytes())?;
            let (channel, rest) = boxed_atom(alloc, left.saturating_sub(1), rest)?;
            let form = SourceForm::Select(label, channel);
            Ok((SourceTerm { at, form }, rest))
        }
        AppStart::New => {
            let (protocol, rest) = type_atom(alloc, left, tokens)?;
            let form = SourceForm::New(protocol);
            Ok((SourceTerm { at, form }, rest))
        }
        AppStart::Fork => {
            let (task, rest) = boxed_atom(alloc, left, tokens)?;
            let form = SourceForm::Fork(task);
            Ok((SourceTerm { at, form }, rest))
        }
        AppStart::Make => {
            let mut items = Vec::new(alloc);
            let rest = arguments(alloc, left, &mut items, tokens)?;
            let name = Name::of(alloc, first.text.as_bytes())?;
            let form = SourceForm::Make(name, items);
            Ok((SourceTerm { at, form }, rest))
        }
    }
}
