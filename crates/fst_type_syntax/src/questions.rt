ghost use Rattle.std.specs.Prelude.{[], codes};
ghost use Rattle.fst_reading.specs.Lexeme.{spells};
ghost use Rattle.fst_reading.specs.Reading.{one, sep_by};
ghost use Rattle.fst_type_syntax.specs.TypeReading.{use_of, prekind_of, binder_at, types_at, question_at};
ghost use Rattle.fst_reading.specs.Gives.{Gives};
ghost use Rattle.fst_type_syntax.specs.Views.{question_tree};

use crate::source::SourceQuestion;
use crate::starts::{prekind_of, use_of};
use crate::types::seq;
use fst_reading::{Lexeme, Stop, after, behind, comes, expect, lower};
use fst_terms::Binder;
use fst_types::{Kind, Name, Prekind, Use};
use std::alloc::Global;

/// The first half of a kind, and what stands behind it.
#[tactic(auto, unfolding(fst_reading::specs::Reading::switch, fst_reading::specs::Reading::give))]
fn uses<'a>(tokens: &'a [Lexeme<'a>]) -> Result<(Use, &'a [Lexeme<'a>]), Stop<'a>>
    ensures { Gives (λ x. (x.0, x.1.now)) result (one use_of tokens.now) }
{
    match tokens {
        [] => Err(Stop::Syntax(tokens)),
        [first, rest @ ..] => match use_of(first) {
            Some(uses) => Ok((uses, rest)),
            None => Err(Stop::Syntax(tokens)),
        },
    }
}

/// The second half of a kind, and what stands behind it.
#[tactic(auto, unfolding(fst_reading::specs::Reading::switch, fst_reading::specs::Reading::give))]
fn prekind<'a>(tokens: &'a [Lexeme<'a>]) -> Result<(Prekind, &'a [Lexeme<'a>]), Stop<'a>>
    ensures { Gives (λ x. (x.0, x.1.now)) result (one prekind_of tokens.now) }
{
    match tokens {
        [] => Err(Stop::Syntax(tokens)),
        [first, rest @ ..] => match prekind_of(first) {
            Some(prekind) => Ok((prekind, rest)),
            None => Err(Stop::Syntax(tokens)),
        },
    }
}

/// A variable with its kind, and what stands behind it.
#[tactic(auto, unfolding(fst_reading::specs::Steps::all, crate::specs::TypeReading::binder_at))]
fn binder<'a>(
    alloc: Global,
    tokens: &'a [Lexeme<'a>],
) -> Result<((Binder, Kind), &'a [Lexeme<'a>]), Stop<'a>>
    ensures { Gives (λ x. (x.0, x.1.now)) result (binder_at tokens.now) }
{
    let (variable, rest) = lower(tokens)?;
    let rest = expect(":", rest)?;
    let (uses, rest) = uses(rest)?;
    let (prekind, rest) = prekind(rest)?;
    let name = Name::of(alloc, variable.text.as_bytes())?;
    let at = variable.at;
    Ok(((Binder { name, at }, Kind { prekind, uses }), rest))
}

/// Variables with their kinds, with commas between them, and what stands behind them.
pub fn binders<'a>(
    alloc: Global,
    tokens: &'a [Lexeme<'a>],
) -> Result<(Vec<(Binder, Kind)>, &'a [Lexeme<'a>]), Stop<'a>>
    ensures { Gives (λ x. (x.0.items, x.1.now)) result
        (sep_by (spells (codes ",")) binder_at tokens.now) }
{
    let mut binders = Vec::new(alloc);
    let mut rest = tokens;
    for _ in 0..tokens.len() {
        let (binder, remaining) = binder(alloc, rest)?;
        binders.push(binder)?;
        if !comes(",", remaining) {
            return Ok((binders, remaining));
        }
        rest = behind(remaining);
    }
    Err(Stop::Syntax(rest))
}

/// The two types of a question, with nothing behind them; these are its variables.
#[tactic(auto, using(crate::proofs::Filled::read_filled), unfolding(crate::specs::Steps::types))]
fn types<'a>(
    alloc: Global,
    left: u32,
    binders: Vec<(Binder, Kind)>,
    tokens: &'a [Lexeme<'a>],
) -> Result<SourceQuestion, Stop<'a>>
    ensures { Gives (λ q. (question_tree q, [])) result (types_at left binders.items tokens.now) }
{
    let (first, rest) = seq(alloc, left, tokens)?;
    let rest = expect("~", rest)?;
    let (second, rest) = seq(alloc, left, rest)?;
    match rest {
        [] => Ok(SourceQuestion {
            binders,
            left: first,
            right: second,
        }),
        _ => Err(Stop::Syntax(rest)),
    }
}

/// A question with nothing behind it, with at most `left` types inside one another.
#[tactic(auto, unfolding(fst_reading::specs::Steps::all, crate::specs::TypeReading::question_at))]
pub(crate) fn question<'a>(
    alloc: Global,
    left: u32,
    tokens: &'a [Lexeme<'a>],
) -> Result<SourceQuestion, Stop<'a>>
    ensures { Gives (λ q. (question_tree q, [])) result (question_at left tokens.now) }
{
    match after("forall", tokens) {
        None => types(alloc, left, Vec::new(alloc), tokens),
        Some(behind) => {
            let (binders, rest) = binders(alloc, behind)?;
            let rest = expect(".", rest)?;
            types(alloc, left, binders, rest)
        }
    }
}
