ghost use Rattle.std.specs.Prelude.{◌-◌, ◌<◌, codes, length, map};
ghost use Rattle.fst_reading.specs.Lexeme.{spells};
ghost use Rattle.fst_reading.specs.Reading.{sep_by};
ghost use Rattle.fst_reading.specs.Gives.{Gives};
ghost use Rattle.fst_module_grammar.specs.TermReading.{inside, expr_at, let_with, if_with, lambda_with, arm_by, choice_with, then_with};
ghost use Rattle.fst_module_grammar.specs.Levels.{arm_parts};

use crate::operands::chain;
use fst_module_grammar::heads::{Binding, arm_head, choose, let_head, parameter, word_of};
use fst_module_grammar::operators::Level;
use fst_module_grammar::shut::{Wanted, shut};
use fst_module_grammar::starts::{Arms, ExprStart, expr_start};
use fst_reading::{Lexeme, Stop, after, behind, comes, expect, start};
use fst_terms::{SourceArm, SourceForm, SourceTerm};
use std::alloc::Global;

/// A term, at most `left` of them inside one another, and what stands behind it.
#[cycle(reader)]
#[tactic(auto, using(crate::proofs::Inside::expr_empty), unfolding(crate::specs::Steps::expr))]
pub(crate) fn expr<'a>(
    alloc: Global,
    left: u32,
    tokens: &'a [Lexeme<'a>],
) -> Result<(SourceTerm, &'a [Lexeme<'a>]), Stop<'a>>
    ensures { Gives (λ x. (x.0, x.1.now)) result (expr_at left tokens.now) }
{
    if left == 0 {
        return Err(shut(Wanted::Term, tokens));
    }
    match tokens {
        [] => Err(Stop::Syntax(tokens)),
        [first, rest @ ..] => match expr_start(first) {
            Some(ExprStart::Let) => let_in(alloc, left - 1, first.at, rest),
            Some(ExprStart::If) => if_else(alloc, left - 1, first.at, rest),
            Some(ExprStart::Lambda) => lambda(alloc, left - 1, first.at, rest),
            Some(ExprStart::Case) => with_arms(alloc, left - 1, Arms::Case, first.at, rest),
            Some(ExprStart::Match) => with_arms(alloc, left - 1, Arms::Match, first.at, rest),
            None => then(alloc, left, tokens),
        },
    }
}

/// The same in memory of its own.
#[cycle(reader)]
pub(crate) fn boxed<'a>(
    alloc: Global,
    left: u32,
    tokens: &'a [Lexeme<'a>],
) -> Result<(Box<SourceTerm>, &'a [Lexeme<'a>]), Stop<'a>>
    ensures { Gives (λ x. (x.0.value, x.1.now)) result (expr_at left tokens.now) }
{
    let (term, rest) = expr(alloc, left, tokens)?;
    Ok((Box::new(alloc, term)?, rest))
}

/// A term that begins with an operand, where at least one may be opened.
#[cycle(reader)]
#[tactic(auto, using(crate::proofs::Inside::inside_next), unfolding(crate::specs::Steps::then_))]
fn then<'a>(
    alloc: Global,
    left: u32,
    tokens: &'a [Lexeme<'a>],
) -> Result<(SourceTerm, &'a [Lexeme<'a>]), Stop<'a>>
    requires { 0 < left }
    ensures { Gives (λ x. (x.0, x.1.now)) result
        (then_with (expr_at (left - 1)) (inside (left - 1)) tokens.now) }
{
    let at = start(tokens);
    let (term, rest) = chain(alloc, Level::Or, left, tokens)?;
    match after(";", rest) {
        None => Ok((term, rest)),
        Some(behind) => {
            let term = Box::new(alloc, term)?;
            let (next, rest) = boxed(alloc, left - 1, behind)?;
            let form = SourceForm::Then(term, next);
            Ok((SourceTerm { at, form }, rest))
        }
    }
}

/// What stands behind `let`.
#[cycle(reader)]
#[tactic(auto, unfolding(crate::specs::Steps::let_in))]
fn let_in<'a>(
    alloc: Global,
    left: u32,
    at: u32,
    tokens: &'a [Lexeme<'a>],
) -> Result<(SourceTerm, &'a [Lexeme<'a>]), Stop<'a>>
    ensures { Gives (λ x. (x.0, x.1.now)) result (let_with (expr_at left) at tokens.now) }
{
    let (binding, rest) = let_head(alloc, tokens)?;
    let (value, rest) = boxed(alloc, left, rest)?;
    let rest = expect("in", rest)?;
    let (body, rest) = boxed(alloc, left, rest)?;
    match binding {
        Binding::One(name) => {
            let form = SourceForm::Let(name, value, body);
            Ok((SourceTerm { at, form }, rest))
        }
        Binding::Two(first, second) => {
            let form = SourceForm::Split(first, second, value, body);
            Ok((SourceTerm { at, form }, rest))
        }
    }
}

/// What stands behind `if`.
#[cycle(reader)]
#[tactic(auto, unfolding(crate::specs::Steps::if_else))]
fn if_else<'a>(
    alloc: Global,
    left: u32,
    at: u32,
    tokens: &'a [Lexeme<'a>],
) -> Result<(SourceTerm, &'a [Lexeme<'a>]), Stop<'a>>
    ensures { Gives (λ x. (x.0, x.1.now)) result (if_with (expr_at left) at tokens.now) }
{
    let (condition, rest) = boxed(alloc, left, tokens)?;
    let rest = expect("then", rest)?;
    let (yes, rest) = boxed(alloc, left, rest)?;
    let rest = expect("else", rest)?;
    let (no, rest) = boxed(alloc, left, rest)?;
    let form = SourceForm::If(condition, yes, no);
    Ok((SourceTerm { at, form }, rest))
}

/// What stands behind `\`.
#[cycle(reader)]
#[tactic(auto, unfolding(fst_reading::specs::Reading::bind, fst_reading::specs::Reading::map_reader))]
fn lambda<'a>(
    alloc: Global,
    left: u32,
    at: u32,
    tokens: &'a [Lexeme<'a>],
) -> Result<(SourceTerm, &'a [Lexeme<'a>]), Stop<'a>>
    ensures { Gives (λ x. (x.0, x.1.now)) result
        (lambda_with (expr_at left) (length (inside left)) at tokens.now) }
{
    let ((name, domain, uses), rest) = parameter(alloc, left, tokens)?;
    let (body, rest) = boxed(alloc, left, rest)?;
    let form = SourceForm::Lambda(uses, domain, name, body);
    Ok((SourceTerm { at, form }, rest))
}

/// What stands behind `case` or `match`.
#[cycle(reader)]
#[tactic(auto, using(crate::proofs::Inside::arms_parts), unfolding(crate::specs::Steps::choices))]
fn with_arms<'a>(
    alloc: Global,
    left: u32,
    kind: Arms,
    at: u32,
    tokens: &'a [Lexeme<'a>],
) -> Result<(SourceTerm, &'a [Lexeme<'a>]), Stop<'a>>
    ensures { Gives (λ x. (x.0, x.1.now)) result (choice_with (expr_at left) kind at tokens.now) }
{
    let (subject, rest) = boxed(alloc, left, tokens)?;
    let rest = expect(word_of(kind), rest)?;
    let rest = expect("{", rest)?;
    let (arms, rest) = arms(alloc, left, kind, rest)?;
    let rest = expect("}", rest)?;
    Ok((choose(kind, at, subject, arms), rest))
}

/// The arms with commas between them.
#[cycle(reader)]
fn arms<'a>(
    alloc: Global,
    left: u32,
    kind: Arms,
    tokens: &'a [Lexeme<'a>],
) -> Result<(Vec<SourceArm>, &'a [Lexeme<'a>]), Stop<'a>>
    ensures { Gives (λ x. (map arm_parts x.0.items, x.1.now)) result
        (sep_by (spells (codes ",")) (arm_by (expr_at left) kind) tokens.now) }
{
    let mut arms = Vec::new(alloc);
    let mut rest = tokens;
    for _ in 0..tokens.len() {
        let (arm, remaining) = arm(alloc, left, kind, rest)?;
        arms.push(arm)?;
        if !comes(",", remaining) {
            return Ok((arms, remaining));
        }
        rest = behind(remaining);
    }
    Err(Stop::Syntax(rest))
}

/// One arm.
#[cycle(reader)]
#[tactic(auto, unfolding(fst_reading::specs::Reading::bind, fst_reading::specs::Reading::map_reader))]
fn arm<'a>(
    alloc: Global,
    left: u32,
    kind: Arms,
    tokens: &'a [Lexeme<'a>],
) -> Result<(SourceArm, &'a [Lexeme<'a>]), Stop<'a>>
    ensures { Gives (λ x. (arm_parts x.0, x.1.now)) result (arm_by (expr_at left) kind tokens.now) }
{
    let ((label, binders), rest) = arm_head(alloc, kind, tokens)?;
    let (body, rest) = expr(alloc, left, rest)?;
    Ok((
        SourceArm {
            label,
            binders,
            body,
        },
        rest,
    ))
}
