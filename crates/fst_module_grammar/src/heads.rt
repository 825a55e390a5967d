ghost use Rattle.std.specs.Prelude.{◌≡◌, ℕ, length};
ghost use Rattle.fst_terms.specs.TermTree as term;
ghost use Rattle.fst_terms.specs.TermTree.{TermTree};
ghost use Rattle.fst_terms.specs.ModelView.{arms_of};
ghost use Rattle.fst_reading.specs.Reading.{Reader, map_reader};
ghost use Rattle.fst_reading.specs.Gives.{Gives};
ghost use Rattle.fst_module_grammar.specs.TermReading.{inside, label_with, arrow_at, let_with, in_with, lambda_with, arm_by, word_of, tree_by};
ghost use Rattle.fst_module_grammar.specs.Levels.{GoesOn, bind_term};

use crate::names::{bound, names};
use crate::shut::{Wanted, shut};
use crate::starts::Arms;
use fst_reading::{Lexeme, Stop, after, after_one, expect, lower, upper};
use fst_terms::{Binder, SourceArm, SourceForm, SourceTerm};
use fst_type_syntax::seq;
use fst_types::{Use, Written};
use std::alloc::Global;

/// The names that a `let` binds: one, or those of both parts of a pair.
#[derive(Drop)]
pub enum Binding {
    One(Binder),
    Two(Binder, Binder),
}

/// An upper name, where `left` more operands may stand, and what stands behind it.
#[tactic(auto, unfolding(crate::specs::TermReading::inside, crate::specs::TermReading::label_with))]
pub fn label<'a>(
    left: u32,
    tokens: &'a [Lexeme<'a>],
) -> Result<(&'a Lexeme<'a>, &'a [Lexeme<'a>]), Stop<'a>>
    ensures { Gives (λ x. (x.0.now, x.1.now)) result (label_with (inside left) tokens.now) }
{
    if left == 0 {
        return Err(shut(Wanted::Label, tokens));
    }
    upper(tokens)
}

/// An arrow, and what stands behind it.
#[tactic(auto, unfolding(fst_reading::specs::Steps::all, crate::specs::TermReading::arrow_at))]
fn arrow<'a>(tokens: &'a [Lexeme<'a>]) -> Result<(Use, &'a [Lexeme<'a>]), Stop<'a>>
    ensures { Gives (λ x. (x.0, x.1.now)) result (arrow_at tokens.now) }
{
    match after_one(tokens) {
        Some(behind) => {
            let rest = expect("->", behind)?;
            Ok((Use::Once, rest))
        }
        None => {
            let rest = expect("->", tokens)?;
            Ok((Use::Many, rest))
        }
    }
}

/// What stands between `let` and the term whose value is bound.
#[tactic(auto, unfolding(crate::specs::Steps::let_head))]
pub fn let_head<'a>(
    alloc: Global,
    tokens: &'a [Lexeme<'a>],
) -> Result<(Binding, &'a [Lexeme<'a>]), Stop<'a>>
    ensures { (e : Reader TermTree) (at : ℕ) → GoesOn
        (λ x. in_with e (bind_term at x.0) x.1.now) result (let_with e at tokens.now) }
{
    match after("(", tokens) {
        None => {
            let (name, rest) = lower(tokens)?;
            let rest = expect("=", rest)?;
            let name = bound(alloc, name)?;
            Ok((Binding::One(name), rest))
        }
        Some(behind) => {
            let (first, rest) = lower(behind)?;
            let rest = expect(",", rest)?;
            let (second, rest) = lower(rest)?;
            let rest = expect(")", rest)?;
            let rest = expect("=", rest)?;
            let first = bound(alloc, first)?;
            let second = bound(alloc, second)?;
            Ok((Binding::Two(first, second), rest))
        }
    }
}

/// What stands between `\` and the body of a function: its parameter with its type, and the arrow.
#[tactic(auto, using(crate::proofs::Inside::length_inside), unfolding(crate::specs::Steps::lambda))]
pub fn parameter<'a>(
    alloc: Global,
    left: u32,
    tokens: &'a [Lexeme<'a>],
) -> Result<((Binder, Written, Use), &'a [Lexeme<'a>]), Stop<'a>>
    ensures { (e : Reader TermTree) (at : ℕ) → GoesOn
        (λ x. map_reader (term.lambda at x.0.2 x.0.1 x.0.0) e x.1.now) result
        (lambda_with e (length (inside left)) at tokens.now) }
{
    let (name, rest) = lower(tokens)?;
    let rest = expect(":", rest)?;
    let (domain, rest) = seq(alloc, left, rest)?;
    let (uses, rest) = arrow(rest)?;
    let name = bound(alloc, name)?;
    Ok(((name, domain, uses), rest))
}

/// What stands before the term of an arm: a constructor or a label, what it binds, and the arrow.
#[tactic(auto, unfolding(crate::specs::Steps::arm_head))]
pub fn arm_head<'a>(
    alloc: Global,
    arms: Arms,
    tokens: &'a [Lexeme<'a>],
) -> Result<((Binder, Vec<Binder>), &'a [Lexeme<'a>]), Stop<'a>>
    ensures { (e : Reader TermTree) → GoesOn
        (λ x. map_reader (λ t. (x.0.0, (x.0.1.items, t))) e x.1.now) result
        (arm_by e arms tokens.now) }
{
    let (label, rest) = upper(tokens)?;
    match arms {
        Arms::Case => {
            let (binders, rest) = names(alloc, rest)?;
            let rest = expect("->", rest)?;
            let label = bound(alloc, label)?;
            Ok(((label, binders), rest))
        }
        Arms::Match => {
            let (binder, rest) = lower(rest)?;
            let rest = expect("->", rest)?;
            let label = bound(alloc, label)?;
            let mut binders = Vec::new(alloc);
            binders.push(bound(alloc, binder)?)?;
            Ok(((label, binders), rest))
        }
    }
}

/// The reserved word behind the term that chooses among arms.
pub fn word_of(arms: Arms) -> &'static str
    ensures { result.now ≡ word_of arms }
{
    match arms {
        Arms::Case => "of",
        Arms::Match => "with",
    }
}

/// The term that begins here and chooses among these arms.
pub fn choose(kind: Arms, at: u32, subject: Box<SourceTerm>, arms: Vec<SourceArm>) -> SourceTerm
    ensures { result ≡ tree_by kind at subject.value (arms_of arms.items) }
{
    match kind {
        Arms::Case => SourceTerm {
            at,
            form: SourceForm::Case(subject, arms),
        },
        Arms::Match => SourceTerm {
            at,
            form: SourceForm::Match(subject, arms),
        },
    }
}
