ghost use Rattle.fst_terms.specs.ModelView.{terms_of};
ghost use Rattle.fst_reading.specs.Gives.{Gives};
ghost use Rattle.fst_module_grammar.specs.TermReading.{inside, expr_at, arguments_with, applications_with, head_with, atom_with, begun_with, paren_with};

use crate::terms::{boxed, expr};
use fst_module_grammar::applied::applied;
use fst_module_grammar::building::apply;
use fst_module_grammar::shut::{Wanted, begins_atom, shut};
use fst_module_grammar::starts::{AtomStart, atom_start, plain_start};
use fst_reading::{Lexeme, Stop, after, expect};
use fst_terms::{SourceForm, SourceTerm};
use fst_types::Name;
use std::alloc::Global;

/// The atoms behind a constructor and these arguments.
#[cycle(reader)]
pub(crate) fn arguments<'a>(
    alloc: Global,
    left: u32,
    items: &mut Vec<SourceTerm>,
    tokens: &'a [Lexeme<'a>],
) -> Result<&'a [Lexeme<'a>], Stop<'a>>
    ensures { Gives (λ r. (terms_of items.new.items, r.now)) result
        (arguments_with (inside left) (terms_of items.old.items) tokens.now) }
{
    if !begins_atom(tokens) {
        return Ok(tokens);
    }
    if left == 0 {
        return Err(Stop::TooDeep(tokens));
    }
    let (item, rest) = atom(alloc, left, tokens)?;
    items.push(item)?;
    arguments(alloc, left - 1, items, rest)
}

/// An atom that is no upper name, and what it is applied to.
#[cycle(reader)]
#[tactic(auto, unfolding(crate::specs::Steps::head))]
pub(crate) fn head<'a>(
    alloc: Global,
    left: u32,
    tokens: &'a [Lexeme<'a>],
) -> Result<(SourceTerm, &'a [Lexeme<'a>]), Stop<'a>>
    ensures { Gives (λ x. (x.0, x.1.now)) result
        (head_with (expr_at left) (inside left) tokens.now) }
{
    match tokens {
        [] => Err(Stop::Syntax(tokens)),
        [first, behind @ ..] => match plain_start(first) {
            None => Err(Stop::Syntax(tokens)),
            Some(start) => {
                let (mut term, rest) = begun(alloc, left, start, first, behind)?;
                let rest = applications(alloc, left, first.at, &mut term, rest)?;
                Ok((term, rest))
            }
        },
    }
}

/// The atoms to which this term is applied, which it takes in, and what stands behind them.
#[cycle(reader)]
fn applications<'a>(
    alloc: Global,
    left: u32,
    at: u32,
    term: &mut SourceTerm,
    tokens: &'a [Lexeme<'a>],
) -> Result<&'a [Lexeme<'a>], Stop<'a>>
    ensures { Gives (λ r. (term.new, r.now)) result
        (applications_with at (inside left) term.old tokens.now) }
{
    if !begins_atom(tokens) {
        return Ok(tokens);
    }
    if left == 0 {
        return Err(Stop::TooDeep(tokens));
    }
    let (argument, rest) = atom(alloc, left, tokens)?;
    apply(alloc, at, term, argument)?;
    applications(alloc, left - 1, at, term, rest)
}

/// An atom, where `left` more operands may stand, and what stands behind it.
#[cycle(reader)]
#[tactic(auto, unfolding(crate::specs::Steps::atom))]
pub(crate) fn atom<'a>(
    alloc: Global,
    left: u32,
    tokens: &'a [Lexeme<'a>],
) -> Result<(SourceTerm, &'a [Lexeme<'a>]), Stop<'a>>
    ensures { Gives (λ x. (x.0, x.1.now)) result (atom_with (inside left) tokens.now) }
{
    if left == 0 {
        return Err(shut(Wanted::Atom, tokens));
    }
    match tokens {
        [] => Err(Stop::Syntax(tokens)),
        [first, behind @ ..] => match atom_start(first) {
            None => Err(Stop::Syntax(tokens)),
            Some(start) => begun(alloc, left - 1, start, first, behind),
        },
    }
}

/// The same in memory of its own.
#[cycle(reader)]
pub(crate) fn boxed_atom<'a>(
    alloc: Global,
    left: u32,
    tokens: &'a [Lexeme<'a>],
) -> Result<(Box<SourceTerm>, &'a [Lexeme<'a>]), Stop<'a>>
    ensures { Gives (λ x. (x.0.value, x.1.now)) result (atom_with (inside left) tokens.now) }
{
    let (term, rest) = atom(alloc, left, tokens)?;
    Ok((Box::new(alloc, term)?, rest))
}

/// An atom that begins so with this token.
#[cycle(reader)]
#[tactic(auto, unfolding(fst_reading::specs::Steps::all))]
fn begun<'a>(
    alloc: Global,
    left: u32,
    start: AtomStart,
    first: &Lexeme<'_>,
    tokens: &'a [Lexeme<'a>],
) -> Result<(SourceTerm, &'a [Lexeme<'a>]), Stop<'a>>
    ensures { Gives (λ x. (x.0, x.1.now)) result
        (begun_with (expr_at left) (inside left) start first.now tokens.now) }
{
    let at = first.at;
    match start {
        AtomStart::Name => {
            let (types, rest) = applied(alloc, left, tokens)?;
            let name = Name::of(alloc, first.text.as_bytes())?;
            let form = SourceForm::Named(name, types);
            Ok((SourceTerm { at, form }, rest))
        }
        AtomStart::Constructor => {
            let name = Name::of(alloc, first.text.as_bytes())?;
            let form = SourceForm::Make(name, Vec::new(alloc));
            Ok((SourceTerm { at, form }, tokens))
        }
        AtomStart::Number(value) => {
            let form = SourceForm::Int(value);
            Ok((SourceTerm { at, form }, tokens))
        }
        AtomStart::Character(character) => {
            let form = SourceForm::Char(character);
            Ok((SourceTerm { at, form }, tokens))
        }
        AtomStart::Truth(value) => {
            let form = SourceForm::Bool(value);
            Ok((SourceTerm { at, form }, tokens))
        }
        AtomStart::Paren => paren(alloc, left, at, tokens),
    }
}

/// What stands behind a parenthesis: nothing, one term or two.
#[cycle(reader)]
#[tactic(auto, unfolding(crate::specs::Steps::paren))]
fn paren<'a>(
    alloc: Global,
    left: u32,
    at: u32,
    tokens: &'a [Lexeme<'a>],
) -> Result<(SourceTerm, &'a [Lexeme<'a>]), Stop<'a>>
    ensures { Gives (λ x. (x.0, x.1.now)) result (paren_with (expr_at left) at tokens.now) }
{
    if let Some(behind) = after(")", tokens) {
        let form = SourceForm::Unit;
        return Ok((SourceTerm { at, form }, behind));
    }
    let (first, rest) = expr(alloc, left, tokens)?;
    match after(",", rest) {
        None => {
            let rest = expect(")", rest)?;
            Ok((first, rest))
        }
        Some(behind) => {
            let first = Box::new(alloc, first)?;
            let (second, rest) = boxed(alloc, left, behind)?;
            let rest = expect(")", rest)?;
            let form = SourceForm::Pair(first, second);
            Ok((SourceTerm { at, form }, rest))
        }
    }
}
