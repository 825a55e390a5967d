ghost use Rattle.std.specs.Prelude.{[]};
ghost use Rattle.fst_terms.specs.ModuleTree.{decl_tree};
ghost use Rattle.fst_reading.specs.Gives.{Gives};
ghost use Rattle.fst_module_grammar.specs.DeclReading.{equation_at, decl_at, decl_whole};

use crate::terms::expr;
use fst_module_grammar::families::{alias, family, signature};
use fst_module_grammar::names::{bound, names};
use fst_reading::{Lexeme, Stop, after, expect, lower};
use fst_terms::{Binder, Decl};
use std::alloc::Global;

/// The parameters and the body of a global, and what stands behind them.
#[tactic(auto, unfolding(crate::specs::Steps::equation))]
fn equation<'a>(
    alloc: Global,
    left: u32,
    name: Binder,
    tokens: &'a [Lexeme<'a>],
) -> Result<(Decl, &'a [Lexeme<'a>]), Stop<'a>>
    ensures { Gives (λ x. (decl_tree x.0, x.1.now)) result (equation_at left name tokens.now) }
{
    let (binders, rest) = names(alloc, tokens)?;
    let rest = expect("=", rest)?;
    let (body, rest) = expr(alloc, left, rest)?;
    Ok((Decl::Equation(name, binders, body), rest))
}

/// A declaration, with at most `left` types or terms inside one another, and what stands behind it.
#[tactic(auto, unfolding(crate::specs::Steps::decl))]
pub(crate) fn decl<'a>(
    alloc: Global,
    left: u32,
    tokens: &'a [Lexeme<'a>],
) -> Result<(Decl, &'a [Lexeme<'a>]), Stop<'a>>
    ensures { Gives (λ x. (decl_tree x.0, x.1.now)) result (decl_at left tokens.now) }
{
    if let Some(behind) = after("data", tokens) {
        return family(alloc, left, behind);
    }
    if let Some(behind) = after("type", tokens) {
        return alias(alloc, left, behind);
    }
    let (name, rest) = lower(tokens)?;
    let name = bound(alloc, name)?;
    match after(":", rest) {
        Some(behind) => signature(alloc, left, name, behind),
        None => equation(alloc, left, name, rest),
    }
}

/// A declaration with nothing behind it, with at most `left` types or terms inside one another.
#[tactic(auto, unfolding(crate::specs::Steps::whole_decl))]
pub(crate) fn whole_decl<'a>(
    alloc: Global,
    left: u32,
    tokens: &'a [Lexeme<'a>],
) -> Result<Decl, Stop<'a>>
    ensures { Gives (λ d. (decl_tree d, [])) result (decl_whole left tokens.now) }
{
    let (decl, rest) = decl(alloc, left, tokens)?;
    match rest {
        [] => Ok(decl),
        _ => Err(Stop::Syntax(rest)),
    }
}
