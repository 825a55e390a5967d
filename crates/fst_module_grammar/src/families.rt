ghost use Rattle.std.specs.Prelude.{◌≡◌, codes, map};
ghost use Rattle.fst_terms.specs.ModuleTree as tree;
ghost use Rattle.fst_terms.specs.ModuleTree.{maker, decl_tree};
ghost use Rattle.fst_reading.specs.Lexeme.{spells};
ghost use Rattle.fst_reading.specs.Reading.{begins, map_reader, sep_by};
ghost use Rattle.fst_type_syntax.specs.TypeReading.{starts_type_atom, type_at};
ghost use Rattle.fst_reading.specs.Gives.{Gives};
ghost use Rattle.fst_module_grammar.specs.DeclReading.{fields_at, maker_at, family_at, alias_at, signature_at};

use crate::names::bound;
use fst_reading::{Lexeme, Stop, after, behind, comes, expect, upper};
use fst_terms::{Binder, Decl, SourceMaker};
use fst_type_syntax::{atom, binders, starts_type_atom, type_};
use fst_types::{Kind, Written};
use std::alloc::Global;
use std::convert::identity;

/// Whether an atomic type comes next.
fn comes_type(tokens: &[Lexeme<'_>]) -> bool
    ensures { result ≡ begins starts_type_atom tokens.now }
{
    match tokens {
        [] => false,
        [first, ..] => starts_type_atom(first),
    }
}

/// The types of a constructor's fields, and what stands behind them.
fn fields<'a>(
    alloc: Global,
    left: u32,
    tokens: &'a [Lexeme<'a>],
) -> Result<(Vec<Written>, &'a [Lexeme<'a>]), Stop<'a>>
    ensures { Gives (λ x. (x.0.items, x.1.now)) result (fields_at left tokens.now) }
{
    let mut fields = Vec::new(alloc);
    let mut rest = tokens;
    for _ in 0..tokens.len() {
        if !comes_type(rest) {
            return Ok((fields, rest));
        }
        let (field, remaining) = atom(alloc, left, rest)?;
        fields.push(field)?;
        rest = identity(remaining);
    }
    Ok((fields, rest))
}

/// A constructor of a data type, and what stands behind it.
#[tactic(auto, unfolding(fst_reading::specs::Steps::all, crate::specs::DeclReading::maker_at))]
fn maker<'a>(
    alloc: Global,
    left: u32,
    tokens: &'a [Lexeme<'a>],
) -> Result<(SourceMaker, &'a [Lexeme<'a>]), Stop<'a>>
    ensures { Gives (λ x. (maker x.0, x.1.now)) result (maker_at left tokens.now) }
{
    let (name, rest) = upper(tokens)?;
    let (fields, rest) = fields(alloc, left, rest)?;
    let name = bound(alloc, name)?;
    Ok((SourceMaker { name, fields }, rest))
}

/// The constructors of a data type, and what stands behind them.
fn makers<'a>(
    alloc: Global,
    left: u32,
    tokens: &'a [Lexeme<'a>],
) -> Result<(Vec<SourceMaker>, &'a [Lexeme<'a>]), Stop<'a>>
    ensures { Gives (λ x. (map maker x.0.items, x.1.now)) result
        (sep_by (spells (codes "|")) (maker_at left) tokens.now) }
{
    let mut makers = Vec::new(alloc);
    let mut rest = tokens;
    for _ in 0..tokens.len() {
        let (maker, remaining) = maker(alloc, left, rest)?;
        makers.push(maker)?;
        if !comes("|", remaining) {
            return Ok((makers, remaining));
        }
        rest = behind(remaining);
    }
    Err(Stop::Syntax(rest))
}

/// A data type behind its reserved word, and what stands behind it.
#[tactic(auto, unfolding(fst_reading::specs::Steps::all, crate::specs::DeclReading::family_at))]
pub fn family<'a>(
    alloc: Global,
    left: u32,
    tokens: &'a [Lexeme<'a>],
) -> Result<(Decl, &'a [Lexeme<'a>]), Stop<'a>>
    ensures { Gives (λ x. (decl_tree x.0, x.1.now)) result (family_at left tokens.now) }
{
    let (name, rest) = upper(tokens)?;
    let rest = expect("=", rest)?;
    let (makers, rest) = makers(alloc, left, rest)?;
    let name = bound(alloc, name)?;
    Ok((Decl::Family(name, makers), rest))
}

/// A name for a type behind its reserved word, and what stands behind it.
#[tactic(auto, unfolding(fst_reading::specs::Steps::all, crate::specs::DeclReading::alias_at))]
pub fn alias<'a>(
    alloc: Global,
    left: u32,
    tokens: &'a [Lexeme<'a>],
) -> Result<(Decl, &'a [Lexeme<'a>]), Stop<'a>>
    ensures { Gives (λ x. (decl_tree x.0, x.1.now)) result (alias_at left tokens.now) }
{
    let (name, rest) = upper(tokens)?;
    let rest = expect("=", rest)?;
    let (body, rest) = type_(alloc, left, rest)?;
    let name = bound(alloc, name)?;
    Ok((Decl::Alias(name, body), rest))
}

/// The type of a global, and what stands behind it; these are its variables.
#[tactic(auto, unfolding(fst_reading::specs::Reading::bind, fst_reading::specs::Reading::map_reader))]
fn typed<'a>(
    alloc: Global,
    left: u32,
    name: Binder,
    binders: Vec<(Binder, Kind)>,
    tokens: &'a [Lexeme<'a>],
) -> Result<(Decl, &'a [Lexeme<'a>]), Stop<'a>>
    ensures { Gives (λ x. (decl_tree x.0, x.1.now)) result
        (map_reader (tree.signature name binders.items) (type_at left) tokens.now) }
{
    let (body, rest) = type_(alloc, left, tokens)?;
    Ok((Decl::Signature(name, binders, body), rest))
}

/// The type of a global behind its colon, and what stands behind it.
#[tactic(auto, unfolding(fst_reading::specs::Steps::all, crate::specs::DeclReading::signature_at))]
pub fn signature<'a>(
    alloc: Global,
    left: u32,
    name: Binder,
    tokens: &'a [Lexeme<'a>],
) -> Result<(Decl, &'a [Lexeme<'a>]), Stop<'a>>
    ensures { Gives (λ x. (decl_tree x.0, x.1.now)) result (signature_at left name tokens.now) }
{
    match after("forall", tokens) {
        None => typed(alloc, left, name, Vec::new(alloc), tokens),
        Some(behind) => {
            let (binders, rest) = binders(alloc, behind)?;
            let rest = expect(".", rest)?;
            typed(alloc, left, name, binders, rest)
        }
    }
}
