ghost use Rattle.std.specs.Prelude.{codes, map};
ghost use Rattle.fst_types.specs.WrittenTree as written;
ghost use Rattle.fst_types.specs.WrittenTree.{WrittenTree, WrittenBranches};
ghost use Rattle.fst_types.specs.ModelWrittenView.{written_branches};
ghost use Rattle.fst_reading.specs.Lexeme.{spells};
ghost use Rattle.fst_reading.specs.Reading.{sep_by, map_reader};
ghost use Rattle.fst_type_syntax.specs.TypeReading.{alt_with, choice_with, pair_with, paren_with, begun_with, atom_with, rec_with, chain_with, seq_with, arrow_with, type_with, seq_at, type_at};
ghost use Rattle.fst_reading.specs.Gives.{Gives};
ghost use Rattle.fst_type_syntax.specs.Views.{labelled};

use crate::bases::base;
use crate::starts::{Start, shut, start_of};
use fst_reading::{Lexeme, Stop, after, after_one, behind, comes, expect, lower, start, upper};
use fst_types::{Base, Name, Use, Written, WrittenBranch, WrittenForm};
use std::alloc::Global;

/// One branch of a choice.
#[cycle(reader)]
#[tactic(auto, unfolding(fst_reading::specs::Steps::all, crate::specs::TypeReading::alt_with))]
fn alt<'a>(
    alloc: Global,
    left: u32,
    tokens: &'a [Lexeme<'a>],
) -> Result<(WrittenBranch, &'a [Lexeme<'a>]), Stop<'a>>
    ensures { Gives (λ x. (labelled x.0, x.1.now)) result
        (alt_with (seq_at left) (type_at left) tokens.now) }
{
    let (label, rest) = upper(tokens)?;
    let rest = expect(":", rest)?;
    let (body, rest) = seq(alloc, left, rest)?;
    let label = Name::of(alloc, label.text.as_bytes())?;
    Ok((WrittenBranch { label, body }, rest))
}

/// The branches of a choice with commas between them.
#[cycle(reader)]
fn alts<'a>(
    alloc: Global,
    left: u32,
    tokens: &'a [Lexeme<'a>],
) -> Result<(Vec<WrittenBranch>, &'a [Lexeme<'a>]), Stop<'a>>
    ensures { Gives (λ x. (map labelled x.0.items, x.1.now)) result
        (sep_by (spells (codes ",")) (alt_with (seq_at left) (type_at left)) tokens.now) }
{
    let mut branches = Vec::new(alloc);
    let mut rest = tokens;
    for _ in 0..tokens.len() {
        let (branch, remaining) = alt(alloc, left, rest)?;
        branches.push(branch)?;
        if !comes(",", remaining) {
            return Ok((branches, remaining));
        }
        rest = behind(remaining);
    }
    Err(Stop::Syntax(rest))
}

/// The branches of a choice in braces.
#[cycle(reader)]
#[tactic(auto, using(crate::proofs::Branches::same_kept), unfolding(crate::specs::Steps::choice))]
fn choice<'a>(
    alloc: Global,
    left: u32,
    tokens: &'a [Lexeme<'a>],
) -> Result<(Vec<WrittenBranch>, &'a [Lexeme<'a>]), Stop<'a>>
    ensures { (make : WrittenBranches → WrittenTree) → Gives
        (λ x. (make (written_branches x.0.items), x.1.now)) result
        (choice_with (seq_at left) (type_at left) make tokens.now) }
{
    let rest = expect("{", tokens)?;
    let (branches, rest) = alts(alloc, left, rest)?;
    let rest = expect("}", rest)?;
    Ok((branches, rest))
}

/// A type, at most `left` of them inside one another, and what stands behind it.
#[cycle(reader)]
#[tactic(auto, unfolding(crate::specs::TypeReading::seq_at))]
pub fn seq<'a>(
    alloc: Global,
    left: u32,
    tokens: &'a [Lexeme<'a>],
) -> Result<(Written, &'a [Lexeme<'a>]), Stop<'a>>
    ensures { Gives (λ x. (x.0, x.1.now)) result (seq_at left tokens.now) }
{
    if left == 0 {
        return Err(shut(tokens));
    }
    seq_inside(alloc, left - 1, tokens)
}

#[cycle(reader)]
#[tactic(auto, unfolding(fst_reading::specs::Steps::all, crate::specs::TypeReading::seq_with))]
fn seq_inside<'a>(
    alloc: Global,
    left: u32,
    tokens: &'a [Lexeme<'a>],
) -> Result<(Written, &'a [Lexeme<'a>]), Stop<'a>>
    ensures { Gives (λ x. (x.0, x.1.now)) result
        (seq_with (seq_at left) (type_at left) tokens.now) }
{
    let at = start(tokens);
    match after("rec", tokens) {
        Some(behind) => rec_body(alloc, left, at, behind),
        None => chain(alloc, left, at, tokens),
    }
}

#[cycle(reader)]
#[tactic(auto, unfolding(fst_reading::specs::Steps::all, crate::specs::TypeReading::rec_with))]
fn rec_body<'a>(
    alloc: Global,
    left: u32,
    at: u32,
    tokens: &'a [Lexeme<'a>],
) -> Result<(Written, &'a [Lexeme<'a>]), Stop<'a>>
    ensures { Gives (λ x. (x.0, x.1.now)) result
        (rec_with (seq_at left) (type_at left) at tokens.now) }
{
    let (name, rest) = lower(tokens)?;
    let rest = expect(".", rest)?;
    let (body, rest) = seq(alloc, left, rest)?;
    let name = Name::of(alloc, name.text.as_bytes())?;
    let body = Box::new(alloc, body)?;
    let form = WrittenForm::Rec(name, body);
    Ok((Written { at, form }, rest))
}

#[cycle(reader)]
#[tactic(auto, unfolding(fst_reading::specs::Steps::all, crate::specs::TypeReading::chain_with))]
fn chain<'a>(
    alloc: Global,
    left: u32,
    at: u32,
    tokens: &'a [Lexeme<'a>],
) -> Result<(Written, &'a [Lexeme<'a>]), Stop<'a>>
    ensures { Gives (λ x. (x.0, x.1.now)) result
        (chain_with (seq_at left) (type_at left) at tokens.now) }
{
    let (first, rest) = atom(alloc, left, tokens)?;
    match after(";", rest) {
        None => Ok((first, rest)),
        Some(behind) => {
            let (second, rest) = seq(alloc, left, behind)?;
            let first = Box::new(alloc, first)?;
            let second = Box::new(alloc, second)?;
            let form = WrittenForm::Seq(first, second);
            Ok((Written { at, form }, rest))
        }
    }
}

/// An atomic type with at most `left` types inside one another in it, and what stands behind it.
#[cycle(reader)]
#[tactic(auto, unfolding(fst_reading::specs::Steps::all, crate::specs::TypeReading::atom_with))]
pub fn atom<'a>(
    alloc: Global,
    left: u32,
    tokens: &'a [Lexeme<'a>],
) -> Result<(Written, &'a [Lexeme<'a>]), Stop<'a>>
    ensures { Gives (λ x. (x.0, x.1.now)) result
        (atom_with (seq_at left) (type_at left) tokens.now) }
{
    match tokens {
        [] => Err(Stop::Syntax(tokens)),
        [first, rest @ ..] => match start_of(first) {
            Some(start) => begun(alloc, left, start, first, rest),
            None => Err(Stop::Syntax(tokens)),
        },
    }
}

/// An atomic type that begins so with this token.
#[cycle(reader)]
#[tactic(auto, unfolding(fst_reading::specs::Steps::all))]
fn begun<'a>(
    alloc: Global,
    left: u32,
    start: Start,
    first: &Lexeme<'_>,
    rest: &'a [Lexeme<'a>],
) -> Result<(Written, &'a [Lexeme<'a>]), Stop<'a>>
    ensures { Gives (λ x. (x.0, x.1.now)) result
        (begun_with (seq_at left) (type_at left) start first.now rest.now) }
{
    let at = first.at;
    match start {
        Start::Skip => {
            let form = WrittenForm::Skip;
            Ok((Written { at, form }, rest))
        }
        Start::Word(base) => {
            let form = WrittenForm::Plain(base);
            Ok((Written { at, form }, rest))
        }
        Start::Name => {
            let form = WrittenForm::Named(Name::of(alloc, first.text.as_bytes())?);
            Ok((Written { at, form }, rest))
        }
        Start::Send => {
            let (base, rest) = base(rest)?;
            let form = WrittenForm::Send(base);
            Ok((Written { at, form }, rest))
        }
        Start::Receive => {
            let (base, rest) = base(rest)?;
            let form = WrittenForm::Receive(base);
            Ok((Written { at, form }, rest))
        }
        Start::Close => {
            let form = WrittenForm::Close;
            Ok((Written { at, form }, rest))
        }
        Start::Wait => {
            let form = WrittenForm::Wait;
            Ok((Written { at, form }, rest))
        }
        Start::Select => {
            let (branches, rest) = choice(alloc, left, rest)?;
            let form = WrittenForm::Select(branches);
            Ok((Written { at, form }, rest))
        }
        Start::Offer => {
            let (branches, rest) = choice(alloc, left, rest)?;
            let form = WrittenForm::Offer(branches);
            Ok((Written { at, form }, rest))
        }
        Start::Paren => paren(alloc, left, at, rest),
    }
}

/// What stands behind a parenthesis: nothing, one type or two.
#[cycle(reader)]
#[tactic(auto, unfolding(fst_reading::specs::Steps::all, crate::specs::TypeReading::paren_with))]
fn paren<'a>(
    alloc: Global,
    left: u32,
    at: u32,
    tokens: &'a [Lexeme<'a>],
) -> Result<(Written, &'a [Lexeme<'a>]), Stop<'a>>
    ensures { Gives (λ x. (x.0, x.1.now)) result
        (paren_with (seq_at left) (type_at left) at tokens.now) }
{
    if let Some(behind) = after(")", tokens) {
        return Ok((
            Written {
                at,
                form: WrittenForm::Plain(Base::Unit),
            },
            behind,
        ));
    }
    let (inner, rest) = type_(alloc, left, tokens)?;
    match after(",", rest) {
        Some(behind) => pair(alloc, left, at, inner, behind),
        None => {
            let rest = expect(")", rest)?;
            Ok((inner, rest))
        }
    }
}

/// The second type of a pair.
#[cycle(reader)]
#[tactic(auto, unfolding(fst_reading::specs::Steps::all, crate::specs::TypeReading::pair_with))]
fn pair<'a>(
    alloc: Global,
    left: u32,
    at: u32,
    first: Written,
    tokens: &'a [Lexeme<'a>],
) -> Result<(Written, &'a [Lexeme<'a>]), Stop<'a>>
    ensures { Gives (λ x. (x.0, x.1.now)) result
        (pair_with (seq_at left) (type_at left) at first tokens.now) }
{
    let (second, rest) = type_(alloc, left, tokens)?;
    let rest = expect(")", rest)?;
    let first = Box::new(alloc, first)?;
    let second = Box::new(alloc, second)?;
    let form = WrittenForm::Pair(first, second);
    Ok((Written { at, form }, rest))
}

/// A type with its arrows, at most `left` of them inside one another, and what stands behind it.
#[cycle(reader)]
#[tactic(auto, unfolding(crate::specs::Steps::arrows))]
pub fn type_<'a>(
    alloc: Global,
    left: u32,
    tokens: &'a [Lexeme<'a>],
) -> Result<(Written, &'a [Lexeme<'a>]), Stop<'a>>
    ensures { Gives (λ x. (x.0, x.1.now)) result (type_at left tokens.now) }
{
    if left == 0 {
        return Err(shut(tokens));
    }
    let at = start(tokens);
    let (first, rest) = seq_inside(alloc, left - 1, tokens)?;
    arrow(alloc, left - 1, at, first, rest)
}

/// What stands behind the first type of a type: an arrow and a type, or nothing of it.
#[cycle(reader)]
#[tactic(auto, unfolding(fst_reading::specs::Steps::all, crate::specs::TypeReading::arrow_with))]
fn arrow<'a>(
    alloc: Global,
    left: u32,
    at: u32,
    first: Written,
    tokens: &'a [Lexeme<'a>],
) -> Result<(Written, &'a [Lexeme<'a>]), Stop<'a>>
    ensures { Gives (λ x. (x.0, x.1.now)) result
        (arrow_with (seq_at left) (type_at left) at first tokens.now) }
{
    if let Some(behind) = after("->", tokens) {
        return function(alloc, left, at, Use::Many, first, behind);
    }
    match after_one(tokens) {
        None => Ok((first, tokens)),
        Some(behind) => {
            let rest = expect("->", behind)?;
            function(alloc, left, at, Use::Once, first, rest)
        }
    }
}

/// What stands behind an arrow.
#[cycle(reader)]
#[tactic(auto, unfolding(fst_reading::specs::Reading::bind, fst_reading::specs::Reading::map_reader))]
fn function<'a>(
    alloc: Global,
    left: u32,
    at: u32,
    uses: Use,
    first: Written,
    tokens: &'a [Lexeme<'a>],
) -> Result<(Written, &'a [Lexeme<'a>]), Stop<'a>>
    ensures { Gives (λ x. (x.0, x.1.now)) result
        (map_reader (written.arrow at uses first) (type_at left) tokens.now) }
{
    let (second, rest) = type_(alloc, left, tokens)?;
    let first = Box::new(alloc, first)?;
    let second = Box::new(alloc, second)?;
    let form = WrittenForm::Arrow(uses, first, second);
    Ok((Written { at, form }, rest))
}
