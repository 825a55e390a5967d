ghost use Rattle.std.specs.Prelude.{◌≡◌, ◌++◌, IfOk, codes};
ghost use Rattle.std.specs.String.{string_bytes};
ghost use Rattle.fst_base.specs.Gains.{Gains};
ghost use Rattle.fst_type_print.specs.Texts.{counts_text, difference_text, kind_text, kinds_text, mismatch_text, phrase_text, prekind_text, refusal_text, use_text, variable_text};

use crate::pieces::push_variable;
use crate::words::side_text;
use fst_base::push_number;
use fst_types::{Kind, Name, Prekind, Side, Use};
use std::alloc::{AllocError, Global};

/// Why a text is refused.
#[derive(Drop)]
pub enum Phrase {
    /// The bytes are no text in UTF-8.
    NotUtf8,
    /// No token begins with this character.
    BadChar,
    /// A number that doesn't fit its type.
    WideNumber,
    /// A name of too many bytes.
    LongName,
    /// The tokens are in no order that the grammar has.
    Syntax,
    /// A name that nothing around it binds.
    Unbound(Name),
    /// A name that is declared a second time.
    Twice(Name),
    /// An alias of this name that leads back to itself.
    AliasLoop(Name),
    /// A name with the first number of parts, where the second one is wanted.
    Arity(u64, u64),
    /// A module that declares no main function.
    NoMain,
    /// A recursive type whose body comes to its own variable before any move.
    NotContractive,
    /// A part has the first kind, which isn't below the second, wanted one.
    WrongKind(Kind, Kind),
    /// The k-th type variable of a signature that has fewer, counted from 0.
    UnboundType(u64),
    /// A choice with this label twice.
    DoubleLabel(Name),
    /// A term of the first type, where one of the second type is wanted; and, where two protocols
    /// differ, a word that just one of them performs, the left one being the first.
    Mismatch(String, String, Option<(String, Side)>),
    /// A linear variable that isn't used.
    Unused(Name),
    /// A linear variable that is used a second time.
    UsedTwice(Name),
    /// A linear variable from outside, in a function that may be applied at will.
    CapturedLinear(Name),
    /// A linear variable that just one of two branches uses.
    Branches(Name),
    /// A term of this type that is applied, and is no function.
    NotFunction(String),
    /// A term of this type that is taken apart, and is no pair.
    NotPair(String),
    /// A type whose values can't be shown.
    NotPrintable(String),
    /// A global at the first number of types, where the second one is wanted.
    TypeArguments(u64, u64),
    /// A type argument of the first kind, which isn't below the second, wanted one.
    KindOfArgument(Kind, Kind),
    /// A move that is asked of an end, and the end's type, which doesn't have it.
    NoSuchMove(String, String),
    /// A term of this type, and arms that aren't its constructors or labels, each once.
    Arms(String),
    /// A value of this type that is dropped, and has to be used.
    Dropped(String),
    /// A line that no certificate has there.
    Certificate,
    /// A certificate that doesn't show that its two types are equivalent.
    NoBasis,
}

/// A refusal of a text: the line and the column of its cause, both counted from 1, and the cause.
#[derive(Drop)]
pub struct Refusal {
    pub line: u32,
    pub column: u32,
    pub phrase: Phrase,
}

fn use_text(uses: Use) -> &'static str
    ensures { result.now ≡ use_text uses }
{
    match uses {
        Use::Many => "*",
        Use::Once => "1",
    }
}

fn prekind_text(prekind: Prekind) -> &'static str
    ensures { result.now ≡ prekind_text prekind }
{
    match prekind {
        Prekind::Session => "S",
        Prekind::Top => "T",
    }
}

pub fn push_kind(text: &mut String, kind: Kind) -> Result<(), AllocError>
    ensures { Gains result text.old text.new (kind_text kind) }
{
    text.push_str(use_text(kind.uses))?;
    text.push_str(prekind_text(kind.prekind))
}

fn push_cause(text: &mut String, cause: &str, cited: &str) -> Result<(), AllocError>
    ensures { Gains result text.old text.new (cause.now ++ cited.now) }
{
    text.push_str(cause)?;
    text.push_str(cited)
}

fn push_counts(text: &mut String, cause: &str, got: u64, wanted: u64) -> Result<(), AllocError>
    ensures { Gains result text.old text.new (counts_text cause.now got wanted) }
{
    text.push_str(cause)?;
    push_number(text, got)?;
    text.push_str(" wanted ")?;
    push_number(text, wanted)
}

fn push_kinds(text: &mut String, got: Kind, wanted: Kind) -> Result<(), AllocError>
    ensures { Gains result text.old text.new (kinds_text got wanted) }
{
    text.push_str("kind ")?;
    push_kind(text, got)?;
    text.push_str(" wanted ")?;
    push_kind(text, wanted)
}

fn push_unbound_type(text: &mut String, k: u64) -> Result<(), AllocError>
    ensures { Gains result text.old text.new (codes "unbound type " ++ variable_text k) }
{
    text.push_str("unbound type ")?;
    push_variable(text, k)
}

fn push_difference(text: &mut String, difference: &Option<(String, Side)>) -> Result<(), AllocError>
    ensures { Gains result text.old text.new (difference_text difference.now) }
{
    let Some((word, side)) = difference else {
        return Ok(());
    };
    text.push_str(" word ")?;
    text.push_str(word.as_str())?;
    text.push_str(" ")?;
    text.push_str(side_text(*side))
}

fn push_mismatch(
    text: &mut String,
    got: &str,
    wanted: &str,
    difference: &Option<(String, Side)>,
) -> Result<(), AllocError>
    ensures { Gains result text.old text.new (mismatch_text got.now wanted.now difference.now) }
{
    text.push_str("type ")?;
    text.push_str(got)?;
    text.push_str(" wanted ")?;
    text.push_str(wanted)?;
    push_difference(text, difference)
}

fn push_no_move(text: &mut String, asked: &str, t: &str) -> Result<(), AllocError>
    ensures { Gains result text.old text.new
        (codes "no move " ++ asked.now ++ codes " in " ++ t.now) }
{
    text.push_str("no move ")?;
    text.push_str(asked)?;
    text.push_str(" in ")?;
    text.push_str(t)
}

fn push_phrase(text: &mut String, phrase: &Phrase) -> Result<(), AllocError>
    ensures { Gains result text.old text.new (phrase_text phrase.now) }
{
    match phrase {
        Phrase::NotUtf8 => text.push_str("not utf-8"),
        Phrase::BadChar => text.push_str("bad character"),
        Phrase::WideNumber => text.push_str("number too wide"),
        Phrase::LongName => text.push_str("name too long"),
        Phrase::Syntax => text.push_str("syntax"),
        Phrase::Unbound(name) => push_cause(text, "unbound ", name.as_str()),
        Phrase::Twice(name) => push_cause(text, "twice ", name.as_str()),
        Phrase::AliasLoop(name) => push_cause(text, "alias loop ", name.as_str()),
        Phrase::Arity(got, wanted) => push_counts(text, "arity ", *got, *wanted),
        Phrase::NoMain => text.push_str("no main"),
        Phrase::NotContractive => text.push_str("not contractive"),
        Phrase::WrongKind(got, wanted) => push_kinds(text, *got, *wanted),
        Phrase::UnboundType(k) => push_unbound_type(text, *k),
        Phrase::DoubleLabel(label) => push_cause(text, "double label ", label.as_str()),
        Phrase::Mismatch(got, wanted, difference) => {
            push_mismatch(text, got.as_str(), wanted.as_str(), difference)
        }
        Phrase::Unused(name) => push_cause(text, "unused ", name.as_str()),
        Phrase::UsedTwice(name) => push_cause(text, "used twice ", name.as_str()),
        Phrase::CapturedLinear(name) => push_cause(text, "captured ", name.as_str()),
        Phrase::Branches(name) => push_cause(text, "branches ", name.as_str()),
        Phrase::NotFunction(t) => push_cause(text, "not a function ", t.as_str()),
        Phrase::NotPair(t) => push_cause(text, "not a pair ", t.as_str()),
        Phrase::NotPrintable(t) => push_cause(text, "not printable ", t.as_str()),
        Phrase::TypeArguments(got, wanted) => push_counts(text, "type arguments ", *got, *wanted),
        Phrase::KindOfArgument(got, wanted) => push_kinds(text, *got, *wanted),
        Phrase::NoSuchMove(asked, t) => push_no_move(text, asked.as_str(), t.as_str()),
        Phrase::Arms(t) => push_cause(text, "arms ", t.as_str()),
        Phrase::Dropped(t) => push_cause(text, "dropped ", t.as_str()),
        Phrase::Certificate => text.push_str("certificate"),
        Phrase::NoBasis => text.push_str("no basis"),
    }
}

/// A refusal as text, without a line feed at its end.
pub fn refusal_text(alloc: Global, r: &Refusal) -> Result<String, AllocError>
    ensures { IfOk result (λ text. string_bytes text ≡ refusal_text r.now) }
{
    let mut text = String::from_str(alloc, "refused ")?;
    push_number(&mut text, r.line)?;
    text.push_str(":")?;
    push_number(&mut text, r.column)?;
    text.push_str(" ")?;
    push_phrase(&mut text, &r.phrase)?;
    Ok(text)
}
