ghost use Rattle.std.specs.Prelude.{◌≡◌};
ghost use Rattle.fst_types.specs.WrittenTree.{WrittenTree};
ghost use Rattle.fst_reading.specs.Reading.{begins, shut};
ghost use Rattle.fst_reading.specs.Gives.{Fails};
ghost use Rattle.fst_type_syntax.specs.TypeReading.{base_named, base_word, start_named, start_of, starts_type_atom, starts_type, use_of, prekind_named, prekind_of};

use fst_lexer::TokenKind;
use fst_reading::{Lexeme, Stop, is_one, spells};
use fst_types::{Base, Prekind, Use};

/// What an atomic type begins with.
#[derive(Clone, Copy, Debug)]
pub(crate) enum Start {
    Skip,
    Send,
    Receive,
    Close,
    Wait,
    Select,
    Offer,
    Paren,
    Name,
    Word(Base),
}

/// The base type that is this word.
#[tactic(auto, unfolding(fst_base::specs::Choice::choose, crate::specs::TypeReading::base_named))]
fn base_named(text: &str) -> Option<Base>
    ensures { result ≡ base_named text.now }
{
    if text == "Int" {
        Some(Base::Int)
    } else if text == "Bool" {
        Some(Base::Bool)
    } else if text == "Char" {
        Some(Base::Char)
    } else {
        None
    }
}

/// The base type that is one word.
pub(crate) fn base_word(token: &Lexeme<'_>) -> Option<Base>
    ensures { result ≡ base_word token.now }
{
    match token.kind {
        TokenKind::Reserved | TokenKind::Sign => base_named(token.text),
        _ => None,
    }
}

/// What begins with this reserved word or sign.
#[tactic(auto, unfolding(fst_base::specs::Choice::choose, crate::specs::TypeReading::start_named))]
fn start_named(text: &str) -> Option<Start>
    ensures { result ≡ start_named text.now }
{
    if text == "Skip" {
        Some(Start::Skip)
    } else if text == "!" {
        Some(Start::Send)
    } else if text == "?" {
        Some(Start::Receive)
    } else if text == "Close" {
        Some(Start::Close)
    } else if text == "Wait" {
        Some(Start::Wait)
    } else if text == "+" {
        Some(Start::Select)
    } else if text == "&" {
        Some(Start::Offer)
    } else if text == "(" {
        Some(Start::Paren)
    } else {
        match base_named(text) {
            Some(base) => Some(Start::Word(base)),
            None => None,
        }
    }
}

/// What an atomic type begins with, where one begins with this token.
pub(crate) fn start_of(token: &Lexeme<'_>) -> Option<Start>
    ensures { result ≡ start_of token.now }
{
    match token.kind {
        TokenKind::Lower | TokenKind::Upper => Some(Start::Name),
        TokenKind::Reserved | TokenKind::Sign => start_named(token.text),
        _ => None,
    }
}

/// Whether an atomic type may begin with this token.
pub fn starts_type_atom(token: &Lexeme<'_>) -> bool
    ensures { result ≡ starts_type_atom token.now }
{
    start_of(token).is_some()
}

/// Whether a type may begin with this token.
pub(crate) fn starts_type(token: &Lexeme<'_>) -> bool
    ensures { result ≡ starts_type token.now }
{
    spells("rec", token) || starts_type_atom(token)
}

/// The first half of a kind.
#[tactic(auto, unfolding(fst_base::specs::Choice::choose))]
pub(crate) fn use_of(token: &Lexeme<'_>) -> Option<Use>
    ensures { result ≡ use_of token.now }
{
    if is_one(token) {
        Some(Use::Once)
    } else if spells("*", token) {
        Some(Use::Many)
    } else {
        None
    }
}

/// The second half of a kind, by its name.
#[tactic(auto, unfolding(fst_reading::specs::Steps::all, crate::specs::TypeReading::prekind_named))]
fn prekind_named(text: &str) -> Option<Prekind>
    ensures { result ≡ prekind_named text.now }
{
    if text == "S" {
        Some(Prekind::Session)
    } else if text == "T" {
        Some(Prekind::Top)
    } else {
        None
    }
}

/// The second half of a kind.
pub(crate) fn prekind_of(token: &Lexeme<'_>) -> Option<Prekind>
    ensures { result ≡ prekind_of token.now }
{
    match token.kind {
        TokenKind::Upper => prekind_named(token.text),
        _ => None,
    }
}

/// Whether a type may begin here.
pub(crate) fn begins_type(tokens: &[Lexeme<'_>]) -> bool
    ensures { result ≡ begins starts_type tokens.now }
{
    match tokens {
        [] => false,
        [first, ..] => starts_type(first),
    }
}

/// Why no type is read where none may be opened any more.
#[tactic(auto, unfolding(fst_base::specs::Choice::choose, fst_reading::specs::Reading::shut))]
pub(crate) fn shut<'a>(tokens: &'a [Lexeme<'a>]) -> Stop<'a>
    ensures { Fails result (shut {A = WrittenTree} starts_type tokens.now) }
{
    if begins_type(tokens) {
        Stop::TooDeep(tokens)
    } else {
        Stop::Syntax(tokens)
    }
}
