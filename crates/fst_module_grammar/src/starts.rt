ghost use Rattle.std.specs.Prelude.{◌≡◌};
ghost use Rattle.fst_module_grammar.specs.TermReading.{atom_named, atom_start, plain_start, app_named, app_start, expr_named, expr_start, starts_atom, starts_app, starts_unary, starts_expr};

use fst_lexer::TokenKind;
use fst_reading::{Lexeme, spells};

/// What an atom begins with.
#[derive(Clone, Copy, Debug)]
pub enum AtomStart {
    Name,
    Constructor,
    Number(i64),
    Character(char),
    Truth(bool),
    Paren,
}

/// What an application begins with, where it is no atom: a reserved word, or a constructor.
#[derive(Clone, Copy, Debug)]
pub enum AppStart {
    Send,
    Receive,
    Close,
    Wait,
    Select,
    New,
    Fork,
    Make,
}

/// What a term begins with, where it is no operand.
#[derive(Clone, Copy, Debug)]
pub enum ExprStart {
    Let,
    If,
    Lambda,
    Case,
    Match,
}

/// What a term with arms begins with.
#[derive(Clone, Copy, Debug)]
pub enum Arms {
    Case,
    Match,
}

/// The atom that begins with this reserved word or sign.
#[tactic(auto, unfolding(fst_base::specs::Choice::choose, crate::specs::TermReading::atom_named))]
fn atom_named(text: &str) -> Option<AtomStart>
    ensures { result ≡ atom_named text.now }
{
    match text {
        "True" => Some(AtomStart::Truth(true)),
        "False" => Some(AtomStart::Truth(false)),
        "(" => Some(AtomStart::Paren),
        _ => None,
    }
}

/// What an atom begins with, where one begins with this token.
pub fn atom_start(token: &Lexeme<'_>) -> Option<AtomStart>
    ensures { result ≡ atom_start token.now }
{
    match token.kind {
        TokenKind::Lower => Some(AtomStart::Name),
        TokenKind::Upper => Some(AtomStart::Constructor),
        TokenKind::Number(value) => Some(AtomStart::Number(value)),
        TokenKind::Character(character) => Some(AtomStart::Character(character)),
        TokenKind::Reserved | TokenKind::Sign => atom_named(token.text),
        _ => None,
    }
}

/// What an atom begins with, where one that is no upper name begins with this token.
pub fn plain_start(token: &Lexeme<'_>) -> Option<AtomStart>
    ensures { result ≡ plain_start token.now }
{
    match atom_start(token) {
        Some(AtomStart::Constructor) => None,
        start => start,
    }
}

/// The application that begins with this reserved word.
#[tactic(auto, unfolding(fst_base::specs::Choice::choose, crate::specs::TermReading::app_named))]
fn app_named(text: &str) -> Option<AppStart>
    ensures { result ≡ app_named text.now }
{
    match text {
        "send" => Some(AppStart::Send),
        "receive" => Some(AppStart::Receive),
        "close" => Some(AppStart::Close),
        "wait" => Some(AppStart::Wait),
        "select" => Some(AppStart::Select),
        "new" => Some(AppStart::New),
        "fork" => Some(AppStart::Fork),
        _ => None,
    }
}

/// What an application begins with that is no atom, where one begins with this token.
pub fn app_start(token: &Lexeme<'_>) -> Option<AppStart>
    ensures { result ≡ app_start token.now }
{
    match token.kind {
        TokenKind::Upper => Some(AppStart::Make),
        TokenKind::Reserved | TokenKind::Sign => app_named(token.text),
        _ => None,
    }
}

/// The term that begins with this reserved word or sign.
#[tactic(auto, unfolding(fst_base::specs::Choice::choose, crate::specs::TermReading::expr_named))]
fn expr_named(text: &str) -> Option<ExprStart>
    ensures { result ≡ expr_named text.now }
{
    match text {
        "let" => Some(ExprStart::Let),
        "if" => Some(ExprStart::If),
        "\\" => Some(ExprStart::Lambda),
        "case" => Some(ExprStart::Case),
        "match" => Some(ExprStart::Match),
        _ => None,
    }
}

/// What a term begins with that is no operand, where one begins with this token.
pub fn expr_start(token: &Lexeme<'_>) -> Option<ExprStart>
    ensures { result ≡ expr_start token.now }
{
    match token.kind {
        TokenKind::Reserved | TokenKind::Sign => expr_named(token.text),
        _ => None,
    }
}

/// Whether an atom may begin with this token.
pub fn starts_atom(token: &Lexeme<'_>) -> bool
    ensures { result ≡ starts_atom token.now }
{
    atom_start(token).is_some()
}

/// Whether an application may begin with this token.
pub fn starts_app(token: &Lexeme<'_>) -> bool
    ensures { result ≡ starts_app token.now }
{
    app_start(token).is_some() || starts_atom(token)
}

/// Whether an operand may begin with this token.
pub fn starts_unary(token: &Lexeme<'_>) -> bool
    ensures { result ≡ starts_unary token.now }
{
    spells("not", token) || starts_app(token)
}

/// Whether a term may begin with this token.
pub fn starts_expr(token: &Lexeme<'_>) -> bool
    ensures { result ≡ starts_expr token.now }
{
    expr_start(token).is_some() || starts_unary(token)
}
