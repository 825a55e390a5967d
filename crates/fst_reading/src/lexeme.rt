ghost use Rattle.std.specs.Prelude.{◌≡◌};
ghost use Rattle.fst_reading.specs.Lexeme.{spells, is_one};

use fst_lexer::TokenKind;
use std::marker::Model;

/// A token as the grammar sees it: its kind, the byte at which it begins, and its text.
#[derive(Debug, Drop)]
pub struct Lexeme<'a> {
    pub kind: TokenKind,
    pub at: u32,
    pub text: &'a str,
}

impl<'a> Model for Lexeme<'a> {
    ghost use Rattle.fst_reading.specs.Lexeme.{Lexeme};

    ghost Value = { Lexeme };

    ghost view = { λ k. record { kind = k.kind; at = k.at; text = k.text.now } };
}

/// Whether a token is this reserved word or sign.
pub fn spells(word: &str, token: &Lexeme<'_>) -> bool
    ensures { result ≡ spells word.now token.now }
{
    match token.kind {
        TokenKind::Reserved | TokenKind::Sign => token.text == word,
        _ => false,
    }
}

/// Whether this is a number of value 1.
pub fn is_one(token: &Lexeme<'_>) -> bool
    ensures { result ≡ is_one token.now }
{
    match token.kind {
        TokenKind::Number(value) => value == 1,
        _ => false,
    }
}
