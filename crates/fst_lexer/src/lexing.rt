ghost use Rattle.std.specs.Prelude.{◌≡◌, ◌≤◌, ◌++◌, length, OnOk, IfOk, IfErr};
ghost use Rattle.fst_base.specs.Limits.{most_bytes};
ghost use Rattle.fst_lexer.specs.Tokens.{AreTokens, IsFault, list_of};
ghost use Rattle.fst_lexer.specs.Lexes.{Lexes, OneLexing, Refuses};
ghost use Rattle.fst_lexer.specs.Spans.{HaveSpans, TellLines};
ghost use Rattle.fst_lexer.specs.Spelling.{SpellingLaw, TokenWords};

use crate::making::{ends_line, place, token_of};
use crate::pieces::{Placed, piece_at};
use crate::placing::places;
use crate::token::{LexFault, Token, TokenKind};
use std::alloc::{AllocError, Global};
use std::str;

fn push_token(tokens: &mut Vec<Token>, token: Option<Token>) -> Result<(), AllocError>
    ensures { OnOk result (tokens.new.items ≡ tokens.old.items ++ list_of token) }
{
    if let Some(token) = token {
        tokens.push(token)?;
    }
    Ok(())
}

/// The tokens of a text that ends at this byte.
fn lex_placed(alloc: Global, text: &[Placed], end: u32) -> Result<Vec<Token>, LexFault>
    requires { length text.now ≤ most_bytes }
    ensures tokens { IfOk result (λ v. AreTokens text.now end v.items) }
    ensures fault { IfErr result (λ e. IsFault text.now e) }
{
    let mut tokens = Vec::new(alloc);
    let mut first = true;
    let mut rest = text;
    while !rest.is_empty() {
        let Some((piece, n)) = piece_at(rest) else {
            return Err(LexFault::BadChar(place(rest)));
        };
        let (word, after) = rest.split_at(n);
        let token = token_of(piece, word, first)?;
        push_token(&mut tokens, token)?;
        first = ends_line(word);
        rest = after;
    }
    tokens.push(Token {
        kind: TokenKind::Finish,
        at: end,
        len: 0,
        first_column: first,
    })?;
    Ok(tokens)
}

/// The tokens of a text, or why it has none.
pub fn lex(alloc: Global, bytes: &[u8]) -> Result<Vec<Token>, LexFault>
    requires { length bytes.now ≤ most_bytes }
    ensures tokens { IfOk result (λ v. Lexes bytes.now v.items) }
    ensures spans { IfOk result (λ v. HaveSpans bytes.now v.items) }
    ensures lines { IfOk result (λ v. TellLines bytes.now v.items) }
    ensures fault { IfErr result (λ e. Refuses bytes.now e) }
{
    match str::from_utf8(bytes) {
        Err(e) => Err(LexFault::NotUtf8(e.valid_up_to() as u32)),
        Ok(text) => {
            let placed = places(alloc, text)?;
            lex_placed(alloc, &placed, bytes.len() as u32)
        }
    }
}

/// Bytes have one list of tokens, or one fault other than for want of memory, and not both.
pub fn one_lexing()
    ensures { OneLexing }
{}

/// A text that is put together from words has just these words as its tokens.
pub fn spelled_words()
    ensures { SpellingLaw }
{}

/// Each token of a text but the last one is a word, or a number that isn't too wide.
pub fn token_words()
    ensures { TokenWords }
{}
