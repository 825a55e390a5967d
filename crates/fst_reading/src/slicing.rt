ghost use Rattle.std.specs.Prelude.{◌≡◌, ◌+◌, All, IfOk, drop, map};
ghost use Rattle.std.specs.Str.{IsCharBoundary};
ghost use Rattle.fst_lexer.specs.Spans.{HaveSpans};
ghost use Rattle.fst_reading.specs.Lexeme.{lexeme, lexemes};

use crate::lexeme::Lexeme;
use fst_lexer::Token;
use std::alloc::{AllocError, Global};

/// A token with the text that stands at its place.
fn lexeme<'a>(token: &Token, text: &'a str) -> Lexeme<'a>
    requires start { IsCharBoundary text.now token.now.at }
    requires stop { IsCharBoundary text.now (token.now.at + token.now.len) }
    ensures { result ≡ lexeme text.now token.now }
{
    let start = token.at as usize;
    let stop = start + token.len as usize;
    Lexeme {
        kind: token.kind,
        at: token.at,
        text: &text[start..stop],
    }
}

/// These tokens, each with what stands at its place.
fn sliced<'a>(alloc: Global, tokens: &[Token], text: &'a str) -> Result<Vec<Lexeme<'a>>, AllocError>
    requires start { All (λ t. IsCharBoundary text.now t.at) tokens.now }
    requires stop { All (λ t. IsCharBoundary text.now (t.at + t.len)) tokens.now }
    ensures { IfOk result (λ v. v.items ≡ map (lexeme text.now) tokens.now) }
{
    let mut lexemes = Vec::with_capacity(alloc, tokens.len())?;
    for token in tokens {
        lexemes.push(lexeme(token, text))?;
    }
    Ok(lexemes)
}

/// The tokens of a text from one on, each with what stands at its place, without the one at the end of the text.
#[tactic(auto, using(crate::proofs::Slices::slice_is))]
pub fn lexemes<'a>(
    alloc: Global,
    tokens: &[Token],
    text: &'a str,
    from: usize,
) -> Result<Vec<Lexeme<'a>>, AllocError>
    requires { HaveSpans text.now tokens.now }
    ensures { IfOk result (λ v. v.items ≡ drop from (lexemes text.now tokens.now)) }
{
    let last = tokens.len().saturating_sub(1);
    let first = from.min(last);
    sliced(alloc, &tokens[first..last], text)
}
