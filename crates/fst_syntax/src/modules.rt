ghost use Rattle.std.specs.Prelude.{◌≡◌, ◌≤◌, length};
ghost use Rattle.fst_lexer.specs.Spans.{HaveSpans};
ghost use Rattle.fst_base.specs.Limits.{most_bytes, most_nested};
ghost use Rattle.fst_module_grammar.specs.Derives.{AnswersModule};
ghost use Rattle.fst_syntax.specs.Views.{GivesLine, line_length, line_read, lines_of, module_view};

use crate::decls::whole_decl;
use fst_base::MOST_NESTED;
use fst_lexer::Token;
use fst_reading::{Lexeme, SyntaxFault, fault_of, lexemes, place};
use fst_terms::{Decl, SourceModule};
use std::alloc::Global;

/// How many tokens stand in front of the first one that begins a line.
#[tactic(auto, unfolding(fst_base::specs::Choice::choose, crate::specs::Views::line_length))]
fn line_length(tokens: &[Token]) -> usize
    ensures line { result ≡ line_length tokens.now }
    ensures short { result ≤ length tokens.now }
{
    for (i, token) in tokens.iter().enumerate() {
        if token.first_column {
            return i;
        }
    }
    tokens.len()
}

/// The first declaration of some tokens, and how many of them it has.
fn line(
    alloc: Global,
    tokens: &[Token],
    lexemes: &[Lexeme<'_>],
    end: u32,
) -> Result<(Decl, usize), SyntaxFault>
    requires some { 1 ≤ length lexemes.now }
    requires within { length lexemes.now ≤ length tokens.now }
    ensures { GivesLine result end (line_read most_nested (lines_of tokens.now lexemes.now)) }
{
    if !tokens[0].first_column {
        return Err(SyntaxFault::Syntax(place(lexemes, end)));
    }
    let count = line_length(&tokens[1..lexemes.len()]) + 1;
    match whole_decl(alloc, MOST_NESTED, &lexemes[..count]) {
        Ok(decl) => Ok((decl, count)),
        Err(stop) => Err(fault_of(stop, place(&lexemes[count..], end))),
    }
}

/// Reads a module: its declarations, each of which begins a line.
pub fn read_module(alloc: Global, tokens: &[Token], text: &str) -> Result<SourceModule, SyntaxFault>
    requires spans { HaveSpans text.now tokens.now }
    requires size { length text.now ≤ most_bytes }
    ensures { AnswersModule text.now tokens.now (module_view result) }
{
    let end = text.len() as u32;
    let lexemes = lexemes(alloc, tokens, text, 0)?;
    let mut decls = Vec::new(alloc);
    let mut from = 0;
    while from < lexemes.len() {
        let (decl, count) = line(alloc, &tokens[from..], &lexemes[from..], end)?;
        decls.push(decl)?;
        from += count;
    }
    Ok(SourceModule { decls })
}
