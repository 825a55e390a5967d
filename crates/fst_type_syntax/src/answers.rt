ghost use Rattle.std.specs.Prelude.{◌<◌, ◌≤◌, length};
ghost use Rattle.fst_lexer.specs.Spans.{HaveSpans};
ghost use Rattle.fst_base.specs.Limits.{most_bytes};
ghost use Rattle.fst_type_syntax.specs.Derives.{AnswersQuestion, AnswersType, OneReading};
ghost use Rattle.fst_type_syntax.specs.Views.{question_view, type_view};

use crate::questions::question;
use crate::source::SourceQuestion;
use crate::types::type_;
use fst_base::MOST_NESTED;
use fst_lexer::Token;
use fst_reading::{Lexeme, SyntaxFault, fault_of, lexemes};
use fst_types::Written;
use std::alloc::Global;

/// Reads the type that begins at a token of a text, and answers behind which token it ends: the token there is none of `;`,
/// `->` and a number of value 1.
#[tactic(auto, using(crate::proofs::Answering::type_answers))]
pub fn read_type(
    alloc: Global,
    tokens: &[Token],
    text: &str,
    from: usize,
) -> Result<(Written, usize), SyntaxFault>
    requires spans { HaveSpans text.now tokens.now }
    requires size { length text.now ≤ most_bytes }
    requires within { from < length tokens.now }
    ensures { AnswersType text.now tokens.now from (type_view result) }
{
    let end = text.len() as u32;
    let lexemes = lexemes(alloc, tokens, text, from)?;
    let ahead: &[Lexeme<'_>] = &lexemes;
    match type_(alloc, MOST_NESTED, ahead) {
        Ok((written, rest)) => Ok((written, from + (ahead.len() - rest.len()))),
        Err(stop) => Err(fault_of(stop, end)),
    }
}

/// Reads the question whether two types are equivalent.
#[tactic(auto, using(crate::proofs::Answering::question_answers))]
pub fn read_question(
    alloc: Global,
    tokens: &[Token],
    text: &str,
) -> Result<SourceQuestion, SyntaxFault>
    requires spans { HaveSpans text.now tokens.now }
    requires size { length text.now ≤ most_bytes }
    ensures { AnswersQuestion text.now tokens.now (question_view result) }
{
    let end = text.len() as u32;
    let lexemes = lexemes(alloc, tokens, text, 0)?;
    match question(alloc, MOST_NESTED, &lexemes) {
        Ok(question) => Ok(question),
        Err(stop) => Err(fault_of(stop, end)),
    }
}

/// A list of tokens is at most one question, and a text has at most one answer.
pub fn one_reading()
    ensures { OneReading }
{}
