//! The tokens of a text.
#![tactic(auto)]

mod classes;
mod lexing;
mod making;
mod pieces;
mod placing;
mod token;
mod words;

pub use lexing::{lex, one_lexing, spelled_words, token_words};
pub use token::{LexFault, Token, TokenKind};
