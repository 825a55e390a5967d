//! The texts of types, of questions, of words, of moves, of names and of refusals, as a user reads them.
#![tactic(auto)]

mod moves;
mod names;
mod pieces;
mod questions;
mod refusals;
mod types;
mod words;
mod written;

pub use moves::move_text;
pub use names::{push_channel, push_path};
pub use questions::question_text;
pub use refusals::{Phrase, Refusal, push_kind, refusal_text};
pub use types::{arrow_text, type_text};
pub use words::{side_text, word_text};
pub use written::{push_atom, push_seq, push_written};
