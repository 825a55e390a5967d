//! The texts of modules, and with them those of types, of words, of moves and of refusals, as a
//! user reads them.
#![tactic(auto)]

mod atoms;
mod forms;
mod modules;
mod ranks;
mod stack;
mod terms;

pub use fst_type_print::{
    Phrase, Refusal, move_text, question_text, refusal_text, side_text, type_text, word_text,
};
pub use modules::module_text;
