//! The translation of session types to simple grammars.
#![tactic(auto)]

mod counts;
mod equations;
mod fault;
mod law;
mod parts;
mod rows;
mod table;
mod translation;
mod words;

pub use fault::TranslateFault;
pub use law::{ends_law, one_grammar, standing_law, stops_law};
pub use translation::translate;
