//! Types and questions, read from the tokens of a text.
#![tactic(auto)]

mod answers;
mod bases;
mod questions;
mod source;
mod starts;
mod types;

pub use answers::{one_reading, read_question, read_type};
pub use fst_reading::SyntaxFault;
pub use questions::binders;
pub use source::SourceQuestion;
pub use starts::starts_type_atom;
pub use types::{atom, seq, type_};
