//! Reading from the front of a list of tokens: lexemes, the ways to put readers together, and where reading stops.
#![tactic(auto)]

mod fault;
mod lexeme;
mod reading;
mod slicing;
mod stop;

pub use fault::SyntaxFault;
pub use lexeme::{Lexeme, is_one, spells};
pub use reading::{after, after_one, behind, comes, expect, lower, place, start, upper};
pub use slicing::lexemes;
pub use stop::{Stop, fault_of};
