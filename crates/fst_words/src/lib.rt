//! Simple grammars, and the words that move by their rules.
#![tactic(auto)]

mod grammar;
mod marks;
mod rules;
mod word;

pub use grammar::{Grammar, is_below, is_in_range, step};
pub use marks::first_marked;
pub use rules::{Rule, Rules};
pub use word::{Word, push_word};
