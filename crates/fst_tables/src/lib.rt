//! What the tests of other crates share: tables of cases, numbers as text, and labels by their texts.
#![tactic(auto)]

mod labels;
mod numbers;
mod tables;

pub use labels::word;
pub use numbers::{basis_text, digits_text, pairs_text};
pub use tables::{each_line, each_pair, fields, no_row};
