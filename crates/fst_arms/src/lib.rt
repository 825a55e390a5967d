//! Which arm of a `case` stands for which constructor, and whether the arms of a `case` or a `match` are just those that
//! are wanted, each once.
#![tactic(auto)]

mod arms;
mod places;

pub use arms::{are_labels, maker_numbers};
