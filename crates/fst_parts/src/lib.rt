//! The labels of types in order, and numbers for their parts, equal ones the same.
#![tactic(auto)]

mod counts;
mod forms;
mod found;
mod keys;
mod letters;
mod numbers;
mod parts;
mod trees;

pub use counts::Counts;
pub use found::Found;
pub use letters::{choice_label, letters_of, names_among, place_among};
pub use numbers::{Numbered, first_part, second_part, with_numbers};
pub use parts::{Binders, Parts, note, place_of};
pub use trees::Trees;
