//! What every crate stands on: the limits of the language, digits, and what is said of whatever moves by labels.
#![tactic(auto)]

mod limits;
mod text;

pub use limits::{
    GREATEST_NORM, GREATEST_NUMBER, LONGEST_NAME, MOST_BYTES, MOST_LETTERS, MOST_LISTED, MOST_MADE,
    MOST_NESTED, MOST_NODES, MOST_REWRITES,
};
pub use text::push_number;
