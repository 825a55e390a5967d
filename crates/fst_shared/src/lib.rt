//! Words that share their tails.
#![tactic(auto)]

mod handle;
mod numbers;
mod words;

pub use handle::{SharedPair, SharedWord};
pub use numbers::word_numbers;
pub use words::SharedWords;
