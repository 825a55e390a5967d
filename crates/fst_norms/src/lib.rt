//! The norms of a grammar's non-terminals, steps that lower them, and words pruned behind the first that has none.
#![tactic(auto)]

mod bounds;
mod estimate;
mod lowering;
mod pruning;
mod rounds;

pub use lowering::{is_normed, lowered_to, lowering_words, norm_of};
pub use pruning::{prune, unnormed};
pub use rounds::norms;
