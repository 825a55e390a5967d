//! Bases: pairs of words, with chains of rewrites which show that the two words of each pair perform the same traces.
#![tactic(auto)]

mod checking;
mod law;
mod letters;
mod marks;
mod proof;
mod rewriting;

pub use checking::check;
pub use law::rewrite_law;
pub use letters::same_letters;
pub use proof::{Chain, Pair, Proof, Rewrite};
