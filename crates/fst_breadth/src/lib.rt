//! The search for the least difference of two words of a grammar, breadth first.
#![tactic(auto)]

mod answers;
mod breadth;
mod difference;
mod following;
mod law;
mod noted;
mod numbers;
mod pairs;
mod rows;
mod table;

pub use answers::Found;
pub use breadth::search;
pub use difference::least;
pub use law::{first_pairs_are_determined, search_is_determined};
