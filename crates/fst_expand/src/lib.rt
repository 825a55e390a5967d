//! Bases for two words of a grammar, found by dropping heads.
#![tactic(auto)]

mod bridge;
mod chaining;
mod dropping;
mod expansion;
mod following;
mod joining;
mod lowering;
mod measures;
mod repeats;
mod table;

pub use expansion::expand;
