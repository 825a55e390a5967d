//! Contexts of variables, of which each linear one is used exactly once.
#![tactic(auto)]

mod bodies;
mod context;
mod marks;

pub use context::{Context, Left, Taken};
