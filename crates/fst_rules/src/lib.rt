//! Whether trees are the derivations of a module.
#![tactic(auto)]

mod arms;
mod binding;
mod following;
mod holding;
mod inside;
mod levels;
mod peeling;

pub use holding::holds;
