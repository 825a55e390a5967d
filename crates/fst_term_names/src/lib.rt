//! Terms with numbers in place of names.
#![tactic(auto)]

mod bodies;
mod copies;
mod core_parts;
mod core_terms;
mod meanings;
mod naming;

pub use bodies::core_body;
pub use meanings::{Meanings, TypeList};
