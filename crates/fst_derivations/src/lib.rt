//! Derivations as data, and which trees are derivations.
#![tactic(auto)]

mod derivation;
mod law;

pub use derivation::{Derivation, two_parts};
pub use law::{
    derivations_law, plain_derivation_law, plain_types_are_unique, plain_types_have_texts,
};
