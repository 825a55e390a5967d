//! Instances of types: how they move, that they keep agreement, and equal types.
#![tactic(auto)]

mod law;

pub use law::{equal_instances_law, equal_types_law, instance_law, instance_moves_law};
