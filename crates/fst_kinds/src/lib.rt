//! The kinds of types: which are well formed, and of what kind.
#![tactic(auto)]

mod contraction;
mod fault;
mod front;
mod kinds;
mod labels;
mod law;
mod walk;

pub use contraction::contractive;
pub use fault::KindFault;
pub use kinds::subkind;
pub use law::{instances_keep_kinds, instantiation_law, one_kind, unfolding_keeps_kinds, walk_law};
pub use walk::kind_of;
