//! The grammar of terms and modules, the reading of them on lists, and the readers of what stands
//! around terms.
#![tactic(auto)]

pub mod applied;
pub mod building;
pub mod families;
pub mod heads;
mod law;
pub mod names;
pub mod operators;
pub mod shut;
pub mod starts;

pub use law::one_module;
