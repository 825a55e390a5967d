//! The names in terms that stand for nothing, and the other faults of names and sizes that terms have.
#![tactic(auto)]

mod binding;
mod bodies;
mod surroundings;
mod terms;
mod uses;

pub use binding::{enter_all, leave_all};
pub use bodies::note_body;
pub use surroundings::{MakerEntry, Makers, Surroundings};
