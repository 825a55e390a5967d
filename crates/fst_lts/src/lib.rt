//! How session types move: the labels by which a type moves, the type after a label and after a trace, and the dual.
#![tactic(auto)]

mod depth;
mod duality;
mod events;
mod fault;
mod law;
mod limited;
mod moves;

pub use depth::agree_to;
pub use duality::{dual, dual_label};
pub use events::{receiving_label, sending_label};
pub use fault::StepFault;
pub use law::{
    Relation, agreement_law, bisimulation_law, depth_law, direction_law, dual_law, moves_law,
    unfolding_law,
};
pub use limited::step_within_limit;
pub use moves::{is_end, labels, residual, step, terminated};
