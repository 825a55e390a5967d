//! Whether a module is well typed: its derivations, or why it has none.
#![tactic(auto)]

mod checking;
mod comparing;
mod equations;
mod globals;
mod infer;
mod infer_arms;
mod infer_parts;
mod infer_under;
mod law;
mod operands;

pub use checking::{Accepted, check};
pub use fst_premises::{CheckFault, Difference};
pub use law::{accepted_law, complete_law, equality_law, one_refusal_law, refusal_law};
