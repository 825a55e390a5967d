//! Whether two words of a normed grammar perform the same traces: decided by those candidates for a basis that joining the words needs
//! (Hirshfeld, Jerrum, Moller, A polynomial algorithm for deciding bisimilarity of normed context-free processes, 1996).
#![tactic(auto)]

mod answers;
mod candidates;
mod closing;
mod decision;
mod joining;
mod law;
mod lowering;
mod stop;

pub use answers::Decision;
pub use decision::decide;
pub use law::{cut_law, head_law, joining_law, need_law};
