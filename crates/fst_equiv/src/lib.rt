//! Whether two session types are equivalent, within a budget of pairs, and how two types of any shape compare.
#![tactic(auto)]

mod asking;
mod comparing;
mod fault;
mod finding;
mod law;
mod verdict;

pub use asking::ask;
pub use comparing::{Same, same_type};
pub use fault::EquivFault;
pub use law::{comparison_law, one_answer, one_outcome};
pub use verdict::{Certificate, Verdict};
