//! The events of a run in one order, each once, and their text.
#![tactic(auto)]

mod law;
mod merging;
mod receipts;
mod texts;

pub use fst_runs::Stamped;
pub use law::{names_law, one_list_law, sorted_law};
pub use merging::merge;
pub use texts::events_text;
