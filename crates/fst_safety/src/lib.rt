//! No run of a module that has derivations goes wrong, and all runs that come to an end lead to one configuration; and its tasks
//! stay typed by what their own ends know.
#![tactic(auto)]

mod bags;
mod law;
mod tasks;
mod turning;

pub use fst_runs::LogEntry;
pub use law::{
    diamond_law, ends_law, one_end_law, one_order_law, safety_law, same_events_law, send_law,
    stays_law, typed_law,
};
pub use tasks::{KeptEntry, Turned, TypedTask};
