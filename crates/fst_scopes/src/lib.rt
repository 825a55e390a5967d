//! The names of types: what they stand for in a module or a question, and the faults of names and sizes that types have.
#![tactic(auto)]

mod aliases;
mod fault;
mod faults;
mod measure;
mod names;
mod naming;
mod table;
mod types;

pub use aliases::{Aliases, aliases_of};
pub use fault::{NameFault, first_fault_law, note};
pub use faults::{note_type, place};
pub use measure::{Measure, measure_of};
pub use names::Names;
pub use naming::named;
pub use table::{NameTable, note_name, variables_of};
pub use types::{TypeEntry, TypeNames};
