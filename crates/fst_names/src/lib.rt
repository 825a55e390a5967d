//! Names turned into numbers: what the names of a question or a module stand for, and its first fault of names and sizes.
#![tactic(auto)]

mod functions;
mod globals;
mod module;
mod parts;
mod question;
mod resolving;
mod trees;

pub use fst_scopes::{NameFault, first_fault_law};
pub use question::{Question, resolve_question};
pub use resolving::{one_module_law, resolve};
