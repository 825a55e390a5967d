//! Modules and terms, as they were written and with numbers in place of names, as data; and what the names in a written
//! type stand for.
#![tactic(auto)]

mod binder;
mod core_module;
mod core_term;
mod global;
mod module;
mod source_steps;
mod steps;
mod term;

pub use binder::Binder;
pub use core_module::Module;
pub use core_term::{Arm, Form, Term};
pub use global::GlobalEntry;
pub use module::{Decl, SourceMaker, SourceModule};
pub use source_steps::{SourceSpine, SourceStep, pop_source_step, source_spine_of};
pub use steps::{Spine, Step, pop_step, spine_of};
pub use term::{Op, SourceArm, SourceForm, SourceTerm};
