//! The variables around a term: which one a name stands for, counted from the innermost outward.
#![tactic(auto)]

mod locals;

pub use locals::Locals;
