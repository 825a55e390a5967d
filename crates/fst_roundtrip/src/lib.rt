//! What is written is read again: the laws that join the texts of types and modules with the grammar that reads them.
#![tactic(auto)]

mod laws;

pub use laws::{asked_again, read_again, read_back};
