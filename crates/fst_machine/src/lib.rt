//! One task: what it asks, and how it goes on after an answer; and the code that it runs as.
#![tactic(auto)]

mod code;
mod entry;
mod law;
mod request;

pub use code::{Code, Instr};
pub use entry::LambdaEntry;
pub use law::code_law;
pub use request::{Answer, Request};
