//! Values that tasks compute with.
#![tactic(auto)]

mod cells;
mod join;
mod letters;
mod nodes;
mod printing;
mod split;
mod stack;
mod value;

pub use cells::Cell;
pub use letters::{push_quoted, truth_text};
pub use printing::print;
pub use stack::Stack;
pub use value::{Form, Value, copy, ends_of};
