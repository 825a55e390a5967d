//! What a module is asked before its equations: whether its written types are well formed, and whether the fields of its
//! data types can be printed.
#![tactic(auto)]

mod fault;
mod kinds;
mod law;
mod numbers;
mod printable;
mod readings;
mod standing;

pub use fault::WrittenFault;
pub use kinds::check_kinds;
pub use law::one_first_type;
pub use printable::{is_printable, unprintable_field};
