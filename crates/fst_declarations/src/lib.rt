//! What a module declares under its names, and the faults of names and sizes of its declarations.
#![tactic(auto)]

mod collect;
mod declarations;
mod entries;
mod faults;
mod numbers;
mod scopes;
mod tables;

pub use collect::{declarations_of, scope_for};
pub use declarations::Declarations;
pub use entries::{SignatureEntry, Signatures};
pub use faults::note_decls;
pub use numbers::number_of;
pub use scopes::SignatureScope;
