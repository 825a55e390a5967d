use crate::core_term::Term;
use fst_types::{Kind, Name};

/// A global: its name, the byte at which its equation begins, the kinds of its type variables, the number of its type with
/// the byte at which that is written, and its body.
///
/// Parameters are functions around the body.
#[derive(Drop)]
pub struct GlobalEntry {
    pub name: Name,
    pub at: u32,
    pub kinds: Vec<Kind>,
    pub signature: u32,
    pub signature_at: u32,
    pub body: Term,
}
