//! What is known of the non-terminals of a grammar.

use fst_words::{Grammar, Word};

/// A grammar, the marks of its unnormed non-terminals, the norms of all, what each becomes by the least letter that lowers its norm, and
/// numbers for the words of its rules.
#[derive(Drop)]
pub(crate) struct Measures<'a> {
    pub(crate) grammar: &'a Grammar,
    pub(crate) marks: &'a [bool],
    pub(crate) norms: &'a [Option<u64>],
    pub(crate) lowering: &'a [Word],
    pub(crate) numbers: &'a [Vec<u32>],
}
