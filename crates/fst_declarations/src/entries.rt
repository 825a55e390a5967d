ghost use Rattle.std.specs.Prelude.{◌≡◌, length};

use fst_scopes::NameTable;
use fst_term_faults::Makers;
use fst_terms::Binder;
use fst_types::{Kind, Written};

/// A signature: the variables that its `forall` binds, with their kinds, and its type.
#[derive(Clone, Copy)]
pub struct SignatureEntry<'a> {
    pub binders: &'a [(Binder, Kind)],
    pub its_type: &'a Written,
}

/// The names that have a signature, and the first signature of each.
#[derive(Drop)]
pub struct Signatures<'a> {
    pub names: NameTable,
    pub entries: Vec<SignatureEntry<'a>>,
    ghost paired: { length entries.items ≡ length names },
}

/// What a module declares for terms: constructors, signatures and equations, and the names of the last two.
#[derive(Drop)]
pub(crate) struct TermTables<'a> {
    pub(crate) makers: Makers,
    pub(crate) signatures: Signatures<'a>,
    pub(crate) equations: NameTable,
    pub(crate) globals: NameTable,
}
