ghost use Rattle.fst_types.specs.WrittenTree.{HasBranches};
ghost use Rattle.fst_type_syntax.specs.Filled.{both_prop};

use fst_terms::Binder;
use fst_types::{Kind, Written};

/// Whether two types are equivalent, as it was asked in a text: the variables that were bound for them, and the types.
#[derive(Drop)]
pub struct SourceQuestion {
    pub binders: Vec<(Binder, Kind)>,
    pub left: Written,
    pub right: Written,
    ghost filled: { HasBranches left × HasBranches right } by { both_prop left right },
}
