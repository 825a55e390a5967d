ghost use Rattle.std.specs.Prelude.{◌≡◌, [], length};
ghost use Rattle.fst_scopes.specs.Counted.{AreMeasures};
ghost use Rattle.fst_scopes.specs.Graph.{final_trees};

use crate::entries::Signatures;
use crate::scopes::SignatureScope;
use fst_scopes::{Aliases, NameTable, TypeNames};
use fst_term_faults::Makers;

/// What a module declares under its names: types, constructors, signatures and equations; the names of both; no variables;
/// what is known of the aliases; and what is kept of each signature for its equation.
#[derive(Drop)]
pub struct Declarations<'a> {
    pub types: TypeNames<'a>,
    pub makers: Makers,
    pub signatures: Signatures<'a>,
    pub equations: NameTable,
    pub globals: NameTable,
    pub no_vars: NameTable,
    pub aliases: Aliases,
    pub scopes: Vec<SignatureScope>,
    ghost measured: { AreMeasures (final_trees types aliases.looped.items aliases.order.items)
        aliases.measures.items },
    ghost told: { length aliases.looped.items ≡ length types.names },
    ghost none: { no_vars ≡ [] },
    ghost paired: { length scopes.items ≡ length signatures.names },
}
