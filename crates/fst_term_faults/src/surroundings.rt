ghost use Rattle.std.specs.Prelude.{◌≡◌, [], length};
ghost use Rattle.fst_scopes.specs.Counted.{AreMeasures};
ghost use Rattle.fst_scopes.specs.Graph.{final_trees};
ghost use Rattle.fst_scopes.specs.Scopes.{of_name};

use fst_scopes::{Aliases, NameTable, TypeNames};
use fst_types::Name;

/// What belongs to a constructor: the number of its data type, its own number there, and how many fields it has.
#[derive(Clone, Copy)]
pub struct MakerEntry {
    pub family: u32,
    pub number: u32,
    pub fields: u64,
}

/// The constructors that a module declares, the first of each name.
#[derive(Drop)]
pub struct Makers {
    pub names: NameTable,
    pub entries: Vec<MakerEntry>,
    ghost paired: { length entries.items ≡ length names },
}

impl Makers {
    /// The first constructor of a name.
    pub fn entry_of(&self, name: &Name) -> Option<MakerEntry>
        ensures { result ≡ of_name self.now.names self.now.entries.items name.now }
    {
        let k = self.names.number_of(name)?;
        Some(self.entries[k])
    }
}

/// What is in scope in an equation: the globals, the constructors, the variables of its signature and none, and the declared
/// types, with what is known of the aliases among them.
#[derive(Drop)]
pub struct Surroundings<'a> {
    pub globals: &'a NameTable,
    pub makers: &'a Makers,
    pub vars: &'a NameTable,
    pub no_vars: &'a NameTable,
    pub types: &'a TypeNames<'a>,
    pub aliases: &'a Aliases,
    ghost measured: { AreMeasures
        (final_trees types.now aliases.now.looped.items aliases.now.order.items)
        aliases.now.measures.items },
    ghost none: { no_vars.now ≡ [] },
}
