ghost use Rattle.std.specs.Prelude.{◌≡◌, [], length};

use crate::table::NameTable;
use fst_types::Written;
use std::alloc::Global;

/// What is declared under the name of a type.
#[derive(Drop)]
pub enum TypeEntry<'a> {
    /// A data type, by its number.
    Family(u32),
    /// Another name for this type.
    Alias(&'a Written),
}

/// The names of the types that a module declares, and what is declared first under each.
#[derive(Drop)]
pub struct TypeNames<'a> {
    pub names: NameTable,
    pub entries: Vec<TypeEntry<'a>>,
    ghost paired: { length entries.items ≡ length names },
}

impl<'a> TypeNames<'a> {
    /// No types.
    pub fn none(alloc: Global) -> TypeNames<'a>
        ensures names { result.names ≡ [] }
        ensures entries { result.entries.items ≡ [] }
    {
        TypeNames {
            names: NameTable::new(alloc),
            entries: Vec::new(alloc),
        }
    }
}
