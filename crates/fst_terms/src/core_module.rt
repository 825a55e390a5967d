ghost use Rattle.std.specs.Prelude.{◌<◌, ◌+◌, length};
ghost use Rattle.fst_terms.specs.InRange.{IsModule};
ghost use Rattle.fst_terms.specs.InRangeFacts.{is_module_prop};
ghost use Rattle.fst_terms.specs.CoreCount.{core_limit, globals_count};

use crate::global::GlobalEntry;
use fst_types::{Family, Ty};

/// A module with numbers in place of names: its data types, its globals, the types that stand in it, and for each of these the
/// byte at which the first token of the written type stands that it comes from.
///
/// Its parts fit together: each number is that of a part, constructors have different names, just one global is named `main`,
/// each data type has a constructor and each choice a branch, each `Case` and `Match` an arm; a `Make` has as many terms and
/// an arm of a `Case` as many binders as the constructor has fields, and an arm of a `Match` has one binder. It has fewer
/// terms, bound names and types together than 2^32. A type has only the variables of the global that it stands in, and none
/// where it stands in a field, in an alias or in a `New`.
#[derive(Drop)]
pub struct Module {
    pub families: Vec<Family>,
    pub globals: Vec<GlobalEntry>,
    pub types: Vec<Ty>,
    pub places: Vec<u32>,
    ghost whole: { IsModule families.items globals.items types.items places.items } by { is_module_prop families.items globals.items types.items places.items },
    ghost few: { globals_count globals.items + length types.items < core_limit },
}
