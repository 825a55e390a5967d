ghost use Rattle.std.specs.Prelude.{◌≡◌, ◌≤◌, ◌^◌, [], ℕ, List, IsSome, length, unwrap_or};
ghost use Rattle.fst_term_faults.specs.CodeSurroundings.{scope_of, trees_of};
ghost use Rattle.fst_term_names.specs.TreesFacts.{trees_prop};

use fst_term_faults::Surroundings;
use fst_types::Ty;

/// The types of a module, one behind the other, and the bytes at which they begin.
#[derive(Drop)]
pub struct TypeList {
    pub types: Vec<Ty>,
    pub places: Vec<u32>,
}

/// What the names in an equation stand for: what is in scope there, and the types that the declared names stand for. Each
/// name of a type stands for something, and the variables of the signature have numbers of 32 bits.
#[derive(Drop)]
pub struct Meanings<'a> {
    pub around: &'a Surroundings<'a>,
    pub trees: &'a [Option<Ty>],
    ghost trees_are: { trees.now ≡ trees_of around.now } by { trees_prop _ _ },
    ghost there: { (x : List ℕ) → IsSome
        (unwrap_or ((scope_of around.now []).declared x) (scope_of around.now []).otherwise) },
    ghost few: { length around.now.vars.now ≤ 2 ^ 32 },
}
