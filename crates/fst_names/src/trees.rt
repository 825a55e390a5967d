ghost use Rattle.std.specs.Prelude.{◌≡◌, ◌<◌, List, IfOk, length, replicate};
ghost use Rattle.fst_terms.specs.ModuleTree.{Declared};
ghost use Rattle.fst_scopes.specs.Graph.{tree_after};
ghost use Rattle.fst_declarations.specs.Declarations.{trees_in};
ghost use Rattle.fst_names.specs.Faultless.{IsFaultless, IsReady};

use fst_declarations::Declarations;
use fst_scopes::{Names, TypeEntry, named};
use fst_types::Ty;
use std::alloc::{AllocError, Global};

// Nothing, so many times.
fn no_trees(alloc: Global, n: usize) -> Result<Vec<Option<Ty>>, AllocError>
    ensures { IfOk result (λ trees. trees.items ≡ replicate n None) }
{
    let mut trees = Vec::new(alloc);
    while trees.len() < n {
        trees.push(None)?;
    }
    Ok(trees)
}

// What one name stands for, where the names in its type stand for these trees; nothing for a data type, and nothing for
// one that lies on a loop.
fn tree_at(
    alloc: Global,
    k: usize,
    declarations: &Declarations<'_>,
    trees: &[Option<Ty>],
) -> Result<Option<Ty>, AllocError>
    requires within { k < length declarations.now.types.names }
    requires told { length declarations.now.aliases.looped.items
        ≡ length declarations.now.types.names }
    requires size { length trees.now ≡ length declarations.now.types.names }
    requires ready { IsReady declarations.now trees.now k }
    ensures { IfOk result (λ t. t ≡
        tree_after declarations.now.types declarations.now.aliases.looped.items trees.now k) }
{
    if declarations.aliases.looped[k] {
        return Ok(None);
    }
    match declarations.types.entries[k] {
        TypeEntry::Family(_) => Ok(None),
        TypeEntry::Alias(w) => {
            let names = Names::Outermost(&declarations.no_vars, &declarations.types);
            Ok(Some(named(alloc, w, &names, trees)?))
        }
    }
}

/// What the names of types stand for; nothing stands for a data type. Takes time in proportion to the length of the
/// aliases' types and of what they stand for.
pub(crate) fn trees_of(
    alloc: Global,
    declarations: &Declarations<'_>,
) -> Result<Vec<Option<Ty>>, AllocError>
    requires { (ds : List Declared) × IsFaultless ds declarations.now }
    ensures { IfOk result (λ trees. trees.items ≡ trees_in declarations.now) }
{
    let mut trees = no_trees(alloc, declarations.types.names.len())?;
    for k in &declarations.aliases.order {
        let k = *k as usize;
        trees[k] = tree_at(alloc, k, declarations, &trees)?;
    }
    Ok(trees)
}
