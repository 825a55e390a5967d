ghost use Rattle.std.specs.Prelude.{◌≡◌, ◌++◌, ◌<◌, ◌≤◌, ◌^◌, [], ℕ, List, Option, None, IfOk, OnOk, length, map, option_map, replicate, slice_index};
ghost use Rattle.fst_loops.specs.Graphs.{items_of, IsOrder};
ghost use Rattle.fst_types.specs.Tree.{Tree};
ghost use Rattle.fst_types.specs.WrittenTree.{named};
ghost use Rattle.fst_types.specs.ModelWrittenView.{written_branches};
ghost use Rattle.fst_scopes.specs.Aliases.{IsKnown, names_in, names_in_all};
ghost use Rattle.fst_scopes.specs.Counted.{AreMeasures};
ghost use Rattle.fst_scopes.specs.Graph.{entry_edges, final_trees, graph_of, known_by, places_in, tree_after};
ghost use Rattle.fst_scopes.specs.Measures.{measured};
ghost use Rattle.fst_scopes.specs.Scopes.{declared_in, recs_of, types_of};

use crate::measure::{Measure, measure_of};
use crate::names::{Names, is_recursive, types};
use crate::table::NameTable;
use crate::types::{TypeEntry, TypeNames};
use fst_loops::{Order, order_of};
use fst_types::{Name, Written, WrittenBranch, WrittenForm};
use std::alloc::{AllocError, Global};

/// What is known of the aliases among the declared types: what is counted of each, and nothing of one that leads to a loop;
/// which lie on a loop; and an order in which each that lies on none stands behind those in its type.
#[derive(Drop)]
pub struct Aliases {
    pub measures: Vec<Option<Measure>>,
    pub looped: Vec<bool>,
    pub order: Vec<u32>,
}

// Puts the number of a declared name behind others, unless a `rec` binds it.
fn add_place(name: &Name, names: &Names<'_>, found: &mut Vec<u32>) -> Result<(), AllocError>
    requires { length (types_of names.now).names ≤ 2 ^ 32 }
    ensures { OnOk result (found.new.items ≡ found.old.items ++ places_in (types_of names.now).names
        (names_in (recs_of names.now) (named 0 name.now))) }
{
    if !is_recursive(names, name) {
        if let Some(k) = types(names).names.number_of(name) {
            found.push(k as u32)?;
        }
    }
    Ok(())
}

// Puts the numbers of the declared names in a type behind others.
#[cycle(places)]
#[tactic(auto, using(crate::proofs::GraphLaws::two_places))]
fn add_places(w: &Written, names: &Names<'_>, found: &mut Vec<u32>) -> Result<(), AllocError>
    requires { length (types_of names.now).names ≤ 2 ^ 32 }
    ensures { OnOk result (found.new.items ≡ found.old.items ++ places_in (types_of names.now).names
        (names_in (recs_of names.now) w.now)) }
{
    match &w.form {
        WrittenForm::Skip => Ok(()),
        WrittenForm::Send(_) => Ok(()),
        WrittenForm::Receive(_) => Ok(()),
        WrittenForm::Close => Ok(()),
        WrittenForm::Wait => Ok(()),
        WrittenForm::Select(branches) => add_all_places(branches, names, found),
        WrittenForm::Offer(branches) => add_all_places(branches, names, found),
        WrittenForm::Seq(first, second) => {
            add_places(first, names, found)?;
            add_places(second, names, found)
        }
        WrittenForm::Rec(name, body) => { add_places(body, &Names::Within(&*name, &*names), found) }
        WrittenForm::Named(name) => add_place(name, names, found),
        WrittenForm::Plain(_) => Ok(()),
        WrittenForm::Arrow(_, from, to) => {
            add_places(from, names, found)?;
            add_places(to, names, found)
        }
        WrittenForm::Pair(first, second) => {
            add_places(first, names, found)?;
            add_places(second, names, found)
        }
    }
}

#[cycle(places)]
#[tactic(auto, using(fst_types::proofs::Laws::written_height_at))]
fn add_all_places(
    branches: &[WrittenBranch],
    names: &Names<'_>,
    found: &mut Vec<u32>,
) -> Result<(), AllocError>
    requires { length (types_of names.now).names ≤ 2 ^ 32 }
    ensures { OnOk result (found.new.items ≡ found.old.items ++ places_in (types_of names.now).names
        (names_in_all (recs_of names.now) (written_branches branches.now))) }
{
    for branch in branches {
        add_places(&branch.body, names, found)?;
    }
    Ok(())
}

// The numbers of the declared names in an alias's type.
fn edges_of(
    alloc: Global,
    entry: &TypeEntry<'_>,
    types: &TypeNames<'_>,
) -> Result<Vec<u32>, AllocError>
    requires { length types.now.names ≤ 2 ^ 32 }
    ensures { IfOk result (λ row. row.items ≡ entry_edges types.now.names entry.now) }
{
    let mut row = Vec::new(alloc);
    if let TypeEntry::Alias(w) = entry {
        let vars = NameTable::new(alloc);
        add_places(w, &Names::Outermost(&vars, types), &mut row)?;
    }
    Ok(row)
}

// What each of the declared names leads to.
fn graph_of(alloc: Global, types: &TypeNames<'_>) -> Result<Vec<Vec<u32>>, AllocError>
    requires { length types.now.names ≤ 2 ^ 32 }
    ensures { IfOk result (λ rows. map items_of rows.items ≡ graph_of types.now) }
{
    let mut rows = Vec::new(alloc);
    for entry in &types.entries {
        rows.push(edges_of(alloc, entry, types)?)?;
    }
    Ok(rows)
}

// Nothing, so many times.
fn no_measures(alloc: Global, n: usize) -> Result<Vec<Option<Measure>>, AllocError>
    ensures { IfOk result (λ ms. ms.items ≡ replicate n None) }
{
    let mut measures = Vec::new(alloc);
    while measures.len() < n {
        measures.push(None)?;
    }
    Ok(measures)
}

// What is counted of one name, where so much is counted of others; nothing of one that lies on a loop.
fn measure_at(
    k: usize,
    vars: &NameTable,
    types: &TypeNames<'_>,
    looped: &[bool],
    measures: &[Option<Measure>],
) -> Option<Measure>
    requires within { k < length types.now.names }
    requires none { vars.now ≡ [] }
    requires told { length looped.now ≡ length types.now.names }
    requires measures { length measures.now ≡ length types.now.names }
    ensures { (trees : List (Option Tree)) → AreMeasures trees measures.now →
        result ≡ option_map measured (tree_after types.now looped.now trees k) }
{
    if looped[k] {
        return None;
    }
    match types.entries[k] {
        TypeEntry::Family(_) => None,
        TypeEntry::Alias(w) => measure_of(w, &Names::Outermost(&*vars, &*types), measures),
    }
}

// What is counted of each of the declared names, in an order in which those in an alias's type stand before it.
fn measures_of(
    alloc: Global,
    types: &TypeNames<'_>,
    order: &[u32],
    looped: &[bool],
) -> Result<Vec<Option<Measure>>, AllocError>
    requires order { (i : ℕ) → i < length order.now →
        slice_index order.now i < length types.now.names }
    requires told { length looped.now ≡ length types.now.names }
    ensures { IfOk result (λ ms. AreMeasures
        (final_trees types.now looped.now order.now) ms.items) }
{
    let vars = NameTable::new(alloc);
    let mut measures = no_measures(alloc, types.names.len())?;
    for k in order {
        let k = *k as usize;
        measures[k] = measure_at(k, &vars, types, looped, &measures);
    }
    Ok(measures)
}

/// What is known of the aliases among the declared types. Takes time in proportion to the types' length.
pub fn aliases_of(alloc: Global, types: &TypeNames<'_>) -> Result<Aliases, AllocError>
    requires { length types.now.names ≤ 2 ^ 32 }
    ensures known { IfOk result (λ a. IsKnown (declared_in types.now)
        (known_by types.now (final_trees types.now a.looped.items a.order.items) a.looped.items)) }
    ensures measures { IfOk result (λ a. AreMeasures
        (final_trees types.now a.looped.items a.order.items) a.measures.items) }
    ensures order { IfOk result (λ a. IsOrder (graph_of types.now) a.order.items a.looped.items) }
{
    let graph = graph_of(alloc, types)?;
    let Order { order, looped } = order_of(alloc, &graph)?;
    let measures = measures_of(alloc, types, &order, &looped)?;
    Ok(Aliases {
        measures,
        looped,
        order,
    })
}
