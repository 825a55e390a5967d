ghost use Rattle.std.specs.Prelude.{◌≡◌, [], List, Option, OnOk, length};
ghost use Rattle.fst_types.specs.Tree.{Tree};
ghost use Rattle.fst_types.specs.ModelWrittenView.{written_branches};
ghost use Rattle.fst_terms.specs.Naming.{is_there, place, standing};
ghost use Rattle.fst_scopes.specs.Counted.{AreMeasures};
ghost use Rattle.fst_scopes.specs.Faults.{type_faults, unbound, unbound_in};
ghost use Rattle.fst_scopes.specs.First.{first_from};
ghost use Rattle.fst_scopes.specs.Scopes.{scope_around, types_of};

use crate::fault::{NameFault, note};
use crate::measure::{Measure, measure_of};
use crate::names::{Names, is_recursive, types, vars};
use fst_base::MOST_NODES;
use fst_types::{Name, Written, WrittenBranch, WrittenForm};
use std::alloc::{AllocError, Global};

/// The byte at which a written type begins.
pub fn place(w: &Written) -> u32
    ensures { result ≡ place w.now }
{
    w.at
}

/// Whether a name is in scope.
fn is_bound(names: &Names<'_>, name: &Name) -> bool
    ensures { result ≡ is_there (standing (scope_around names.now []) name.now) }
{
    is_recursive(names, name)
        || vars(names).number_of(name).is_some()
        || types(names).names.number_of(name).is_some()
}

/// Notes the names in a written type that stand for nothing.
#[cycle(unbound)]
#[tactic(auto, using(crate::proofs::FirstLaws::first_append))]
fn note_unbound(
    alloc: Global,
    w: &Written,
    names: &Names<'_>,
    least: &mut Option<NameFault>,
) -> Result<(), AllocError>
    ensures { OnOk result
        (least.new ≡ first_from least.old (unbound (scope_around names.now []) w.now)) }
{
    match &w.form {
        WrittenForm::Skip => Ok(()),
        WrittenForm::Send(_) => Ok(()),
        WrittenForm::Receive(_) => Ok(()),
        WrittenForm::Close => Ok(()),
        WrittenForm::Wait => Ok(()),
        WrittenForm::Select(branches) => note_unbound_in(alloc, branches, names, least),
        WrittenForm::Offer(branches) => note_unbound_in(alloc, branches, names, least),
        WrittenForm::Seq(first, second) => {
            note_unbound(alloc, first, names, least)?;
            note_unbound(alloc, second, names, least)
        }
        WrittenForm::Rec(name, body) => {
            note_unbound(alloc, body, &Names::Within(name, names), least)
        }
        WrittenForm::Named(name) => {
            if !is_bound(names, name) {
                note(least, NameFault::Unbound(w.at, name.copy(alloc)?));
            }
            Ok(())
        }
        WrittenForm::Plain(_) => Ok(()),
        WrittenForm::Arrow(_, from, to) => {
            note_unbound(alloc, from, names, least)?;
            note_unbound(alloc, to, names, least)
        }
        WrittenForm::Pair(first, second) => {
            note_unbound(alloc, first, names, least)?;
            note_unbound(alloc, second, names, least)
        }
    }
}

#[cycle(unbound)]
#[tactic(auto, using(fst_types::proofs::Laws::written_height_at))]
fn note_unbound_in(
    alloc: Global,
    branches: &[WrittenBranch],
    names: &Names<'_>,
    least: &mut Option<NameFault>,
) -> Result<(), AllocError>
    ensures { OnOk result (least.new ≡ first_from least.old
        (unbound_in (scope_around names.now []) (written_branches branches.now))) }
{
    for branch in branches {
        note_unbound(alloc, &branch.body, names, least)?;
    }
    Ok(())
}

/// Notes the faults of a type, where these names are in scope, and of the declared types as much is counted: its names
/// that aren't in scope, and that it is too large.
#[tactic(auto, using(crate::proofs::FirstLaws::first_append))]
pub fn note_type(
    alloc: Global,
    w: &Written,
    names: &Names<'_>,
    measures: &[Option<Measure>],
    least: &mut Option<NameFault>,
) -> Result<(), AllocError>
    requires { length measures.now ≡ length (types_of names.now).names }
    ensures { (trees : List (Option Tree)) → AreMeasures trees measures.now → OnOk result
        (least.new ≡ first_from least.old (type_faults (scope_around names.now trees) w.now)) }
{
    note_unbound(alloc, w, names, least)?;
    if let Some(measure) = measure_of(w, names, measures) {
        if measure.nodes > MOST_NODES {
            note(least, NameFault::TooLarge(place(w)));
        }
    }
    Ok(())
}
