ghost use Rattle.std.specs.Prelude.{◌≡◌, length};
ghost use Rattle.fst_types.specs.ModelWrittenView.{written_branches};
ghost use Rattle.fst_scopes.specs.Measures.{function_of, leaf, measure, measure_all, node, node_of};
ghost use Rattle.fst_scopes.specs.Scopes.{counted, recs_of, types_of, vars_of};

use crate::names::{Names, is_recursive, types, vars};
use crate::types::TypeEntry;
use fst_types::{Name, Written, WrittenBranch, WrittenForm};

/// How many nodes a type has, each branch one more, and how many arrows stand one behind the other in it; each counted to
/// 18446744073709551615.
#[derive(Clone, Copy)]
pub struct Measure {
    pub nodes: u64,
    pub arrows: u64,
}

fn leaf() -> Measure
    ensures { result ≡ leaf }
{
    Measure {
        nodes: 1,
        arrows: 0,
    }
}

fn node(below: u64) -> Measure
    ensures { result ≡ node below }
{
    Measure {
        nodes: below.saturating_add(1),
        arrows: 0,
    }
}

fn node_of(first: Measure, second: Measure) -> Measure
    ensures { result ≡ node_of first second }
{
    node(first.nodes.saturating_add(second.nodes))
}

fn function_of(from: Measure, to: Measure) -> Measure
    ensures { result ≡ function_of from to }
{
    Measure {
        nodes: from.nodes.saturating_add(to.nodes).saturating_add(1),
        arrows: to.arrows.saturating_add(1),
    }
}

/// What is counted of a name that no `rec` binds; nothing for an alias of which nothing is counted.
fn counted(name: &Name, names: &Names<'_>, measures: &[Option<Measure>]) -> Option<Measure>
    requires { length measures.now ≡ length (types_of names.now).names }
    ensures { result ≡ counted (vars_of names.now) (types_of names.now) measures.now name.now }
{
    if vars(names).number_of(name).is_some() {
        return Some(leaf());
    }
    let types = types(names);
    match types.names.number_of(name) {
        None => Some(leaf()),
        Some(k) => match types.entries[k] {
            TypeEntry::Family(_) => Some(leaf()),
            TypeEntry::Alias(_) => measures[k],
        },
    }
}

/// What is counted of a type, where these names are in scope, and of the declared types as much is counted; nothing
/// where it has an alias in it of which nothing is counted.
#[cycle(measure)]
#[tactic(auto, unfolding(fst_terms::specs::Naming::both))]
pub fn measure_of(w: &Written, names: &Names<'_>, measures: &[Option<Measure>]) -> Option<Measure>
    requires { length measures.now ≡ length (types_of names.now).names }
    ensures { result ≡ measure (recs_of names.now)
        (counted (vars_of names.now) (types_of names.now) measures.now) w.now }
{
    match &w.form {
        WrittenForm::Skip => Some(leaf()),
        WrittenForm::Send(_) => Some(leaf()),
        WrittenForm::Receive(_) => Some(leaf()),
        WrittenForm::Close => Some(leaf()),
        WrittenForm::Wait => Some(leaf()),
        WrittenForm::Select(branches) => Some(node(measure_all_of(branches, names, measures)?)),
        WrittenForm::Offer(branches) => Some(node(measure_all_of(branches, names, measures)?)),
        WrittenForm::Seq(first, second) => {
            let first = measure_of(first, names, measures)?;
            Some(node_of(first, measure_of(second, names, measures)?))
        }
        WrittenForm::Rec(name, body) => {
            let body = measure_of(body, &Names::Within(name, names), measures)?;
            Some(node(body.nodes))
        }
        WrittenForm::Named(name) => {
            if is_recursive(names, name) {
                Some(leaf())
            } else {
                counted(name, names, measures)
            }
        }
        WrittenForm::Plain(_) => Some(leaf()),
        WrittenForm::Arrow(_, from, to) => {
            let from = measure_of(from, names, measures)?;
            Some(function_of(from, measure_of(to, names, measures)?))
        }
        WrittenForm::Pair(first, second) => {
            let first = measure_of(first, names, measures)?;
            Some(node_of(first, measure_of(second, names, measures)?))
        }
    }
}

#[cycle(measure)]
#[tactic(auto, using(fst_types::proofs::Laws::written_height_at), unfolding(fst_terms::specs::Naming::both))]
fn measure_all_of(
    branches: &[WrittenBranch],
    names: &Names<'_>,
    measures: &[Option<Measure>],
) -> Option<u64>
    requires { length measures.now ≡ length (types_of names.now).names }
    ensures { result ≡ measure_all (recs_of names.now)
        (counted (vars_of names.now) (types_of names.now) measures.now)
        (written_branches branches.now) }
{
    let mut total: u64 = 0;
    for branch in branches {
        let body = measure_of(&branch.body, names, measures)?;
        total = total.saturating_add(body.nodes).saturating_add(1);
    }
    Some(total)
}
