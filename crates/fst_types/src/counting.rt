ghost use Rattle.std.specs.Prelude.{◌≡◌, ◌+◌, min};
ghost use Rattle.fst_base.specs.Limits.{most_nodes};
ghost use Rattle.fst_types.specs.Tree as tree;
ghost use Rattle.fst_types.specs.ModelView.{branches_of};
ghost use Rattle.fst_types.specs.Size.{nodes, nodes_all};
ghost use Rattle.fst_types.specs.Substitution.{variable, substitute, substitute_all};
ghost use Rattle.fst_types.specs.ModelScopes.{env_of};

use crate::scope::{Scope, outward};
use crate::ty::{Branch, Ty, TyForm};
use fst_base::MOST_NODES;

// How far nodes are counted.
const CEILING: u64 = MOST_NODES + 1;

/// How many nodes `substitute` would answer, with those counted before, without building it. The count ends at one over the
/// limit of 4,096, and so takes no longer than a count up to there, however large and deep the type would be.
#[cycle(substituted_size)]
pub fn substituted_size(scope: &Scope<'_>, t: &Ty, before: u64) -> u64
    ensures { result ≡ min (before + nodes (substitute (env_of scope.now) t.now)) (most_nodes + 1) }
{
    if before >= CEILING {
        return CEILING;
    }
    match &t.form {
        TyForm::Skip => before + 1,
        TyForm::Send(_) => before + 1,
        TyForm::Receive(_) => before + 1,
        TyForm::Close => before + 1,
        TyForm::Wait => before + 1,
        TyForm::Select(branches) => branches_size(scope, branches, before + 1),
        TyForm::Offer(branches) => branches_size(scope, branches, before + 1),
        TyForm::Seq(first, second) => {
            let counted = substituted_size(scope, first, before + 1);
            substituted_size(scope, second, counted)
        }
        TyForm::Rec(body) => substituted_size(&Scope::Kept(&*scope), body, before + 1),
        TyForm::Back(k) => variable_size(scope, *k, before),
        TyForm::Var(_) => before + 1,
        TyForm::Plain(_) => before + 1,
        TyForm::Arrow(_, from, to) => {
            let counted = substituted_size(scope, from, before + 1);
            substituted_size(scope, to, counted)
        }
        TyForm::Pair(first, second) => {
            let counted = substituted_size(scope, first, before + 1);
            substituted_size(scope, second, counted)
        }
        TyForm::Named(_) => before + 1,
    }
}

#[cycle(substituted_size)]
#[tactic(auto, using(crate::proofs::ScopeLaws::of_variables))]
fn variable_size(scope: &Scope<'_>, k: u32, before: u64) -> u64
    ensures { result ≡ min (before + nodes (variable (env_of scope.now) k (tree.back k)))
        (most_nodes + 1) }
{
    match outward(&*scope, k) {
        Scope::Under(whole, outer) => substituted_size(outer, whole, before),
        Scope::Kept(_) => before.saturating_add(1).min(CEILING),
        Scope::Top => before.saturating_add(1).min(CEILING),
    }
}

#[cycle(substituted_size)]
#[tactic(auto, using(crate::proofs::Laws::height_at))]
fn branches_size(scope: &Scope<'_>, branches: &[Branch], before: u64) -> u64
    ensures { result ≡ min (before + nodes_all
        (substitute_all (env_of scope.now) (branches_of branches.now))) (most_nodes + 1) }
{
    let mut counted = before;
    for branch in branches {
        if counted >= CEILING {
            return CEILING;
        }
        counted = substituted_size(scope, &branch.body, counted + 1);
    }
    counted.min(CEILING)
}
