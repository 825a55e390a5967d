ghost use Rattle.std.specs.Prelude.{◌≡◌, ◌↔◌, ◌+◌, min, IfOk, IsErrAnd, IsTrue};
ghost use Rattle.fst_base.specs.Limits.{most_nodes};
ghost use Rattle.fst_types.specs.Tree.{Tree};
ghost use Rattle.fst_types.specs.Tree as tree;
ghost use Rattle.fst_types.specs.Size.{nodes, HasTooManyNodes};
ghost use Rattle.fst_types.specs.Scoped.{IsScoped};
ghost use Rattle.fst_types.specs.Substitution.{unfolding_of};
ghost use Rattle.fst_types.specs.declared.fault.UnfoldFault.TheVariants.{TooLarge};

use crate::counting::substituted_size;
use crate::fault::UnfoldFault;
use crate::scope::{Scope, substitute};
use crate::ty::{Ty, TyForm};
use fst_base::MOST_NODES;
use std::alloc::{AllocError, Global};

/// The unfolding of a `Rec` without free recursion variables: its body with the whole type in place of its variable.
#[tactic(auto, using(crate::proofs::ScopeLaws::of_unfoldings))]
pub fn unfold(alloc: Global, t: &Ty) -> Result<Ty, AllocError>
    requires recursive { (s : Tree) × (t.now ≡ tree.rec s) }
    requires scoped { IsScoped 0 t.now }
    ensures unfolding { IfOk result (λ u. (s : Tree) → t.now ≡ tree.rec s → u ≡ unfolding_of s) }
    ensures scoped { IfOk result (λ u. IsScoped 0 u) }
{
    match &t.form {
        TyForm::Rec(body) => substitute(alloc, &Scope::Under(t, &Scope::Top), body),
        _ => unreachable!(),
    }
}

/// The same where the unfolding has at most 4,096 nodes; otherwise it is too large, which is known before any of it is
/// built.
pub fn unfold_within_limit(alloc: Global, t: &Ty) -> Result<Ty, UnfoldFault>
    requires recursive { (s : Tree) × (t.now ≡ tree.rec s) }
    requires scoped { IsScoped 0 t.now }
    ensures unfolding { IfOk result (λ u. (s : Tree) → t.now ≡ tree.rec s → u ≡ unfolding_of s) }
    ensures scoped { IfOk result (λ u. IsScoped 0 u) }
    ensures too_large { IsErrAnd result
        (λ f. f ≡ TooLarge) ↔ ((s : Tree) → t.now ≡ tree.rec s → HasTooManyNodes (unfolding_of s)) }
{
    if unfolding_is_too_large(t) {
        return Err(UnfoldFault::TooLarge);
    }
    Ok(unfold(alloc, t)?)
}

// Whether the unfolding has over 4,096 nodes, counted to one more.
#[tactic(auto, using(crate::proofs::ScopeLaws::unfolding_at_top))]
fn unfolding_is_too_large(t: &Ty) -> bool
    requires { (s : Tree) × (t.now ≡ tree.rec s) }
    ensures { IsTrue result ↔ ((s : Tree) → t.now ≡ tree.rec s → HasTooManyNodes (unfolding_of s)) }
{
    match &t.form {
        TyForm::Rec(body) => {
            substituted_size(&Scope::Under(t, &Scope::Top), body, 0) > MOST_NODES
        }
        _ => unreachable!(),
    }
}
