ghost use Rattle.std.specs.Prelude.{◌≡◌, ◌↔◌, ◌+◌, List, Some, None, min, option_map, if◌then◌else◌, IfOk, IfSome, IsSomeAnd, IsErrAnd, IsTrue};
ghost use Rattle.fst_base.specs.Limits.{most_nodes};
ghost use Rattle.fst_types.specs.Size.{nodes, HasTooManyNodes};
ghost use Rattle.fst_types.specs.Order.{IsOrdered};
ghost use Rattle.fst_types.specs.ModelScopes.{env_of};
ghost use Rattle.fst_types.specs.Substitution.{substitute};
ghost use Rattle.fst_types.specs.declared.kind.Kind.{Kind};
ghost use Rattle.fst_kinds.specs.WellFormed.{IsSession};
ghost use Rattle.fst_lts.specs.Step.{is_end, step, step_in};
ghost use Rattle.fst_lts.specs.declared.fault.StepFault.TheVariants.{TooLarge};

use crate::fault::StepFault;
use crate::moves::{is_end, is_terminated, offered, selected, step};
use fst_base::MOST_NODES;
use fst_types::{Label, Scope, Ty, TyForm, substituted_size};
use std::alloc::Global;

/// The type after a label, as `step` gives it, where it has at most 4,096 nodes; otherwise it is too large, which is
/// known before any of it is built.
pub fn step_within_limit(alloc: Global, t: &Ty, a: &Label) -> Result<Option<Ty>, StepFault>
    ensures next { IfOk result (λ next. next ≡ step t.now a.now) }
    ensures ordered { IsOrdered t.now → IfOk result (λ next. IfSome next IsOrdered) }
    ensures well_formed { (vars : List Kind) → IsSession vars t.now → IfOk result
        (λ next. IfSome next (IsSession vars)) }
    ensures too_large { IsErrAnd result
        (λ f. f ≡ TooLarge) ↔ IsSomeAnd (step t.now a.now) HasTooManyNodes }
{
    if step_is_too_large(t, a) {
        return Err(StepFault::TooLarge);
    }
    Ok(step(alloc, t, a)?)
}

fn step_is_too_large(t: &Ty, a: &Label) -> bool
    ensures { IsTrue result ↔ IsSomeAnd (step t.now a.now) HasTooManyNodes }
{
    match step_size(&Scope::Top, t, a) {
        Some(size) => size > MOST_NODES,
        None => false,
    }
}

// How many nodes the type after a label has, counted to one over the limit.
fn step_size(scope: &Scope<'_>, t: &Ty, a: &Label) -> Option<u64>
    ensures { result ≡ option_map (λ s. min (nodes s) (most_nodes + 1))
        (step_in (env_of scope.now) t.now a.now) }
{
    match &t.form {
        TyForm::Skip => None,
        TyForm::Send(base) => one_node_if(a.same(&Label::Send(*base))),
        TyForm::Receive(base) => one_node_if(a.same(&Label::Receive(*base))),
        TyForm::Close => one_node_if(a.same(&Label::Close)),
        TyForm::Wait => one_node_if(a.same(&Label::Wait)),
        TyForm::Select(branches) => match selected(branches, a) {
            Some(body) => Some(substituted_size(scope, body, 0)),
            None => None,
        },
        TyForm::Offer(branches) => match offered(branches, a) {
            Some(body) => Some(substituted_size(scope, body, 0)),
            None => None,
        },
        TyForm::Seq(first, second) => {
            if is_terminated(first) {
                step_size(scope, second, a)
            } else {
                match step_size(scope, first, a) {
                    Some(size) => Some(followed_size(scope, a, size, second)),
                    None => None,
                }
            }
        }
        TyForm::Rec(body) => step_size(&Scope::Under(&*t, &*scope), body, a),
        TyForm::Back(_) => None,
        TyForm::Var(k) => one_node_if(a.same(&Label::Var(*k))),
        TyForm::Plain(_) => None,
        TyForm::Arrow(_, _, _) => None,
        TyForm::Pair(_, _) => None,
        TyForm::Named(_) => None,
    }
}

// How many nodes a type of so many has with another one behind it after a label, counted likewise.
fn followed_size(scope: &Scope<'_>, a: &Label, size: u64, second: &Ty) -> u64
    ensures { result ≡ (if is_end a.now then 1 else min
        (size + 1 + nodes (substitute (env_of scope.now) second.now)) (most_nodes + 1)) }
{
    if is_end(a) {
        return 1;
    }
    substituted_size(scope, second, size.saturating_add(1))
}

fn one_node_if(moves: bool) -> Option<u64>
    ensures { result ≡ (if moves then Some 1 else None) }
{
    if moves { Some(1) } else { None }
}
