ghost use Rattle.std.specs.Prelude.{◌≡◌, IfOk};
ghost use Rattle.fst_types.specs.ModelView.{branches_of};
ghost use Rattle.fst_types.specs.Tree as tree;
ghost use Rattle.fst_fits.specs.Tests.{are_ready, has_some, is_many, is_ready, kind_in, rising, same_tree, use_in};

use fst_kinds::{KindFault, kind_of};
use fst_types::{Base, Branch, Kind, Ty, TyForm, Use, same};
use std::alloc::{AllocError, Global};

/// Whether two types are one tree.
#[tactic(auto, using(crate::proofs::TestLaws::same_answer))]
pub fn is_same(a: &Ty, b: &Ty) -> bool
    ensures { result ≡ same_tree a.now b.now }
{
    same(a, b)
}

/// Whether a type is that of the plain values of a base type.
pub fn is_plain(t: &Ty, base: Base) -> bool
    ensures { result ≡ same_tree t.now (tree.plain base) }
{
    let plain = Ty {
        form: TyForm::Plain(base),
    };
    is_same(t, &plain)
}

fn rising(branches: &[Branch]) -> bool
    ensures { result ≡ rising (branches_of branches.now) }
{
    let Some((first, rest)) = branches.split_first() else {
        return false;
    };
    let mut last = first;
    for branch in rest {
        if !last.label.as_slice().cmp(branch.label.as_slice()).is_lt() {
            return false;
        }
        last = branch;
    }
    true
}

// Whether no more than n recursion variables are free, and the labels of each choice rise.
#[cycle(ready)]
fn is_ready(t: &Ty, n: u32) -> Result<bool, AllocError>
    ensures { IfOk result (λ b. b ≡ is_ready n t.now) }
{
    match &t.form {
        TyForm::Skip => Ok(true),
        TyForm::Send(_) => Ok(true),
        TyForm::Receive(_) => Ok(true),
        TyForm::Close => Ok(true),
        TyForm::Wait => Ok(true),
        TyForm::Select(branches) => Ok(rising(branches) && are_ready(branches, n)?),
        TyForm::Offer(branches) => Ok(rising(branches) && are_ready(branches, n)?),
        TyForm::Seq(first, second) => Ok(is_ready(first, n)? && is_ready(second, n)?),
        TyForm::Rec(body) => is_ready(body, n.checked_add(1).ok_or(AllocError)?),
        TyForm::Back(k) => Ok(*k < n),
        TyForm::Var(_) => Ok(true),
        TyForm::Plain(_) => Ok(true),
        TyForm::Arrow(_, from, to) => Ok(is_ready(from, n)? && is_ready(to, n)?),
        TyForm::Pair(first, second) => Ok(is_ready(first, n)? && is_ready(second, n)?),
        TyForm::Named(_) => Ok(true),
    }
}

#[cycle(ready)]
#[tactic(auto, using(fst_types::proofs::Laws::height_at))]
fn are_ready(branches: &[Branch], n: u32) -> Result<bool, AllocError>
    ensures { IfOk result (λ b. b ≡ are_ready n (branches_of branches.now)) }
{
    for branch in branches {
        if !is_ready(&branch.body, n)? {
            return Ok(false);
        }
    }
    Ok(true)
}

/// The kind of a type over the variables of a signature, if it is well formed.
#[tactic(auto, using(crate::proofs::TestLaws::is_ready_scoped, crate::proofs::TestLaws::is_ready_sorted), unfolding(crate::specs::Tests::kind_in))]
pub fn kind_in(alloc: Global, vars: &[Kind], t: &Ty) -> Result<Option<Kind>, AllocError>
    ensures { IfOk result (λ k. k ≡ kind_in vars.now t.now) }
{
    if !is_ready(t, 0)? {
        return Ok(None);
    }
    match kind_of(alloc, t, vars) {
        Ok(kind) => Ok(Some(kind)),
        Err(KindFault::Memory) => Err(AllocError),
        Err(KindFault::NotContractive) => Ok(None),
        Err(KindFault::WrongKind(_, _)) => Ok(None),
        Err(KindFault::UnboundType(_)) => Ok(None),
        Err(KindFault::DoubleLabel(_)) => Ok(None),
    }
}

/// Whether a type is well formed.
pub fn is_formed(alloc: Global, vars: &[Kind], t: &Ty) -> Result<bool, AllocError>
    ensures { IfOk result (λ b. b ≡ has_some (kind_in vars.now t.now)) }
{
    match kind_in(alloc, vars, t)? {
        Some(_) => Ok(true),
        None => Ok(false),
    }
}

/// How often the values of a type may be used, if it is well formed.
pub fn use_in(alloc: Global, vars: &[Kind], t: &Ty) -> Result<Option<Use>, AllocError>
    ensures { IfOk result (λ n. n ≡ use_in vars.now t.now) }
{
    match kind_in(alloc, vars, t)? {
        Some(kind) => Ok(Some(kind.uses)),
        None => Ok(None),
    }
}

/// Whether a type is well formed, and its values may be used often.
pub fn is_often(alloc: Global, vars: &[Kind], t: &Ty) -> Result<bool, AllocError>
    ensures { IfOk result (λ b. b ≡ is_many (use_in vars.now t.now)) }
{
    match use_in(alloc, vars, t)? {
        Some(Use::Many) => Ok(true),
        Some(Use::Once) => Ok(false),
        None => Ok(false),
    }
}
