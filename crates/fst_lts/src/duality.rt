ghost use Rattle.std.specs.Prelude.{◌≡◌, IfOk, map};
ghost use Rattle.fst_lts.specs.Dual.{dual, dual_label, dual_branch};

use fst_types::{Branch, Label, Ty, TyForm};
use std::alloc::{AllocError, Global};

/// The other side of a type: what the one side sends, selects, receives and offers, the other
/// receives, offers, sends and selects, in the same order, and where the one closes, the other waits.
#[cycle(dual)]
#[tactic(auto, using(crate::proofs::DualLaws::dual_all_map))]
pub fn dual(alloc: Global, t: &Ty) -> Result<Ty, AllocError>
    ensures { IfOk result (λ d. d ≡ dual t.now) }
{
    match &t.form {
        TyForm::Skip => Ok(Ty { form: TyForm::Skip }),
        TyForm::Send(base) => Ok(Ty {
            form: TyForm::Receive(*base),
        }),
        TyForm::Receive(base) => Ok(Ty {
            form: TyForm::Send(*base),
        }),
        TyForm::Close => Ok(Ty { form: TyForm::Wait }),
        TyForm::Wait => Ok(Ty {
            form: TyForm::Close,
        }),
        TyForm::Select(branches) => Ok(Ty {
            form: TyForm::Offer(dual_branches(alloc, branches)?),
        }),
        TyForm::Offer(branches) => Ok(Ty {
            form: TyForm::Select(dual_branches(alloc, branches)?),
        }),
        TyForm::Seq(first, second) => Ok(Ty {
            form: TyForm::Seq(dual_part(alloc, first)?, dual_part(alloc, second)?),
        }),
        TyForm::Rec(body) => Ok(Ty {
            form: TyForm::Rec(dual_part(alloc, body)?),
        }),
        TyForm::Back(k) => Ok(Ty {
            form: TyForm::Back(*k),
        }),
        TyForm::Var(k) => Ok(Ty {
            form: TyForm::Var(*k),
        }),
        TyForm::Plain(base) => Ok(Ty {
            form: TyForm::Plain(*base),
        }),
        TyForm::Arrow(uses, from, to) => Ok(Ty {
            form: TyForm::Arrow(*uses, dual_part(alloc, from)?, dual_part(alloc, to)?),
        }),
        TyForm::Pair(first, second) => Ok(Ty {
            form: TyForm::Pair(dual_part(alloc, first)?, dual_part(alloc, second)?),
        }),
        TyForm::Named(k) => Ok(Ty {
            form: TyForm::Named(*k),
        }),
    }
}

#[cycle(dual)]
fn dual_part(alloc: Global, part: &Ty) -> Result<Box<Ty>, AllocError>
    ensures { IfOk result (λ d. d.value ≡ dual part.now) }
{
    let other = dual(alloc, part)?;
    Ok(Box::new(alloc, other)?)
}

#[cycle(dual)]
#[tactic(auto, using(fst_types::proofs::Laws::height_at))]
fn dual_branches(alloc: Global, branches: &[Branch]) -> Result<Vec<Branch>, AllocError>
    ensures { IfOk result (λ d. d.items ≡ map dual_branch branches.now) }
{
    let mut duals = Vec::new(alloc);
    for branch in branches {
        let label = branch.label.copy(alloc)?;
        let body = dual(alloc, &branch.body)?;
        duals.push(Branch { label, body })?;
    }
    Ok(duals)
}

/// The label by which the other side of a session moves.
pub fn dual_label(alloc: Global, a: &Label) -> Result<Label, AllocError>
    ensures { IfOk result (λ d. d ≡ dual_label a.now) }
{
    match a {
        Label::Send(base) => Ok(Label::Receive(*base)),
        Label::Receive(base) => Ok(Label::Send(*base)),
        Label::Select(name) => Ok(Label::Offer(name.copy(alloc)?)),
        Label::Offer(name) => Ok(Label::Select(name.copy(alloc)?)),
        Label::Close => Ok(Label::Wait),
        Label::Wait => Ok(Label::Close),
        Label::Var(k) => Ok(Label::Var(*k)),
    }
}
