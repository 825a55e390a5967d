ghost use Rattle.std.specs.Prelude.{◌≡◌, ◌-◌, ◌^◌, min, IfOk, map};
ghost use Rattle.fst_types.specs.ModelView.{branches_of};
ghost use Rattle.fst_types.specs.Size.{nodes, nodes_all};
ghost use Rattle.fst_types.specs.Instance.{argument, instantiated, instantiated_all, instantiated_branch};

use crate::ty::{Branch, Ty, TyForm};
use crate::walks::{copy, size};
use std::alloc::{AllocError, Global};

// The type for the k-th variable.
fn argument(alloc: Global, args: &[Ty], k: u32) -> Result<Ty, AllocError>
    ensures { IfOk result (λ t. t ≡ argument args.now k) }
{
    match args.get(k as usize) {
        Some(arg) => copy(alloc, arg),
        None => Ok(Ty {
            form: TyForm::Var(k),
        }),
    }
}

/// The type with `args[k]` in place of `Var(k)`, meant for arguments without free recursion variables. A variable for
/// which there is no argument stays as it is.
#[cycle(instantiate)]
#[tactic(auto, using(crate::proofs::Instantiating::instantiated_all_map))]
pub fn instantiate(alloc: Global, t: &Ty, args: &[Ty]) -> Result<Ty, AllocError>
    ensures { IfOk result (λ c. c ≡ instantiated args.now t.now) }
{
    match &t.form {
        TyForm::Skip => Ok(Ty { form: TyForm::Skip }),
        TyForm::Send(base) => Ok(Ty {
            form: TyForm::Send(*base),
        }),
        TyForm::Receive(base) => Ok(Ty {
            form: TyForm::Receive(*base),
        }),
        TyForm::Close => Ok(Ty {
            form: TyForm::Close,
        }),
        TyForm::Wait => Ok(Ty { form: TyForm::Wait }),
        TyForm::Select(branches) => Ok(Ty {
            form: TyForm::Select(instantiate_all(alloc, branches, args)?),
        }),
        TyForm::Offer(branches) => Ok(Ty {
            form: TyForm::Offer(instantiate_all(alloc, branches, args)?),
        }),
        TyForm::Seq(first, second) => Ok(Ty {
            form: TyForm::Seq(
                instantiate_part(alloc, first, args)?,
                instantiate_part(alloc, second, args)?,
            ),
        }),
        TyForm::Rec(body) => Ok(Ty {
            form: TyForm::Rec(instantiate_part(alloc, body, args)?),
        }),
        TyForm::Back(k) => Ok(Ty {
            form: TyForm::Back(*k),
        }),
        TyForm::Var(k) => argument(alloc, args, *k),
        TyForm::Plain(base) => Ok(Ty {
            form: TyForm::Plain(*base),
        }),
        TyForm::Arrow(uses, from, to) => Ok(Ty {
            form: TyForm::Arrow(
                *uses,
                instantiate_part(alloc, from, args)?,
                instantiate_part(alloc, to, args)?,
            ),
        }),
        TyForm::Pair(first, second) => Ok(Ty {
            form: TyForm::Pair(
                instantiate_part(alloc, first, args)?,
                instantiate_part(alloc, second, args)?,
            ),
        }),
        TyForm::Named(k) => Ok(Ty {
            form: TyForm::Named(*k),
        }),
    }
}

#[cycle(instantiate)]
fn instantiate_part(alloc: Global, part: &Ty, args: &[Ty]) -> Result<Box<Ty>, AllocError>
    ensures { IfOk result (λ c. c.value ≡ instantiated args.now part.now) }
{
    let instance = instantiate(alloc, part, args)?;
    Ok(Box::new(alloc, instance)?)
}

#[cycle(instantiate)]
#[tactic(auto, using(crate::proofs::Laws::height_at))]
fn instantiate_all(
    alloc: Global,
    branches: &[Branch],
    args: &[Ty],
) -> Result<Vec<Branch>, AllocError>
    ensures { IfOk result (λ c. c.items ≡ map (instantiated_branch args.now) branches.now) }
{
    let mut instances = Vec::new(alloc);
    for branch in branches {
        let label = branch.label.copy(alloc)?;
        let body = instantiate(alloc, &branch.body, args)?;
        instances.push(Branch { label, body })?;
    }
    Ok(instances)
}

fn argument_size(args: &[Ty], k: u32) -> u64
    ensures { result ≡ min (nodes (argument args.now k)) (2 ^ 64 - 1) }
{
    match args.get(k as usize) {
        Some(arg) => size(arg),
        None => 1,
    }
}

/// How many nodes `instantiate` would answer, without building it; it stays at 18446744073709551615.
#[cycle(instance_size)]
pub fn instance_size(t: &Ty, args: &[Ty]) -> u64
    ensures { result ≡ min (nodes (instantiated args.now t.now)) (2 ^ 64 - 1) }
{
    match &t.form {
        TyForm::Skip => 1,
        TyForm::Send(_) => 1,
        TyForm::Receive(_) => 1,
        TyForm::Close => 1,
        TyForm::Wait => 1,
        TyForm::Select(branches) => instance_branches_size(branches, args).saturating_add(1),
        TyForm::Offer(branches) => instance_branches_size(branches, args).saturating_add(1),
        TyForm::Seq(first, second) => instance_size(first, args)
            .saturating_add(instance_size(second, args))
            .saturating_add(1),
        TyForm::Rec(body) => instance_size(body, args).saturating_add(1),
        TyForm::Back(_) => 1,
        TyForm::Var(k) => argument_size(args, *k),
        TyForm::Plain(_) => 1,
        TyForm::Arrow(_, from, to) => instance_size(from, args)
            .saturating_add(instance_size(to, args))
            .saturating_add(1),
        TyForm::Pair(first, second) => instance_size(first, args)
            .saturating_add(instance_size(second, args))
            .saturating_add(1),
        TyForm::Named(_) => 1,
    }
}

#[cycle(instance_size)]
#[tactic(auto, using(crate::proofs::Laws::height_at))]
fn instance_branches_size(branches: &[Branch], args: &[Ty]) -> u64
    ensures { result ≡ min (nodes_all (instantiated_all args.now (branches_of branches.now)))
        (2 ^ 64 - 1) }
{
    let mut total: u64 = 0;
    for branch in branches {
        total = total
            .saturating_add(instance_size(&branch.body, args))
            .saturating_add(1);
    }
    total
}
