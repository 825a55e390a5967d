ghost use Rattle.std.specs.Prelude.{◌≡◌, ◌+◌, ◌^◌, ◌<◌, ◌≤◌, [], Some, IfOk, IsSome, OnOk, length};
ghost use Rattle.fst_types.specs.ModelView as view;
ghost use Rattle.fst_types.specs.ModelWrittenHeight.{height, height_all};
ghost use Rattle.fst_types.specs.ModelWrittenView.{written_branches};
ghost use Rattle.fst_terms.specs.Naming.{branches_of, meaning, type_of};
ghost use Rattle.fst_scopes.specs.Arranging.{put};
ghost use Rattle.fst_scopes.specs.Scopes.{recs_of, scope_around, scope_within, types_of, vars_of};

use crate::names::{Names, binder, types, vars};
use crate::types::TypeEntry;
use fst_types::{Branch, Name, Ty, TyForm, Written, WrittenBranch, WrittenForm, copy};
use std::alloc::{AllocError, Global};
use std::cmp::Ordering;

/// What a name that no `rec` binds stands for.
fn declared(
    alloc: Global,
    name: &Name,
    names: &Names<'_>,
    trees: &[Option<Ty>],
) -> Result<Ty, AllocError>
    requires count { length (vars_of names.now) ≤ 2 ^ 32 }
    requires trees { length trees.now ≡ length (types_of names.now).names }
    requires known { IsSome (meaning (scope_within [] names.now trees.now) name.now) }
    ensures { IfOk result (λ t. meaning (scope_within [] names.now trees.now) name.now ≡ Some t) }
{
    if let Some(k) = vars(names).number_of(name) {
        return Ok(Ty {
            form: TyForm::Var(k as u32),
        });
    }
    let types = types(names);
    match types.names.number_of(name) {
        None => Ok(Ty { form: TyForm::Skip }),
        Some(k) => match types.entries[k] {
            TypeEntry::Family(number) => Ok(Ty {
                form: TyForm::Named(number),
            }),
            TypeEntry::Alias(_) => match &trees[k] {
                Some(tree) => copy(alloc, tree),
                None => unreachable!(),
            },
        },
    }
}

/// What a name stands for.
fn meaning(
    alloc: Global,
    name: &Name,
    names: &Names<'_>,
    trees: &[Option<Ty>],
) -> Result<Ty, AllocError>
    requires depth { length (recs_of names.now) < 2 ^ 32 }
    requires count { length (vars_of names.now) ≤ 2 ^ 32 }
    requires trees { length trees.now ≡ length (types_of names.now).names }
    requires known { IsSome (meaning (scope_around names.now trees.now) name.now) }
    ensures { IfOk result (λ t. meaning (scope_around names.now trees.now) name.now ≡ Some t) }
{
    match binder(names, name) {
        Some(k) => Ok(Ty {
            form: TyForm::Back(k),
        }),
        None => declared(alloc, name, names, trees),
    }
}

/// Puts a branch into its place among arranged ones, in front of those with its own label.
fn place(branches: &mut Vec<Branch>, branch: Branch) -> Result<(), AllocError>
    ensures { OnOk result (branches.new.items ≡ put branch branches.old.items) }
{
    for (i, other) in branches.iter().enumerate() {
        match branch.label.as_slice().cmp(other.label.as_slice()) {
            Ordering::Less | Ordering::Equal => {
                branches.insert(i, branch)?;
                return Ok(());
            }
            Ordering::Greater => {}
        }
    }
    branches.push(branch)?;
    Ok(())
}

/// The type that is written, with numbers in place of names and its branches in byte order of their labels.
#[cycle(named)]
#[tactic(auto, unfolding(fst_terms::specs::Naming::both))]
pub fn named(
    alloc: Global,
    w: &Written,
    names: &Names<'_>,
    trees: &[Option<Ty>],
) -> Result<Ty, AllocError>
    requires depth { length (recs_of names.now) + height w.now < 2 ^ 32 }
    requires count { length (vars_of names.now) ≤ 2 ^ 32 }
    requires trees { length trees.now ≡ length (types_of names.now).names }
    requires known { IsSome (type_of (scope_around names.now trees.now) w.now) }
    ensures { IfOk result (λ t. type_of (scope_around names.now trees.now) w.now ≡ Some t) }
{
    match &w.form {
        WrittenForm::Skip => Ok(Ty { form: TyForm::Skip }),
        WrittenForm::Send(base) => Ok(Ty {
            form: TyForm::Send(*base),
        }),
        WrittenForm::Receive(base) => Ok(Ty {
            form: TyForm::Receive(*base),
        }),
        WrittenForm::Close => Ok(Ty {
            form: TyForm::Close,
        }),
        WrittenForm::Wait => Ok(Ty { form: TyForm::Wait }),
        WrittenForm::Select(branches) => Ok(Ty {
            form: TyForm::Select(named_branches(alloc, branches, names, trees)?),
        }),
        WrittenForm::Offer(branches) => Ok(Ty {
            form: TyForm::Offer(named_branches(alloc, branches, names, trees)?),
        }),
        WrittenForm::Seq(first, second) => {
            let first = Box::new(alloc, named(alloc, first, names, trees)?)?;
            let second = Box::new(alloc, named(alloc, second, names, trees)?)?;
            Ok(Ty {
                form: TyForm::Seq(first, second),
            })
        }
        WrittenForm::Rec(name, body) => {
            let body = named(alloc, body, &Names::Within(name, names), trees)?;
            let body = Box::new(alloc, body)?;
            Ok(Ty {
                form: TyForm::Rec(body),
            })
        }
        WrittenForm::Named(name) => meaning(alloc, name, names, trees),
        WrittenForm::Plain(base) => Ok(Ty {
            form: TyForm::Plain(*base),
        }),
        WrittenForm::Arrow(uses, from, to) => {
            let from = Box::new(alloc, named(alloc, from, names, trees)?)?;
            let to = Box::new(alloc, named(alloc, to, names, trees)?)?;
            Ok(Ty {
                form: TyForm::Arrow(*uses, from, to),
            })
        }
        WrittenForm::Pair(first, second) => {
            let first = Box::new(alloc, named(alloc, first, names, trees)?)?;
            let second = Box::new(alloc, named(alloc, second, names, trees)?)?;
            Ok(Ty {
                form: TyForm::Pair(first, second),
            })
        }
    }
}

#[cycle(named)]
#[tactic(auto, using(crate::proofs::Places::first_named))]
fn named_branches(
    alloc: Global,
    branches: &[WrittenBranch],
    names: &Names<'_>,
    trees: &[Option<Ty>],
) -> Result<Vec<Branch>, AllocError>
    requires depth { length (recs_of names.now) + height_all
        (written_branches branches.now) < 2 ^ 32 }
    requires count { length (vars_of names.now) ≤ 2 ^ 32 }
    requires trees { length trees.now ≡ length (types_of names.now).names }
    requires known { IsSome (branches_of (scope_around names.now trees.now)
        (written_branches branches.now)) }
    ensures { IfOk result (λ bs. branches_of (scope_around names.now trees.now)
        (written_branches branches.now) ≡ Some (view.branches_of bs.items)) }
{
    match branches {
        [] => Ok(Vec::new(alloc)),
        [first, others @ ..] => {
            let body = named(alloc, &first.body, names, trees)?;
            let mut arranged = named_branches(alloc, others, names, trees)?;
            let label = first.label.copy(alloc)?;
            place(&mut arranged, Branch { label, body })?;
            Ok(arranged)
        }
    }
}
