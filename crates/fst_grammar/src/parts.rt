ghost use Rattle.std.specs.Prelude.{◌≡◌, ◌+◌, ◌<◌, ◌^◌, OnOk, map};
ghost use Rattle.fst_types.specs.ModelView.{branches_of};
ghost use Rattle.fst_types.specs.Size.{nodes, nodes_all};
ghost use Rattle.fst_parts.specs.Shapes.{shape_of_all};
ghost use Rattle.fst_parts.specs.Keys.{Stands};
ghost use Rattle.fst_parts.specs.Once.{with_parts};
ghost use Rattle.fst_parts.specs.Place.{own_place};
ghost use Rattle.fst_parts.specs.Views.{part_of, places_of, place_in, HasNumber, IsKept};
ghost use Rattle.fst_grammar.specs.Parts.{parts as parts_in, parts_all};
ghost use Rattle.fst_grammar.specs.PartsAt.{own_parts};

use crate::counts::counts;
use fst_parts::{Binders, Numbered, Parts, Trees, first_part, note, second_part};
use fst_types::{Branch, TyForm};
use std::alloc::{AllocError, Global};

/// Puts the choices and `rec`s of a part behind the list, in preorder.
#[cycle(note)]
#[tactic(auto, using(crate::proofs::TableLaws::with_append))]
pub(crate) fn note_all<'a>(
    alloc: Global,
    trees: &Trees,
    parts: &mut Parts<'a>,
    whole: Numbered<'a>,
    at: u32,
    binders: &Binders<'_>,
    t: Numbered<'a>,
) -> Result<(), AllocError>
    requires fits { at + nodes t.ty.now < 2 ^ 31 }
    requires whole { HasNumber trees.now whole }
    requires part { HasNumber trees.now t }
    requires kept { IsKept trees.now parts.old }
    ensures kept { OnOk result (IsKept trees.now parts.new) }
    ensures parts { OnOk result (map part_of parts.new.found.items ≡ with_parts
        (map part_of parts.old.found.items)
        (parts_in (place_in whole.entry.ty.now at (places_of binders.now)) t.entry.ty.now)) }
{
    let ty = t.ty;
    match &ty.form {
        TyForm::Seq(first, second) => {
            let first = first_part(trees, t, first);
            let after = at + (1 + counts(trees, first).nodes);
            note_all(alloc, trees, parts, whole, at + 1, binders, first)?;
            let second = second_part(trees, t, second);
            note_all(alloc, trees, parts, whole, after, binders, second)
        }
        TyForm::Select(_) => note_entered(alloc, trees, parts, whole, at, binders, t),
        TyForm::Offer(_) => note_entered(alloc, trees, parts, whole, at, binders, t),
        TyForm::Rec(_) => note_entered(alloc, trees, parts, whole, at, binders, t),
        _ => Ok(()),
    }
}

/// The same of a choice or `rec`, which is a whole of its own where it is closed.
#[cycle(note)]
fn note_entered<'a>(
    alloc: Global,
    trees: &Trees,
    parts: &mut Parts<'a>,
    whole: Numbered<'a>,
    at: u32,
    binders: &Binders<'_>,
    t: Numbered<'a>,
) -> Result<(), AllocError>
    requires fits { at + nodes t.ty.now < 2 ^ 31 }
    requires whole { HasNumber trees.now whole }
    requires part { HasNumber trees.now t }
    requires kept { IsKept trees.now parts.old }
    ensures kept { OnOk result (IsKept trees.now parts.new) }
    ensures parts { OnOk result (map part_of parts.new.found.items ≡ with_parts
        (map part_of parts.old.found.items)
        (own_parts (own_place (place_in whole.entry.ty.now at (places_of binders.now))
        t.entry.ty.now) t.entry.ty.now)) }
{
    if counts(trees, t).is_closed() {
        note_own(alloc, trees, parts, t, 0, &Binders::Top, t)
    } else {
        note_own(alloc, trees, parts, whole, at, binders, t)
    }
}

/// The same of a choice or `rec` at its own place.
#[cycle(note)]
fn note_own<'a>(
    alloc: Global,
    trees: &Trees,
    parts: &mut Parts<'a>,
    whole: Numbered<'a>,
    at: u32,
    binders: &Binders<'_>,
    t: Numbered<'a>,
) -> Result<(), AllocError>
    requires fits { at + nodes t.ty.now < 2 ^ 31 }
    requires whole { HasNumber trees.now whole }
    requires part { HasNumber trees.now t }
    requires kept { IsKept trees.now parts.old }
    ensures kept { OnOk result (IsKept trees.now parts.new) }
    ensures parts { OnOk result (map part_of parts.new.found.items ≡ with_parts
        (map part_of parts.old.found.items)
        (own_parts (place_in whole.entry.ty.now at (places_of binders.now)) t.entry.ty.now)) }
{
    let (ty, list) = (t.ty, trees.first(t.number));
    match &ty.form {
        TyForm::Select(branches) => {
            note(alloc, trees, parts, whole, at, binders, t)?;
            note_branches(alloc, trees, parts, whole, at + 1, binders, branches, list)
        }
        TyForm::Offer(branches) => {
            note(alloc, trees, parts, whole, at, binders, t)?;
            note_branches(alloc, trees, parts, whole, at + 1, binders, branches, list)
        }
        TyForm::Rec(body) => {
            let body = first_part(trees, t, body);
            if counts(trees, body).terminated {
                return Ok(());
            }
            note(alloc, trees, parts, whole, at, binders, t)?;
            let inner = Binders::Under(at, &*binders);
            note_all(alloc, trees, parts, whole, at + 1, &inner, body)
        }
        _ => Ok(()),
    }
}

#[cycle(note)]
#[tactic(auto, using(crate::proofs::Rulesets::parts_of_branches))]
fn note_branches<'a>(
    alloc: Global,
    trees: &Trees,
    parts: &mut Parts<'a>,
    whole: Numbered<'a>,
    at: u32,
    binders: &Binders<'_>,
    branches: &'a [Branch],
    list: usize,
) -> Result<(), AllocError>
    requires fits { at + nodes_all (branches_of branches.now) < 2 ^ 31 }
    requires whole { HasNumber trees.now whole }
    requires part { Stands trees.now list (shape_of_all (branches_of branches.now)) }
    requires kept { IsKept trees.now parts.old }
    ensures kept { OnOk result (IsKept trees.now parts.new) }
    ensures parts { OnOk result (map part_of parts.new.found.items ≡ with_parts
        (map part_of parts.old.found.items)
        (parts_all (place_in whole.entry.ty.now at (places_of binders.now))
        (branches_of branches.now))) }
{
    let mut place = at;
    let mut list = list;
    for branch in branches {
        let body = Numbered {
            ty: &branch.body,
            number: trees.first(list),
        };
        note_all(alloc, trees, parts, whole, place + 1, binders, body)?;
        place += 1 + counts(trees, body).nodes;
        list = trees.second(list);
    }
    Ok(())
}
