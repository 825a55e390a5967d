ghost use Rattle.std.specs.Prelude.{◌≡◌, ◌+◌, ◌<◌, ◌^◌, ◌++◌, ◌∷◌, [], IfOk, OnOk};
ghost use Rattle.fst_types.specs.Size.{nodes};
ghost use Rattle.fst_parts.specs.Place.{binder, top_of};
ghost use Rattle.fst_grammar.specs.Word.{word};
ghost use Rattle.fst_parts.specs.Views.{place_in, HasNumber};
ghost use Rattle.fst_grammar.specs.Views.{numbers_in, IsTable};

use crate::counts::counts;
use crate::table::Table;
use fst_parts::{Numbered, first_part, second_part};
use fst_types::{Label, TyForm};
use fst_words::Word;
use std::alloc::{AllocError, Global};

#[tactic(auto, using(crate::proofs::Rulesets::binders))]
fn binder_at(binders: &[u32], k: u32) -> u32
    ensures { result ≡ binder binders.now k }
{
    if (k as usize) < binders.len() {
        binders[k as usize]
    } else {
        0
    }
}

fn add(out: &mut Vec<u32>, n: u32) -> Result<(), AllocError>
    ensures { OnOk result (out.new.items ≡ out.old.items ++ n ∷ []) }
{
    out.push(n)?;
    Ok(())
}

fn add_name(out: &mut Vec<u32>, table: &Table<'_>, name: Label) -> Result<(), AllocError>
    requires { IsTable table.now }
    ensures { OnOk result (out.new.items ≡ out.old.items ++ (numbers_in table.now).name name ∷ []) }
{
    add(out, table.name(&name))
}

/// Puts the word of a part at its place behind a word.
fn push_word(
    out: &mut Vec<u32>,
    table: &Table<'_>,
    binders: &[u32],
    whole: Numbered<'_>,
    at: u32,
    t: Numbered<'_>,
) -> Result<(), AllocError>
    requires table { IsTable table.now }
    requires fits { at + nodes t.ty.now < 2 ^ 31 }
    requires whole { HasNumber table.now.trees whole }
    requires part { HasNumber table.now.trees t }
    ensures { OnOk result (out.new.items ≡ out.old.items ++ word (numbers_in table.now)
        (place_in whole.entry.ty.now at binders.now) t.entry.ty.now) }
{
    let ty = t.ty;
    match &ty.form {
        TyForm::Skip => Ok(()),
        TyForm::Send(base) => add_name(out, table, Label::Send(*base)),
        TyForm::Receive(base) => add_name(out, table, Label::Receive(*base)),
        TyForm::Close => add_name(out, table, Label::Close),
        TyForm::Wait => add_name(out, table, Label::Wait),
        TyForm::Var(k) => add_name(out, table, Label::Var(*k)),
        TyForm::Back(k) => add(out, table.node(whole, binder_at(binders, *k))),
        TyForm::Select(_) => add(out, table.number(whole, at, t)),
        TyForm::Offer(_) => add(out, table.number(whole, at, t)),
        TyForm::Seq(first, second) => {
            let first = first_part(&table.trees, t, first);
            let after = at + (1 + counts(&table.trees, first).nodes);
            push_word(out, table, binders, whole, at + 1, first)?;
            let second = second_part(&table.trees, t, second);
            push_word(out, table, binders, whole, after, second)
        }
        TyForm::Rec(body) => {
            let body = first_part(&table.trees, t, body);
            if counts(&table.trees, body).terminated {
                Ok(())
            } else {
                add(out, table.number(whole, at, t))
            }
        }
        TyForm::Plain(_) => Ok(()),
        TyForm::Arrow(_, _, _) => Ok(()),
        TyForm::Pair(_, _) => Ok(()),
        TyForm::Named(_) => Ok(()),
    }
}

/// The word of a part at its place.
pub(crate) fn word_of(
    alloc: Global,
    table: &Table<'_>,
    binders: &[u32],
    whole: Numbered<'_>,
    at: u32,
    t: Numbered<'_>,
) -> Result<Word, AllocError>
    requires table { IsTable table.now }
    requires fits { at + nodes t.ty.now < 2 ^ 31 }
    requires whole { HasNumber table.now.trees whole }
    requires part { HasNumber table.now.trees t }
    ensures { IfOk result (λ w. w ≡ word (numbers_in table.now)
        (place_in whole.entry.ty.now at binders.now) t.entry.ty.now) }
{
    let mut out = Vec::new(alloc);
    push_word(&mut out, table, binders, whole, at, t)?;
    Word::of(alloc, &out)
}

/// The word of a whole type.
pub(crate) fn whole_word(
    alloc: Global,
    table: &Table<'_>,
    t: Numbered<'_>,
) -> Result<Word, AllocError>
    requires table { IsTable table.now }
    requires fits { nodes t.ty.now < 2 ^ 31 }
    requires whole { HasNumber table.now.trees t }
    ensures { IfOk result (λ w. w ≡ word (numbers_in table.now)
        (top_of t.entry.ty.now) t.entry.ty.now) }
{
    word_of(alloc, table, &[], t, 0, t)
}
