ghost use Rattle.std.specs.Prelude.{◌≡◌, ◌≤◌, ◌++◌, [], IfOk, OnOk, length};
ghost use Rattle.fst_types.specs.ModelView.{branches_of};
ghost use Rattle.fst_base.specs.Order.{IsRising};
ghost use Rattle.fst_parts.specs.Labels.{labels_in, branch_labels, is_name as names_itself, names, label_position};
ghost use Rattle.fst_parts.specs.Letters.{with_label, with_labels, IsPlaceFor};
ghost use Rattle.fst_parts.specs.Views.{branch_label};
ghost use Rattle.fst_types.specs.Order.{label_cmp};

use fst_types::{Branch, Label, Name, Ty, TyForm};
use std::alloc::{AllocError, Global};

/// The labels of two types, each once, in label order.
#[tactic(auto, using(crate::proofs::LabelLaws::inserted_append))]
pub fn letters_of(alloc: Global, s: &Ty, r: &Ty) -> Result<Vec<Label>, AllocError>
    ensures letters { IfOk result (λ l. l.items ≡ with_labels []
        (labels_in s.now ++ labels_in r.now)) }
    ensures rising { IfOk result (λ l. IsRising label_cmp l.items) }
{
    let mut letters = Vec::new(alloc);
    add_labels(alloc, &mut letters, s)?;
    add_labels(alloc, &mut letters, r)?;
    Ok(letters)
}

/// Adds the labels of a type to labels in order.
#[cycle(labels)]
#[tactic(auto, using(crate::proofs::LabelLaws::inserted_append))]
fn add_labels(alloc: Global, letters: &mut Vec<Label>, t: &Ty) -> Result<(), AllocError>
    requires { IsRising label_cmp letters.old.items }
    ensures letters { OnOk result (letters.new.items ≡ with_labels letters.old.items
        (labels_in t.now)) }
    ensures rising { OnOk result (IsRising label_cmp letters.new.items) }
{
    match &t.form {
        TyForm::Skip => Ok(()),
        TyForm::Send(base) => insert(letters, Label::Send(*base)),
        TyForm::Receive(base) => insert(letters, Label::Receive(*base)),
        TyForm::Close => insert(letters, Label::Close),
        TyForm::Wait => insert(letters, Label::Wait),
        TyForm::Var(k) => insert(letters, Label::Var(*k)),
        TyForm::Select(branches) => add_branches(alloc, letters, branches, false),
        TyForm::Offer(branches) => add_branches(alloc, letters, branches, true),
        TyForm::Seq(first, second) => {
            add_labels(alloc, letters, first)?;
            add_labels(alloc, letters, second)
        }
        TyForm::Rec(body) => add_labels(alloc, letters, body),
        TyForm::Back(_) => Ok(()),
        TyForm::Plain(_) => Ok(()),
        TyForm::Arrow(_, _, _) => Ok(()),
        TyForm::Pair(_, _) => Ok(()),
        TyForm::Named(_) => Ok(()),
    }
}

#[cycle(labels)]
#[tactic(auto, using(crate::proofs::Rulesets::labels_of_branches))]
fn add_branches(
    alloc: Global,
    letters: &mut Vec<Label>,
    branches: &[Branch],
    offers: bool,
) -> Result<(), AllocError>
    requires { IsRising label_cmp letters.old.items }
    ensures letters { OnOk result (letters.new.items ≡ with_labels letters.old.items
        (branch_labels (branch_label offers) (branches_of branches.now))) }
    ensures rising { OnOk result (IsRising label_cmp letters.new.items) }
{
    for branch in branches {
        insert(letters, choice_label(alloc, &branch.label, offers)?)?;
        add_labels(alloc, letters, &branch.body)?;
    }
    Ok(())
}

/// The label of a branch, offered or selected.
pub fn choice_label(alloc: Global, name: &Name, offers: bool) -> Result<Label, AllocError>
    ensures { IfOk result (λ a. a ≡ branch_label offers name.now) }
{
    let own = name.copy(alloc)?;
    if offers {
        Ok(Label::Offer(own))
    } else {
        Ok(Label::Select(own))
    }
}

/// The place of a label among labels in order, or else the place where it goes.
fn place_for(letters: &[Label], a: &Label) -> Result<usize, usize>
    requires { IsRising label_cmp letters.now }
    ensures { IsPlaceFor letters.now a.now result }
{
    letters.binary_search_by(|letter| letter.order(a))
}

/// Puts a label at its place among labels in order, unless it is there.
#[tactic(auto, using(crate::proofs::LabelLaws::inserted_rising))]
fn insert(letters: &mut Vec<Label>, label: Label) -> Result<(), AllocError>
    requires { IsRising label_cmp letters.old.items }
    ensures letters { OnOk result (letters.new.items ≡ with_label letters.old.items label) }
    ensures rising { OnOk result (IsRising label_cmp letters.new.items) }
{
    if let Err(i) = place_for(letters, &label) {
        letters.insert(i, label)?;
    }
    Ok(())
}

fn is_name(label: &Label) -> bool
    ensures { result ≡ names_itself label.now }
{
    match label {
        Label::Send(_) => true,
        Label::Receive(_) => true,
        Label::Select(_) => false,
        Label::Offer(_) => false,
        Label::Close => true,
        Label::Wait => true,
        Label::Var(_) => true,
    }
}

/// The labels of messages and variables, and Close and Wait, among these.
pub fn names_among(alloc: Global, letters: &[Label]) -> Result<Vec<Label>, AllocError>
    ensures { IfOk result (λ n. n.items ≡ names letters.now) }
{
    let mut found = Vec::new(alloc);
    for letter in letters {
        if is_name(letter) {
            found.push(letter.copy(alloc)?)?;
        }
    }
    Ok(found)
}

/// The place of a label among labels in order, or their number where it isn't there.
pub fn place_among(letters: &[Label], a: &Label) -> usize
    requires { IsRising label_cmp letters.now }
    ensures value { result ≡ label_position letters.now a.now }
    ensures within { result ≤ length letters.now }
{
    match place_for(letters, a) {
        Ok(i) => i,
        Err(_) => letters.len(),
    }
}
