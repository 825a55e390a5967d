ghost use Rattle.std.specs.Prelude.{◌≡◌, ◌≤◌, ◌++◌, IfOk, codes, length, suc};
ghost use Rattle.std.specs.String.{string_bytes};
ghost use Rattle.fst_types.specs.Scoped.{AllScoped, IsScoped};
ghost use Rattle.fst_types.specs.Tree as tree;
ghost use Rattle.fst_types.specs.ModelView.{branches_of};
ghost use Rattle.fst_base.specs.Gains.{Gains};
ghost use Rattle.fst_types.specs.Named.{AllNamedWithin, IsNamedWithin};
ghost use Rattle.fst_type_print.specs.Texts.{arrow_text, binder_text, branch_texts, family_names, in_braces, in_parens_before_arrow, in_parens_before_semicolon, in_parens_if, joined_text, separated_text, text_under, type_text};

use crate::pieces::{base_text, push_receive, push_send, push_variable};
use fst_base::push_number;
use fst_types::{Branch, Family, Ty, TyForm, Use};
use std::alloc::{AllocError, Global};

/// A type as text, its recursion variables numbered by how deep their binders stand.
///
/// A data type is written by the name of its family.
pub fn type_text(alloc: Global, t: &Ty, families: &[Family]) -> Result<String, AllocError>
    requires scoped { IsScoped 0 t.now }
    requires named { IsNamedWithin (length families.now) t.now }
    ensures { IfOk result (λ text. string_bytes text ≡ type_text
        (family_names families.now) t.now) }
{
    let mut text = String::new(alloc);
    push_type(&mut text, t, 0, families)?;
    Ok(text)
}

fn in_parens_before_semicolon(t: &Ty) -> bool
    ensures { result ≡ in_parens_before_semicolon t.now }
{
    match &t.form {
        TyForm::Seq(_, _) | TyForm::Rec(_) => true,
        TyForm::Skip | TyForm::Send(_) | TyForm::Receive(_) | TyForm::Close | TyForm::Wait => false,
        TyForm::Select(_) | TyForm::Offer(_) | TyForm::Back(_) | TyForm::Var(_) => false,
        TyForm::Plain(_) | TyForm::Arrow(_, _, _) | TyForm::Pair(_, _) | TyForm::Named(_) => false,
    }
}

fn in_parens_before_arrow(t: &Ty) -> bool
    ensures { result ≡ in_parens_before_arrow t.now }
{
    match &t.form {
        TyForm::Arrow(_, _, _) => true,
        TyForm::Skip | TyForm::Send(_) | TyForm::Receive(_) | TyForm::Close | TyForm::Wait => false,
        TyForm::Select(_) | TyForm::Offer(_) | TyForm::Seq(_, _) | TyForm::Rec(_) => false,
        TyForm::Back(_) | TyForm::Var(_) | TyForm::Plain(_) => false,
        TyForm::Pair(_, _) | TyForm::Named(_) => false,
    }
}

pub fn arrow_text(uses: Use) -> &'static str
    ensures { result.now ≡ arrow_text uses }
{
    match uses {
        Use::Many => " -> ",
        Use::Once => " 1-> ",
    }
}

// The variable of a binder under so many others, of which each has been written.
fn push_binder(text: &mut String, outer: usize) -> Result<(), AllocError>
    requires { outer ≤ length (string_bytes text.old) }
    ensures { Gains result text.old text.new (binder_text outer) }
{
    text.push_str("x")?;
    push_number(text, outer + 1)
}

// A type under so many binders, of which each has been written.
#[cycle(types)]
fn push_type(text: &mut String, t: &Ty, depth: usize, families: &[Family]) -> Result<(), AllocError>
    requires scoped { IsScoped depth t.now }
    requires named { IsNamedWithin (length families.now) t.now }
    requires written { depth ≤ length (string_bytes text.old) }
    ensures { Gains result text.old text.new (text_under (family_names families.now) depth t.now) }
{
    match &t.form {
        TyForm::Skip => text.push_str("Skip"),
        TyForm::Send(base) => push_send(text, *base),
        TyForm::Receive(base) => push_receive(text, *base),
        TyForm::Close => text.push_str("Close"),
        TyForm::Wait => text.push_str("Wait"),
        TyForm::Select(branches) => push_choice(text, "+", branches, depth, families),
        TyForm::Offer(branches) => push_choice(text, "&", branches, depth, families),
        TyForm::Seq(first, second) => {
            let in_parens = in_parens_before_semicolon(first);
            push_enclosed(text, first, in_parens, depth, families)?;
            text.push_str(";")?;
            push_type(text, second, depth, families)
        }
        TyForm::Rec(body) => push_rec(text, body, depth, families),
        TyForm::Back(k) => push_binder(text, depth - 1 - *k as usize),
        TyForm::Var(k) => push_variable(text, u64::from(*k)),
        TyForm::Plain(base) => text.push_str(base_text(*base)),
        TyForm::Arrow(uses, from, to) => {
            let in_parens = in_parens_before_arrow(from);
            push_enclosed(text, from, in_parens, depth, families)?;
            text.push_str(arrow_text(*uses))?;
            push_type(text, to, depth, families)
        }
        TyForm::Pair(first, second) => push_pair(text, first, second, depth, families),
        TyForm::Named(k) => text.push_str(families[*k as usize].name.as_str()),
    }
}

/// A type, in parentheses where they are asked for.
#[cycle(types)]
pub(crate) fn push_enclosed(
    text: &mut String,
    t: &Ty,
    in_parens: bool,
    depth: usize,
    families: &[Family],
) -> Result<(), AllocError>
    requires scoped { IsScoped depth t.now }
    requires named { IsNamedWithin (length families.now) t.now }
    requires written { depth ≤ length (string_bytes text.old) }
    ensures { Gains result text.old text.new
        (in_parens_if in_parens (text_under (family_names families.now) depth t.now)) }
{
    if !in_parens {
        return push_type(text, t, depth, families);
    }
    text.push_str("(")?;
    push_type(text, t, depth, families)?;
    text.push_str(")")
}

#[cycle(types)]
fn push_rec(
    text: &mut String,
    body: &Ty,
    depth: usize,
    families: &[Family],
) -> Result<(), AllocError>
    requires scoped { IsScoped (suc depth) body.now }
    requires named { IsNamedWithin (length families.now) body.now }
    requires written { depth ≤ length (string_bytes text.old) }
    ensures { Gains result text.old text.new
        (text_under (family_names families.now) depth (tree.rec body.now)) }
{
    text.push_str("rec ")?;
    push_binder(text, depth)?;
    text.push_str(". ")?;
    push_type(text, body, depth + 1, families)
}

#[cycle(types)]
#[tactic(auto, using(crate::proofs::Appended::longer))]
fn push_pair(
    text: &mut String,
    first: &Ty,
    second: &Ty,
    depth: usize,
    families: &[Family],
) -> Result<(), AllocError>
    requires scoped { IsScoped depth first.now × IsScoped depth second.now }
    requires named { IsNamedWithin (length families.now) first.now ×
        IsNamedWithin (length families.now) second.now }
    requires written { depth ≤ length (string_bytes text.old) }
    ensures { Gains result text.old text.new
        (text_under (family_names families.now) depth (tree.pair first.now second.now)) }
{
    text.push_str("(")?;
    push_type(text, first, depth, families)?;
    text.push_str(", ")?;
    push_type(text, second, depth, families)?;
    text.push_str(")")
}

// A choice, whose sign says which side makes it.
#[cycle(types)]
fn push_choice(
    text: &mut String,
    sign: &str,
    branches: &[Branch],
    depth: usize,
    families: &[Family],
) -> Result<(), AllocError>
    requires scoped { AllScoped depth (branches_of branches.now) }
    requires named { AllNamedWithin (length families.now) (branches_of branches.now) }
    requires written { depth ≤ length (string_bytes text.old) }
    ensures { Gains result text.old text.new
        (sign.now ++ in_braces (joined_text (codes ", ")
        (branch_texts (family_names families.now) depth (branches_of branches.now)))) }
{
    text.push_str(sign)?;
    text.push_str("{")?;
    push_branches(text, branches, depth, families)?;
    text.push_str("}")
}

#[cycle(types)]
fn push_branch(
    text: &mut String,
    branch: &Branch,
    depth: usize,
    families: &[Family],
) -> Result<(), AllocError>
    requires scoped { IsScoped depth branch.now.body }
    requires named { IsNamedWithin (length families.now) branch.now.body }
    requires written { depth ≤ length (string_bytes text.old) }
    ensures { Gains result text.old text.new
        (branch.now.label ++ codes ": " ++ text_under
        (family_names families.now) depth branch.now.body) }
{
    text.push_str(branch.label.as_str())?;
    text.push_str(": ")?;
    push_type(text, &branch.body, depth, families)
}

#[cycle(types)]
fn push_branches(
    text: &mut String,
    branches: &[Branch],
    depth: usize,
    families: &[Family],
) -> Result<(), AllocError>
    requires scoped { AllScoped depth (branches_of branches.now) }
    requires named { AllNamedWithin (length families.now) (branches_of branches.now) }
    requires written { depth ≤ length (string_bytes text.old) }
    ensures { Gains result text.old text.new
        (joined_text (codes ", ") (branch_texts (family_names families.now) depth
        (branches_of branches.now))) }
{
    let [first, others @ ..] = branches else {
        return Ok(());
    };
    push_branch(text, first, depth, families)?;
    push_others(text, others, depth, families)
}

#[cycle(types)]
#[tactic(auto, using(crate::proofs::BranchLaws::each_branch))]
fn push_others(
    text: &mut String,
    others: &[Branch],
    depth: usize,
    families: &[Family],
) -> Result<(), AllocError>
    requires scoped { AllScoped depth (branches_of others.now) }
    requires named { AllNamedWithin (length families.now) (branches_of others.now) }
    requires written { depth ≤ length (string_bytes text.old) }
    ensures { Gains result text.old text.new
        (separated_text (codes ", ") (branch_texts (family_names families.now) depth
        (branches_of others.now))) }
{
    for branch in others {
        text.push_str(", ")?;
        push_branch(text, branch, depth, families)?;
    }
    Ok(())
}
