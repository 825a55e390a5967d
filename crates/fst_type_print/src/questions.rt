ghost use Rattle.std.specs.Prelude.{◌≡◌, ◌∷◌, IfOk, codes};
ghost use Rattle.std.specs.String.{string_bytes};
ghost use Rattle.fst_types.specs.Named.{IsNamedWithin};
ghost use Rattle.fst_types.specs.Scoped.{IsScoped};
ghost use Rattle.fst_base.specs.Gains.{Gains};
ghost use Rattle.fst_type_print.specs.Texts.{forall_text, kinded_text, question_text, separated_text, variables_text};

use crate::pieces::push_variable;
use crate::refusals::push_kind;
use crate::types::push_enclosed;
use fst_types::{Kind, Ty};
use std::alloc::{AllocError, Global};

fn push_kinded(text: &mut String, k: usize, kind: Kind) -> Result<(), AllocError>
    ensures { Gains result text.old text.new (kinded_text k kind) }
{
    push_variable(text, k as u64)?;
    text.push_str(":")?;
    push_kind(text, kind)
}

// The variables from the second one on.
fn push_others(text: &mut String, others: &[Kind]) -> Result<(), AllocError>
    ensures { Gains result text.old text.new
        (separated_text (codes ", ") (variables_text 1 others.now)) }
{
    for k in 0..others.len() {
        text.push_str(", ")?;
        push_kinded(text, k + 1, others[k])?;
    }
    Ok(())
}

fn push_forall(text: &mut String, kinds: &[Kind]) -> Result<(), AllocError>
    ensures { Gains result text.old text.new (forall_text kinds.now) }
{
    let [first, others @ ..] = kinds else {
        return Ok(());
    };
    text.push_str("forall ")?;
    push_kinded(text, 0, *first)?;
    push_others(text, others)?;
    text.push_str(". ")
}

/// A question as text: whether two types over variables of these kinds are equivalent.
pub fn question_text(
    alloc: Global,
    kinds: &[Kind],
    left: &Ty,
    right: &Ty,
) -> Result<String, AllocError>
    requires scoped { IsScoped 0 left.now × IsScoped 0 right.now }
    requires named { IsNamedWithin 0 left.now × IsNamedWithin 0 right.now }
    ensures { IfOk result (λ text. string_bytes text ≡ question_text kinds.now left.now right.now) }
{
    let mut text = String::new(alloc);
    push_forall(&mut text, kinds)?;
    push_enclosed(&mut text, left, false, 0, &[])?;
    text.push_str(" ~ ")?;
    push_enclosed(&mut text, right, false, 0, &[])?;
    Ok(text)
}
