//! The texts of terms that have no term in them.

ghost use Rattle.std.specs.Prelude.{◌++◌};
ghost use Rattle.fst_terms.specs.TermTree as tree;
ghost use Rattle.fst_base.specs.Gains.{Gains};
ghost use Rattle.fst_print.specs.ModuleTexts.{applied_text, names_text, term_text};

use fst_terms::Binder;
use fst_type_print::push_atom;
use fst_types::{Name, Written};
use std::alloc::AllocError;

/// Names with a space before each.
pub(crate) fn push_names(text: &mut String, names: &[Binder]) -> Result<(), AllocError>
    ensures { Gains result text.old text.new (names_text names.now) }
{
    for binder in names {
        text.push_str(" ")?;
        text.push_str(binder.name.as_str())?;
    }
    Ok(())
}

fn push_applied(text: &mut String, types: &[Written]) -> Result<(), AllocError>
    ensures { Gains result text.old text.new (applied_text types.now) }
{
    for t in types {
        text.push_str(" @")?;
        push_atom(text, t)?;
    }
    Ok(())
}

pub(crate) fn push_named(
    text: &mut String,
    name: &Name,
    types: &[Written],
) -> Result<(), AllocError>
    ensures { Gains result text.old text.new (name.now ++ applied_text types.now) }
{
    text.push_str(name.as_str())?;
    push_applied(text, types)
}

pub(crate) fn push_new(text: &mut String, t: &Written) -> Result<(), AllocError>
    ensures { Gains result text.old text.new (term_text (tree.new 0 t.now)) }
{
    text.push_str("new ")?;
    push_atom(text, t)
}
