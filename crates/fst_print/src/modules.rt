ghost use Rattle.std.specs.Prelude.{◌≡◌, ◌++◌, IfOk, codes, map};
ghost use Rattle.std.specs.List.{flat_map};
ghost use Rattle.std.specs.String.{string_bytes};
ghost use Rattle.fst_terms.specs.ModuleTree as tree;
ghost use Rattle.fst_terms.specs.ModuleTree.{decl_tree, maker};
ghost use Rattle.fst_terms.specs.ModuleView.{declarations};
ghost use Rattle.fst_base.specs.Gains.{Gains};
ghost use Rattle.fst_type_print.specs.WrittenTexts.{atom_text};
ghost use Rattle.fst_print.specs.ModuleTexts.{binder_kind_text, binders_text, decl_text, maker_text, module_text};
ghost use Rattle.fst_type_print.specs.Texts.{joined_text, separated_text};

use crate::atoms::push_names;
use crate::terms::push_term_text;
use fst_terms::{Binder, Decl, SourceMaker, SourceModule, SourceTerm};
use fst_type_print::{push_atom, push_kind, push_written};
use fst_types::{Kind, Written};
use std::alloc::{AllocError, Global};

fn push_fields(text: &mut String, fields: &[Written]) -> Result<(), AllocError>
    ensures { Gains result text.old text.new (flat_map (λ t. codes " " ++ atom_text t) fields.now) }
{
    for field in fields {
        text.push_str(" ")?;
        push_atom(text, field)?;
    }
    Ok(())
}

fn push_maker(text: &mut String, constructor: &SourceMaker) -> Result<(), AllocError>
    ensures { Gains result text.old text.new (maker_text (maker constructor.now)) }
{
    text.push_str(constructor.name.name.as_str())?;
    push_fields(text, &constructor.fields)
}

fn push_makers(text: &mut String, makers: &[SourceMaker]) -> Result<(), AllocError>
    ensures { Gains result text.old text.new
        (joined_text (codes " | ") (map maker_text (map maker makers.now))) }
{
    let [first, others @ ..] = makers else {
        return Ok(());
    };
    push_maker(text, first)?;
    for constructor in others {
        text.push_str(" | ")?;
        push_maker(text, constructor)?;
    }
    Ok(())
}

fn push_binder_kind(text: &mut String, binder: &Binder, kind: Kind) -> Result<(), AllocError>
    ensures { Gains result text.old text.new (binder_kind_text (binder.now, kind)) }
{
    text.push_str(binder.name.as_str())?;
    text.push_str(":")?;
    push_kind(text, kind)
}

fn push_later_binders(text: &mut String, binders: &[(Binder, Kind)]) -> Result<(), AllocError>
    ensures { Gains result text.old text.new
        (separated_text (codes ", ") (map binder_kind_text binders.now)) }
{
    for (binder, kind) in binders {
        text.push_str(", ")?;
        push_binder_kind(text, binder, *kind)?;
    }
    Ok(())
}

fn push_binders(text: &mut String, binders: &[(Binder, Kind)]) -> Result<(), AllocError>
    ensures { Gains result text.old text.new (binders_text binders.now) }
{
    let [(binder, kind), others @ ..] = binders else {
        return Ok(());
    };
    text.push_str("forall ")?;
    push_binder_kind(text, binder, *kind)?;
    push_later_binders(text, others)?;
    text.push_str(". ")
}

fn push_family(text: &mut String, name: &Binder, makers: &[SourceMaker]) -> Result<(), AllocError>
    ensures { Gains result text.old text.new
        (decl_text (tree.family name.now (map maker makers.now))) }
{
    text.push_str("data ")?;
    text.push_str(name.name.as_str())?;
    text.push_str(" = ")?;
    push_makers(text, makers)
}

fn push_alias(text: &mut String, name: &Binder, t: &Written) -> Result<(), AllocError>
    ensures { Gains result text.old text.new (decl_text (tree.alias name.now t.now)) }
{
    text.push_str("type ")?;
    text.push_str(name.name.as_str())?;
    text.push_str(" = ")?;
    push_written(text, t)
}

fn push_signature(
    text: &mut String,
    name: &Binder,
    binders: &[(Binder, Kind)],
    t: &Written,
) -> Result<(), AllocError>
    ensures { Gains result text.old text.new
        (decl_text (tree.signature name.now binders.now t.now)) }
{
    text.push_str(name.name.as_str())?;
    text.push_str(" : ")?;
    push_binders(text, binders)?;
    push_written(text, t)
}

fn push_equation(
    alloc: Global,
    text: &mut String,
    name: &Binder,
    parameters: &[Binder],
    body: &SourceTerm,
) -> Result<(), AllocError>
    ensures { Gains result text.old text.new
        (decl_text (tree.equation name.now parameters.now body.now)) }
{
    text.push_str(name.name.as_str())?;
    push_names(text, parameters)?;
    text.push_str(" = ")?;
    push_term_text(alloc, text, body)
}

fn push_decl(alloc: Global, text: &mut String, decl: &Decl) -> Result<(), AllocError>
    ensures { Gains result text.old text.new (decl_text (decl_tree decl.now)) }
{
    match decl {
        Decl::Family(name, makers) => push_family(text, name, makers),
        Decl::Alias(name, t) => push_alias(text, name, t),
        Decl::Signature(name, binders, t) => push_signature(text, name, binders, t),
        Decl::Equation(name, parameters, body) => {
            push_equation(alloc, text, name, parameters, body)
        }
    }
}

fn push_decls(alloc: Global, text: &mut String, decls: &[Decl]) -> Result<(), AllocError>
    ensures { Gains result text.old text.new (module_text (map decl_tree decls.now)) }
{
    for decl in decls {
        push_decl(alloc, text, decl)?;
        text.push_str("\n")?;
    }
    Ok(())
}

/// The canonical text of a module, one declaration a line.
pub fn module_text(alloc: Global, m: &SourceModule) -> Result<String, AllocError>
    ensures { IfOk result (λ text. string_bytes text ≡ module_text (declarations m.now)) }
{
    let mut text = String::new(alloc);
    push_decls(alloc, &mut text, &m.decls)?;
    Ok(text)
}
