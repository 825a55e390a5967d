ghost use Rattle.std.specs.Prelude.{◌≡◌, [], List, OnOk, Option, Some, map, min, option_map};
ghost use Rattle.fst_types.specs.Tree.{Tree};
ghost use Rattle.fst_terms.specs.ModuleTree.{Declared, decl_tree, maker, signature, equation};
ghost use Rattle.fst_scopes.specs.declared.fault.NameFault.TheVariants.{Unbound};
ghost use Rattle.fst_scopes.specs.Faults.{type_faults};
ghost use Rattle.fst_scopes.specs.First.{first_from};
ghost use Rattle.fst_scopes.specs.Measures.{arrows, ceiling};
ghost use Rattle.fst_scopes.specs.Twice.{AreNames};
ghost use Rattle.fst_term_faults.specs.TermFaults.{types_faults};
ghost use Rattle.fst_declarations.specs.Declarations.{AreDeclarations, known_in};
ghost use Rattle.fst_declarations.specs.ModuleFaults.{alone, decl_faults, decls_faults, fields_faults, looped, module_scope, more_parameters};

use crate::collect::scope_for;
use crate::declarations::Declarations;
use fst_scopes::{NameFault, NameTable, Names, note, note_type, variables_of};
use fst_term_faults::{Surroundings, note_body};
use fst_terms::{Binder, Decl, SourceMaker, SourceTerm};
use fst_types::{Kind, Written};
use std::alloc::{AllocError, Global};

// Notes a name that is declared in one way, but not in the other.
fn note_alone(
    alloc: Global,
    binder: &Binder,
    others: &NameTable,
    least: &mut Option<NameFault>,
) -> Result<(), AllocError>
    ensures { (bs : List Binder) → AreNames bs others.now →
        OnOk result (least.new ≡ first_from least.old (alone bs binder.now)) }
{
    if others.number_of(&binder.name).is_none() {
        note(
            least,
            NameFault::Unbound(binder.at, binder.name.copy(alloc)?),
        );
    }
    Ok(())
}

// Notes an equation that has more parameters than arrows stand in its signature's type.
fn note_parameters(at: u32, got: usize, counted: Option<u64>, least: &mut Option<NameFault>)
    ensures { (t : Option Tree) → counted ≡ option_map (λ t. min (arrows t) ceiling) t →
        least.new ≡ first_from least.old (more_parameters at got t) }
{
    let got = got as u64;
    if let Some(wanted) = counted {
        if wanted < got {
            note(least, NameFault::Arity(at, got, wanted));
        }
    }
}

// Notes an alias that leads back to itself.
fn note_looped(
    alloc: Global,
    binder: &Binder,
    declarations: &Declarations<'_>,
    least: &mut Option<NameFault>,
) -> Result<(), AllocError>
    ensures { OnOk result
        (least.new ≡ first_from least.old (looped (known_in declarations.now) binder.now)) }
{
    if let Some(k) = declarations.types.names.number_of(&binder.name) {
        if declarations.aliases.looped[k] {
            note(
                least,
                NameFault::AliasLoop(binder.at, binder.name.copy(alloc)?),
            );
        }
    }
    Ok(())
}

// Notes the faults of a type without variables.
fn note_closed(
    alloc: Global,
    w: &Written,
    declarations: &Declarations<'_>,
    least: &mut Option<NameFault>,
) -> Result<(), AllocError>
    ensures { (ds : List Declared) → AreDeclarations ds declarations.now → OnOk result
        (least.new ≡ first_from least.old
        (type_faults (module_scope ds (known_in declarations.now) []) w.now)) }
{
    let names = Names::Outermost(&declarations.no_vars, &declarations.types);
    note_type(alloc, w, &names, &declarations.aliases.measures, least)
}

// Notes the faults of a constructor's fields.
fn note_fields(
    alloc: Global,
    fields: &[Written],
    declarations: &Declarations<'_>,
    least: &mut Option<NameFault>,
) -> Result<(), AllocError>
    ensures { (ds : List Declared) → AreDeclarations ds declarations.now → OnOk result
        (least.new ≡ first_from least.old
        (types_faults (module_scope ds (known_in declarations.now) []) fields.now)) }
{
    for w in fields {
        note_closed(alloc, w, declarations, least)?;
    }
    Ok(())
}

// Notes the faults of constructors.
fn note_makers(
    alloc: Global,
    makers: &[SourceMaker],
    declarations: &Declarations<'_>,
    least: &mut Option<NameFault>,
) -> Result<(), AllocError>
    ensures { (ds : List Declared) → AreDeclarations ds declarations.now → OnOk result
        (least.new ≡ first_from least.old
        (fields_faults (module_scope ds (known_in declarations.now) []) (map maker makers.now))) }
{
    for maker in makers {
        note_fields(alloc, &maker.fields, declarations, least)?;
    }
    Ok(())
}

// Notes the faults of a signature.
fn note_signature(
    alloc: Global,
    binder: &Binder,
    variables: &[(Binder, Kind)],
    w: &Written,
    declarations: &Declarations<'_>,
    least: &mut Option<NameFault>,
) -> Result<(), AllocError>
    ensures { (ds : List Declared) → AreDeclarations ds declarations.now → OnOk result
        (least.new ≡ first_from least.old
        (decl_faults ds (known_in declarations.now) (signature binder.now variables.now w.now))) }
{
    note_alone(alloc, binder, &declarations.equations, least)?;
    let vars = variables_of(alloc, variables, least)?;
    let names = Names::Outermost(&vars, &declarations.types);
    note_type(alloc, w, &names, &declarations.aliases.measures, least)?;
    Ok(())
}

// Notes the faults of an equation.
fn note_equation(
    alloc: Global,
    binder: &Binder,
    parameters: &[Binder],
    body: &SourceTerm,
    declarations: &Declarations<'_>,
    least: &mut Option<NameFault>,
) -> Result<(), AllocError>
    ensures { (ds : List Declared) → AreDeclarations ds declarations.now → OnOk result
        (least.new ≡ first_from least.old
        (decl_faults ds (known_in declarations.now)
        (equation binder.now parameters.now body.now))) }
{
    note_alone(alloc, binder, &declarations.signatures.names, least)?;
    let mut vars = &declarations.no_vars;
    if let Some(scope) = scope_for(declarations, &binder.name) {
        note_parameters(binder.at, parameters.len(), scope.arrows, least);
        vars = &scope.vars;
    }
    let around = Surroundings {
        globals: &declarations.globals,
        makers: &declarations.makers,
        vars,
        no_vars: &declarations.no_vars,
        types: &declarations.types,
        aliases: &declarations.aliases,
    };
    note_body(alloc, parameters, body, &around, least)?;
    Ok(())
}

// Notes the faults of one declaration.
fn note_decl(
    alloc: Global,
    decl: &Decl,
    declarations: &Declarations<'_>,
    least: &mut Option<NameFault>,
) -> Result<(), AllocError>
    ensures { (ds : List Declared) → AreDeclarations ds declarations.now → OnOk result
        (least.new ≡ first_from least.old
        (decl_faults ds (known_in declarations.now) (decl_tree decl.now))) }
{
    match decl {
        Decl::Family(_, makers) => note_makers(alloc, makers, declarations, least),
        Decl::Alias(binder, w) => {
            note_looped(alloc, binder, declarations, least)?;
            note_closed(alloc, w, declarations, least)
        }
        Decl::Signature(binder, variables, w) => {
            note_signature(alloc, binder, variables, w, declarations, least)
        }
        Decl::Equation(binder, parameters, body) => {
            note_equation(alloc, binder, parameters, body, declarations, least)
        }
    }
}

/// Notes the faults of some declarations, but for names that are declared a second time.
pub fn note_decls(
    alloc: Global,
    decls: &[Decl],
    declarations: &Declarations<'_>,
    least: &mut Option<NameFault>,
) -> Result<(), AllocError>
    ensures { (ds : List Declared) → AreDeclarations ds declarations.now → OnOk result
        (least.new ≡ first_from least.old
        (decls_faults ds (known_in declarations.now) (map decl_tree decls.now))) }
{
    for decl in decls {
        note_decl(alloc, decl, declarations, least)?;
    }
    Ok(())
}
