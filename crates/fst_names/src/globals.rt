ghost use Rattle.std.specs.Prelude.{◌≡◌, List, Some, IfOk, OnOk, length, map};
ghost use Rattle.fst_terms.specs.ModuleTree.{Declared};
ghost use Rattle.fst_declarations.specs.Declarations.{known_in};
ghost use Rattle.fst_names.specs.Faultless.{IsFaultless};
ghost use Rattle.fst_names.specs.Modules.{decls_types, equations_from, global_parts, module_globals, parameters_types, signature_numbers};
ghost use Rattle.fst_names.specs.Parts.{HasTypes, IsLonger, IsSoundEquation, equation_part, global_from, numbered, types_of_parameters};

use crate::functions::add_functions;
use crate::parts::EquationPart;
use crate::question::kinds_of;
use fst_declarations::Declarations;
use fst_scopes::place;
use fst_term_names::TypeList;
use fst_terms::GlobalEntry;
use fst_types::copy;
use std::alloc::{AllocError, Global};

// A global, by its equation and its signature; puts the types of its parameters behind the others.
fn add_global(
    alloc: Global,
    part: EquationPart<'_>,
    declarations: &Declarations<'_>,
    signatures: &[u32],
    list: &mut TypeList,
) -> Result<GlobalEntry, AllocError>
    ghost ds: { List Declared }
    requires whole { IsFaultless ds declarations.now }
    requires sound { IsSoundEquation ds (known_in declarations.now) (equation_part part) }
    requires signatures { signatures.now ≡ signature_numbers 0 ds }
    requires types { HasTypes ds (known_in declarations.now) list.old }
    ensures global { IfOk result (λ g. global_parts g ≡ global_from ds
        (known_in declarations.now) (length list.old.types.items) (equation_part part.entry)) }
    ensures list { OnOk result (IsLonger list.old
        (types_of_parameters ds (known_in declarations.now) (equation_part part.entry)) list.new) }
{
    let EquationPart {
        binder,
        parameters,
        body,
    } = part;
    match declarations.signatures.names.number_of(&binder.name) {
        None => unreachable!(),
        Some(k) => {
            let entry = &declarations.signatures.entries[k];
            let kinds = kinds_of(alloc, entry.binders)?;
            let signature = signatures[k];
            let signature_at = place(entry.its_type);
            let its_type = copy(alloc, &list.types[signature as usize])?;
            let body = add_functions(alloc, signature_at, parameters, &its_type, body, list)?;
            Ok(GlobalEntry {
                name: binder.name.copy(alloc)?,
                at: binder.at,
                kinds,
                signature,
                signature_at,
                body: Box::into_inner(body),
            })
        }
    }
}

/// The globals of a module without faults, in order of their equations; puts the types of their parameters behind the others.
pub(crate) fn add_globals(
    alloc: Global,
    parts: Vec<EquationPart<'_>>,
    declarations: &Declarations<'_>,
    signatures: &[u32],
    list: &mut TypeList,
) -> Result<Vec<GlobalEntry>, AllocError>
    ghost ds: { List Declared }
    requires whole { IsFaultless ds declarations.now }
    requires parts { map equation_part parts.items ≡ map (numbered ds) (equations_from 0 ds) }
    requires signatures { signatures.now ≡ signature_numbers 0 ds }
    requires types { map Some list.old.types.items ≡
        map (λ t. t.stands) (decls_types ds (known_in declarations.now) ds) }
    ensures globals { IfOk result (λ gs. map global_parts gs.items ≡
        module_globals ds (known_in declarations.now)) }
    ensures list { OnOk result (IsLonger list.old
        (parameters_types ds (known_in declarations.now) (equations_from 0 ds)) list.new) }
{
    let mut globals = Vec::new(alloc);
    for part in parts {
        globals.push(add_global(alloc, part, declarations, signatures, list)?)?;
    }
    Ok(globals)
}
