ghost use Rattle.std.specs.Prelude.{◌≡◌, List, IfOk, OnOk, map, option_map};
ghost use Rattle.fst_terms.specs.ModuleTree.{Declared, decl_tree};
ghost use Rattle.fst_scopes.specs.First.{first_from};
ghost use Rattle.fst_scopes.specs.Twice.{twice};
ghost use Rattle.fst_declarations.specs.Collected.{AreTermTables, AreTypeTables, twice_for_terms};
ghost use Rattle.fst_declarations.specs.Declarations.{AreDeclarations, IsScopeFor};
ghost use Rattle.fst_declarations.specs.ModuleFaults.{signed, twice_declared};
ghost use Rattle.fst_declarations.specs.ModuleNames.{type_names};

use crate::declarations::Declarations;
use crate::entries::TermTables;
use crate::scopes::{SignatureScope, scopes_of};
use crate::tables::{equations_of, globals_of, makers_of, signatures_of, types_of};
use fst_scopes::{Aliases, NameFault, NameTable, TypeNames, aliases_of};
use fst_terms::Decl;
use fst_types::Name;
use std::alloc::{AllocError, Global};

/// How many names of types have a number.
const MOST_NAMES: usize = 4_294_967_296;

// The types that a module declares, and what is known of the aliases among them; notes each name that is declared a second
// time. Want of memory comes where there are more names of types than 32 bits have numbers.
fn type_tables<'a>(
    alloc: Global,
    decls: &'a [Decl],
    least: &mut Option<NameFault>,
) -> Result<(TypeNames<'a>, Aliases), AllocError>
    ensures tables { IfOk result (λ t. AreTypeTables (map decl_tree decls.now) t.0 t.1) }
    ensures twice { OnOk result
        (least.new ≡ first_from least.old (twice (type_names (map decl_tree decls.now)))) }
{
    let types = types_of(alloc, decls, least)?;
    if types.names.len() > MOST_NAMES {
        return Err(AllocError);
    }
    let aliases = aliases_of(alloc, &types)?;
    Ok((types, aliases))
}

// What a module declares for terms; notes each name that is declared a second time.
fn term_tables<'a>(
    alloc: Global,
    decls: &'a [Decl],
    least: &mut Option<NameFault>,
) -> Result<TermTables<'a>, AllocError>
    ensures tables { IfOk result (AreTermTables (map decl_tree decls.now)) }
    ensures twice { OnOk result
        (least.new ≡ first_from least.old (twice_for_terms (map decl_tree decls.now))) }
{
    let makers = makers_of(alloc, decls, least)?;
    let signatures = signatures_of(alloc, decls, least)?;
    let equations = equations_of(alloc, decls, least)?;
    let globals = globals_of(alloc, decls)?;
    Ok(TermTables {
        makers,
        signatures,
        equations,
        globals,
    })
}

/// What a module declares; notes each name that is declared a second time. Want of memory comes where there are more names
/// of types than 32 bits have numbers.
pub fn declarations_of<'a>(
    alloc: Global,
    decls: &'a [Decl],
    least: &mut Option<NameFault>,
) -> Result<Declarations<'a>, AllocError>
    ensures declarations { IfOk result (AreDeclarations (map decl_tree decls.now)) }
    ensures twice { OnOk result (least.new ≡ first_from least.old
        (twice_declared (map decl_tree decls.now))) }
{
    let (types, aliases) = type_tables(alloc, decls, least)?;
    let TermTables {
        makers,
        signatures,
        equations,
        globals,
    } = term_tables(alloc, decls, least)?;
    let scopes = scopes_of(alloc, &signatures, &types, &aliases.measures)?;
    Ok(Declarations {
        types,
        makers,
        signatures,
        equations,
        globals,
        no_vars: NameTable::new(alloc),
        aliases,
        scopes,
    })
}

/// What is kept of the signature of a name.
pub fn scope_for<'a>(declarations: &'a Declarations<'_>, name: &Name) -> Option<&'a SignatureScope>
    ensures { (ds : List Declared) → AreDeclarations ds declarations.now →
        IsScopeFor declarations.now (signed ds name.now) (option_map (λ s. s.now) result) }
{
    let k = declarations.signatures.names.number_of(name)?;
    Some(&declarations.scopes[k])
}
