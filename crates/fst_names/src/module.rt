ghost use Rattle.std.specs.Prelude.{◌≡◌, ◌<◌, List, IfOk, map};
ghost use Rattle.fst_terms.specs.Count.{module_count, part_limit};
ghost use Rattle.fst_terms.specs.ModuleTree.{Declared, decl_tree};
ghost use Rattle.fst_names.specs.Faultless.{IsFaultless};
ghost use Rattle.fst_names.specs.ResolvedModule.{IsResolvedModule};

use crate::globals::add_globals;
use crate::parts::{Parts, parts_of};
use crate::trees::trees_of;
use fst_declarations::Declarations;
use fst_term_names::TypeList;
use fst_terms::{Decl, Module};
use std::alloc::{AllocError, Global};

/// The module that declarations without faults stand for.
pub(crate) fn module_of(
    alloc: Global,
    decls: &[Decl],
    declarations: &Declarations<'_>,
) -> Result<Module, AllocError>
    ghost ds: { List Declared }
    requires same { map decl_tree decls.now ≡ ds }
    requires whole { IsFaultless ds declarations.now }
    requires few { module_count ds < part_limit }
    ensures { IfOk result (IsResolvedModule ds) }
{
    let trees = trees_of(alloc, declarations)?;
    let Parts {
        mut list,
        families,
        signatures,
        equations,
    } = parts_of(alloc, decls, declarations, &trees)?;
    let globals = add_globals(alloc, equations, declarations, &signatures, &mut list)?;
    let TypeList { types, places } = list;
    Ok(Module {
        families,
        globals,
        types,
        places,
    })
}
