ghost use Rattle.std.specs.Prelude.{◌≡◌, ◌≢◌, List, Some, None, IfErr, IfOk, OnOk, codes};
ghost use Rattle.fst_terms.specs.ModuleTree.{Declared};
ghost use Rattle.fst_terms.specs.ModuleView.{declarations};
ghost use Rattle.fst_scopes.specs.declared.fault.NameFault.{NameFault};
ghost use Rattle.fst_scopes.specs.declared.fault.NameFault.TheVariants.{Memory};
ghost use Rattle.fst_scopes.specs.Faults.{is_among};
ghost use Rattle.fst_scopes.specs.First.{first_fault};
ghost use Rattle.fst_declarations.specs.Declarations.{AreDeclarations};
ghost use Rattle.fst_declarations.specs.ModuleFaults.{globals, no_main};
ghost use Rattle.fst_names.specs.ResolvedModule.{IsAnswer, IsFirstFault, IsResolvedModule, OneModuleLaw};

use crate::module::module_of;
use fst_declarations::{Declarations, declarations_of, note_decls};
use fst_scopes::{NameFault, note};
use fst_terms::{Module, SourceModule};
use fst_types::Name;
use std::alloc::{AllocError, Global};

// Whether something is named main.
fn has_main(alloc: Global, declarations: &Declarations<'_>) -> Result<bool, AllocError>
    ensures { (ds : List Declared) → AreDeclarations ds declarations.now →
        IfOk result (λ b. b ≡ is_among (globals ds) (codes "main")) }
{
    let main = Name::of(alloc, b"main")?;
    Ok(declarations.globals.number_of(&main).is_some())
}

// Notes that nothing is named main, where no other fault was noted.
fn note_main(
    alloc: Global,
    declarations: &Declarations<'_>,
    least: &mut Option<NameFault>,
) -> Result<(), AllocError>
    ensures { (ds : List Declared) (fs : List NameFault) → AreDeclarations ds declarations.now →
        least.old ≡ first_fault fs → OnOk result (least.new ≡ first_fault (no_main ds fs)) }
{
    match least {
        Some(_) => Ok(()),
        None => {
            if has_main(alloc, declarations)? {
                return Ok(());
            }
            note(least, NameFault::NoMain);
            Ok(())
        }
    }
}

// The module, where it has no fault; else keeps the first one.
fn module_or_fault(
    alloc: Global,
    m: &SourceModule,
    least: &mut Option<NameFault>,
) -> Result<Option<Module>, AllocError>
    requires { least.old ≡ None }
    ensures { IfOk result (λ o. IsAnswer (declarations m.now) o least.new) }
{
    let declarations = declarations_of(alloc, &m.decls, least)?;
    note_decls(alloc, &m.decls, &declarations, least)?;
    note_main(alloc, &declarations, least)?;
    if let Some(_) = least {
        return Ok(None);
    }
    Ok(Some(module_of(alloc, &m.decls, &declarations)?))
}

/// A module with numbers in place of names: of the binders around, innermost first; of globals, in order of their equations;
/// of data types and constructors; and of types, in order of text, with those of parameters behind them.
///
/// Its first fault is answered where it has one, and that nothing is named main only where it has no other. Want of memory
/// may come at any time, and comes where 32 bits have too few numbers.
pub fn resolve(alloc: Global, m: &SourceModule) -> Result<Module, NameFault>
    ensures resolved { IfOk result (IsResolvedModule (declarations m.now)) }
    ensures fault { IfErr result (λ f. f ≢ Memory → IsFirstFault (declarations m.now) f) }
{
    let mut least = None;
    if let Some(module) = module_or_fault(alloc, m, &mut least)? {
        return Ok(module);
    }
    match least {
        Some(fault) => Err(fault),
        None => unreachable!(),
    }
}

/// A module is resolved to one module at most: its types, at the same bytes, its data types and its globals are the same.
#[tactic(auto, using(crate::proofs::OneModule::one_module))]
pub fn one_module_law()
    ensures { OneModuleLaw }
{}
