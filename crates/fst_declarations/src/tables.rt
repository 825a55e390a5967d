ghost use Rattle.std.specs.Prelude.{◌≡◌, ◌++◌, List, ℕ, Option, IfOk, OnOk, map};
ghost use Rattle.fst_terms.specs.ModuleTree.{decl_tree, maker};
ghost use Rattle.fst_terms.specs.declared.binder.Binder.{Binder};
ghost use Rattle.fst_scopes.specs.declared.fault.NameFault.{NameFault};
ghost use Rattle.fst_scopes.specs.Faults.{is_among};
ghost use Rattle.fst_scopes.specs.First.{first_from};
ghost use Rattle.fst_scopes.specs.Kept.{with_name};
ghost use Rattle.fst_scopes.specs.Scopes.{AreTypeNames};
ghost use Rattle.fst_scopes.specs.Twice.{AreNames, twice, twice_if};
ghost use Rattle.fst_term_faults.specs.declared.surroundings.MakerEntry.{MakerEntry};
ghost use Rattle.fst_declarations.specs.ModuleFaults.{globals};
ghost use Rattle.fst_declarations.specs.ModuleNames.{equation_names, makers, signature_names, type_names};
ghost use Rattle.fst_declarations.specs.Tables.{AreMakers, AreSignatures, IsKept, entries_from, itself, with_entry};

use crate::entries::{SignatureEntry, Signatures};
use crate::numbers::number_of;
use fst_scopes::{NameFault, NameTable, TypeEntry, TypeNames, note_name};
use fst_term_faults::{MakerEntry, Makers};
use fst_terms::{Binder, Decl, SourceMaker};
use std::alloc::{AllocError, Global};

// Puts the name that is bound, with its entry, behind the others. Where it is among them both stay out, and it is
// noted.
fn keep<E: Drop>(
    alloc: Global,
    binder: &Binder,
    entry: E,
    names: &mut NameTable,
    entries: &mut Vec<E>,
    least: &mut Option<NameFault>,
) -> Result<(), AllocError>
    ensures names { OnOk result (names.new ≡ with_name names.old binder.now.name) }
    ensures entries { OnOk result
        (entries.new.items ≡ with_entry names.old binder.now.name entries.old.items entry) }
    ensures twice { OnOk result (least.new ≡
        first_from least.old (twice_if (is_among names.old binder.now.name) binder.now)) }
{
    if note_name(alloc, binder, names, least)? {
        entries.push(entry)?;
    }
    Ok(())
}

/// The types that a module declares, with what is declared first under each name; notes each name that is declared a
/// second time. Want of memory comes also where there are more data types than 32 bits have numbers.
pub(crate) fn types_of<'a>(
    alloc: Global,
    decls: &'a [Decl],
    least: &mut Option<NameFault>,
) -> Result<TypeNames<'a>, AllocError>
    ensures types { IfOk result (AreTypeNames (map decl_tree decls.now)) }
    ensures names { IfOk result (λ t. AreNames (type_names (map decl_tree decls.now)) t.names) }
    ensures twice { OnOk result
        (least.new ≡ first_from least.old (twice (type_names (map decl_tree decls.now)))) }
{
    let mut names = NameTable::new(alloc);
    let mut entries = Vec::new(alloc);
    let mut families = 0;
    for decl in decls {
        match decl {
            Decl::Family(binder, _) => {
                let entry = TypeEntry::Family(number_of(families)?);
                keep(alloc, binder, entry, &mut names, &mut entries, least)?;
                families += 1;
            }
            Decl::Alias(binder, w) => {
                let entry = TypeEntry::Alias(w);
                keep(alloc, binder, entry, &mut names, &mut entries, least)?;
            }
            Decl::Signature(_, _, _) => {}
            Decl::Equation(_, _, _) => {}
        }
    }
    Ok(TypeNames { names, entries })
}

// Keeps the constructors of the data type with this number.
fn keep_makers(
    alloc: Global,
    family: u32,
    makers: &[SourceMaker],
    names: &mut NameTable,
    entries: &mut Vec<MakerEntry>,
    least: &mut Option<NameFault>,
) -> Result<(), AllocError>
    ensures { OnOk result ((old : Option NameFault) (before : List (Binder × MakerEntry)) →
        IsKept itself old before names.old entries.old.items least.old →
        IsKept itself old (before ++ entries_from family 0 (map maker makers.now))
        names.new entries.new.items least.new) }
{
    for (n, maker) in makers.iter().enumerate() {
        let number = number_of(n)?;
        let fields = maker.fields.len() as u64;
        let entry = MakerEntry {
            family,
            number,
            fields,
        };
        keep(alloc, &maker.name, entry, names, entries, least)?;
    }
    Ok(())
}

/// The constructors that a module declares, with what belongs to the first of each name; notes each name that is
/// declared a second time. Want of memory comes also where there are more data types, or constructors of one data type,
/// than 32 bits have numbers.
pub(crate) fn makers_of(
    alloc: Global,
    decls: &[Decl],
    least: &mut Option<NameFault>,
) -> Result<Makers, AllocError>
    ensures makers { IfOk result (AreMakers (map decl_tree decls.now)) }
    ensures twice { OnOk result (least.new ≡
        first_from least.old (twice (map (λ m. m.name) (makers (map decl_tree decls.now))))) }
{
    let mut names = NameTable::new(alloc);
    let mut entries = Vec::new(alloc);
    let mut families = 0;
    for decl in decls {
        if let Decl::Family(_, makers) = decl {
            let family = number_of(families)?;
            keep_makers(alloc, family, makers, &mut names, &mut entries, least)?;
            families += 1;
        }
    }
    Ok(Makers { names, entries })
}

/// The signatures of a module, with the first of each name; notes each name that has a second one.
pub(crate) fn signatures_of<'a>(
    alloc: Global,
    decls: &'a [Decl],
    least: &mut Option<NameFault>,
) -> Result<Signatures<'a>, AllocError>
    ensures signatures { IfOk result (AreSignatures (map decl_tree decls.now)) }
    ensures twice { OnOk result
        (least.new ≡ first_from least.old (twice (signature_names (map decl_tree decls.now)))) }
{
    let mut names = NameTable::new(alloc);
    let mut entries = Vec::new(alloc);
    for decl in decls {
        if let Decl::Signature(binder, binders, its_type) = decl {
            let entry = SignatureEntry { binders, its_type };
            keep(alloc, binder, entry, &mut names, &mut entries, least)?;
        }
    }
    Ok(Signatures { names, entries })
}

/// The names that have an equation in a module, each once; notes each name that has a second one.
pub(crate) fn equations_of(
    alloc: Global,
    decls: &[Decl],
    least: &mut Option<NameFault>,
) -> Result<NameTable, AllocError>
    ensures names { IfOk result (AreNames (equation_names (map decl_tree decls.now))) }
    ensures twice { OnOk result
        (least.new ≡ first_from least.old (twice (equation_names (map decl_tree decls.now)))) }
{
    let mut names = NameTable::new(alloc);
    for decl in decls {
        if let Decl::Equation(binder, _, _) = decl {
            note_name(alloc, binder, &mut names, least)?;
        }
    }
    Ok(names)
}

/// The names that have a signature or an equation in a module.
pub(crate) fn globals_of(alloc: Global, decls: &[Decl]) -> Result<NameTable, AllocError>
    ensures { IfOk result (λ known. (x : List ℕ) →
        is_among known x ≡ is_among (globals (map decl_tree decls.now)) x) }
{
    let mut names = NameTable::new(alloc);
    for decl in decls {
        match decl {
            Decl::Family(_, _) => {}
            Decl::Alias(_, _) => {}
            Decl::Signature(binder, _, _) => {
                names.add(alloc, &binder.name)?;
            }
            Decl::Equation(binder, _, _) => {
                names.add(alloc, &binder.name)?;
            }
        }
    }
    Ok(names)
}
