ghost use Rattle.std.specs.Prelude.{◌≡◌, OnOk};
ghost use Rattle.fst_scopes.specs.Faults.{type_faults};
ghost use Rattle.fst_scopes.specs.First.{first_from};
ghost use Rattle.fst_term_faults.specs.CodeSurroundings.{surroundings_of};
ghost use Rattle.fst_term_faults.specs.TermFaults.{maker_faults, name_faults, types_faults};

use crate::surroundings::Surroundings;
use fst_locals::Locals;
use fst_scopes::{NameFault, Names, note, note_type};
use fst_types::{Name, Written};
use std::alloc::{AllocError, Global};

/// Notes a name in a term that stands for nothing; before types it has to be that of a global.
#[tactic(auto, unfolding(crate::specs::CodeSurroundings::surroundings_of))]
pub(crate) fn note_name_use(
    alloc: Global,
    at: u32,
    name: &Name,
    types: &[Written],
    around: &Surroundings<'_>,
    locals: &Locals,
    least: &mut Option<NameFault>,
) -> Result<(), AllocError>
    ensures { OnOk result (least.new ≡ first_from least.old
        (name_faults locals.now (surroundings_of around.now).globals at name.now types.now)) }
{
    let is_local = types.is_empty() && locals.number_of(name).is_some();
    if !is_local && around.globals.number_of(name).is_none() {
        note(least, NameFault::Unbound(at, name.copy(alloc)?));
    }
    Ok(())
}

/// Notes a constructor, or its pattern, with so many parts, where it is unknown or has another number of fields.
#[tactic(auto, unfolding(crate::specs::CodeSurroundings::surroundings_of))]
pub(crate) fn note_maker(
    alloc: Global,
    at: u32,
    name: &Name,
    got: usize,
    around: &Surroundings<'_>,
    least: &mut Option<NameFault>,
) -> Result<(), AllocError>
    ensures { OnOk result (least.new ≡ first_from least.old
        (maker_faults at name.now got ((surroundings_of around.now).makers name.now))) }
{
    let got = got as u64;
    match around.makers.entry_of(name) {
        None => note(least, NameFault::Unbound(at, name.copy(alloc)?)),
        Some(maker) => {
            if got != maker.fields {
                note(least, NameFault::Arity(at, got, maker.fields));
            }
        }
    }
    Ok(())
}

/// Notes the faults of a type with the signature's variables.
#[tactic(auto, unfolding(crate::specs::CodeSurroundings::surroundings_of))]
pub(crate) fn note_open_type(
    alloc: Global,
    w: &Written,
    around: &Surroundings<'_>,
    least: &mut Option<NameFault>,
) -> Result<(), AllocError>
    ensures { OnOk result (least.new ≡ first_from least.old
        (type_faults (surroundings_of around.now).types w.now)) }
{
    let names = Names::Outermost(around.vars, around.types);
    note_type(alloc, w, &names, &around.aliases.measures, least)
}

/// Notes the faults of a type without variables.
#[tactic(auto, unfolding(crate::specs::CodeSurroundings::surroundings_of))]
pub(crate) fn note_closed_type(
    alloc: Global,
    w: &Written,
    around: &Surroundings<'_>,
    least: &mut Option<NameFault>,
) -> Result<(), AllocError>
    ensures { OnOk result (least.new ≡ first_from least.old
        (type_faults (surroundings_of around.now).closed w.now)) }
{
    let names = Names::Outermost(around.no_vars, around.types);
    note_type(alloc, w, &names, &around.aliases.measures, least)
}

/// Notes the faults of the types after a name.
pub(crate) fn note_arguments(
    alloc: Global,
    types: &[Written],
    around: &Surroundings<'_>,
    least: &mut Option<NameFault>,
) -> Result<(), AllocError>
    ensures { OnOk result (least.new ≡ first_from least.old
        (types_faults (surroundings_of around.now).types types.now)) }
{
    for w in types {
        note_open_type(alloc, w, around, least)?;
    }
    Ok(())
}
