ghost use Rattle.std.specs.Prelude.{◌≡◌, [], OnOk};
ghost use Rattle.fst_scopes.specs.First.{first_from};
ghost use Rattle.fst_term_faults.specs.CodeSurroundings.{surroundings_of};
ghost use Rattle.fst_term_faults.specs.TermFaults.{term_faults, within};

use crate::binding::enter_all;
use crate::surroundings::Surroundings;
use crate::terms::note_term;
use fst_locals::Locals;
use fst_scopes::NameFault;
use fst_terms::{Binder, SourceTerm};
use std::alloc::{AllocError, Global};

/// Notes the faults of the body of an equation with these parameters, of which later ones hide earlier ones.
pub fn note_body(
    alloc: Global,
    parameters: &[Binder],
    body: &SourceTerm,
    around: &Surroundings<'_>,
    least: &mut Option<NameFault>,
) -> Result<(), AllocError>
    ensures { OnOk result (least.new ≡ first_from least.old
        (term_faults (surroundings_of around.now) (within parameters.now []) body.now)) }
{
    let mut locals = Locals::new(alloc);
    enter_all(alloc, parameters, &mut locals)?;
    note_term(alloc, body, around, &mut locals, least)
}
