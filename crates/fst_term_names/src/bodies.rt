ghost use Rattle.std.specs.Prelude.{◌≡◌, ◌++◌, [], Some, IfOk, OnOk, length, map};
ghost use Rattle.fst_term_faults.specs.TermFaults.{term_faults, within};
ghost use Rattle.fst_term_names.specs.CodeMeanings.{numbers_in, scope_in};
ghost use Rattle.fst_term_names.specs.CoreTerms.{core_term};
ghost use Rattle.fst_term_names.specs.TermTypes.{begins_at, tree_of, written_in};

use crate::core_terms::core_term;
use crate::meanings::{Meanings, TypeList};
use fst_locals::Locals;
use fst_term_faults::enter_all;
use fst_terms::{Binder, SourceTerm, Term};
use std::alloc::{AllocError, Global};

/// The body of an equation with these parameters, with numbers in place of names, where it has no fault of names and sizes.
/// The types in it are put behind the others in order of text. Want of memory comes also where a number has more than 32 bits.
pub fn core_body(
    alloc: Global,
    parameters: &[Binder],
    body: &SourceTerm,
    meanings: &Meanings<'_>,
    types: &mut TypeList,
) -> Result<Term, AllocError>
    requires faultless { term_faults (scope_in meanings.now)
        (within parameters.now []) body.now ≡ [] }
    ensures term { IfOk result (λ t. t ≡ core_term (numbers_in meanings.now)
        (within parameters.now []) (length types.old.types.items) body.now) }
    ensures types { OnOk result (map Some types.new.types.items ≡ map Some types.old.types.items ++
        map (tree_of (scope_in meanings.now)) (written_in body.now)) }
    ensures places { OnOk result (types.new.places.items ≡ types.old.places.items ++
        map begins_at (written_in body.now)) }
{
    let mut locals = Locals::new(alloc);
    enter_all(alloc, parameters, &mut locals)?;
    core_term(alloc, body, meanings, &mut locals, types)
}
