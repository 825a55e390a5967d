ghost use Rattle.std.specs.Prelude.{◌≡◌, ◌∷◌, ◌++◌, ◌+◌, ◌<◌, ◌≤◌, ◌^◌, [], IfOk, IsSome, OnOk, Some, length, map};
ghost use Rattle.fst_types.specs.ModelWrittenHeight.{height};
ghost use Rattle.fst_terms.specs.ModelCoreView.{cores_of};
ghost use Rattle.fst_terms.specs.Naming.{place, place_of, type_of};
ghost use Rattle.fst_scopes.specs.Faults.{type_faults};
ghost use Rattle.fst_scopes.specs.Scopes.{recs_of, scope_around, types_of, vars_of};
ghost use Rattle.fst_term_faults.specs.TermFaults.{maker_faults, name_faults, types_faults};
ghost use Rattle.fst_term_names.specs.CodeMeanings.{AreAdded, numbers_in, scope_in};
ghost use Rattle.fst_term_names.specs.CoreTerms.{from, maker_term, name_term};
ghost use Rattle.fst_term_names.specs.TermTypes.{with_variables, without};

use crate::meanings::{Meanings, TypeList};
use fst_locals::Locals;
use fst_scopes::{Names, named, place};
use fst_terms::{Form, Term};
use fst_types::{Name, Ty, Written};
use std::alloc::{AllocError, Global};

/// A count as a number of 32 bits; want of memory where it has more.
fn number_of(count: usize) -> Result<u32, AllocError>
    ensures { IfOk result (λ n. n ≡ count) }
{
    if count > 4_294_967_295 {
        return Err(AllocError);
    }
    Ok(count as u32)
}

/// Puts the type behind the others, and answers its number.
fn add_type(
    alloc: Global,
    w: &Written,
    names: &Names<'_>,
    trees: &[Option<Ty>],
    types: &mut TypeList,
) -> Result<u32, AllocError>
    requires depth { length (recs_of names.now) + height w.now < 2 ^ 32 }
    requires count { length (vars_of names.now) ≤ 2 ^ 32 }
    requires trees { length trees.now ≡ length (types_of names.now).names }
    requires known { IsSome (type_of (scope_around names.now trees.now) w.now) }
    ensures number { IfOk result (λ k. k ≡ length types.old.types.items) }
    ensures types { OnOk result (map Some types.new.types.items ≡ map Some types.old.types.items ++
        type_of (scope_around names.now trees.now) w.now ∷ []) }
    ensures places { OnOk result
        (types.new.places.items ≡ types.old.places.items ++ place w.now ∷ []) }
{
    let number = number_of(types.types.len())?;
    types.types.push(named(alloc, w, names, trees)?)?;
    types.places.push(place(w))?;
    Ok(number)
}

/// Puts a type with the signature's variables behind the others, and answers its number.
pub(crate) fn add_open_type(
    alloc: Global,
    w: &Written,
    meanings: &Meanings<'_>,
    types: &mut TypeList,
) -> Result<u32, AllocError>
    requires { type_faults (scope_in meanings.now).types w.now ≡ [] }
    ensures number { IfOk result (λ k. k ≡ length types.old.types.items) }
    ensures added { OnOk result
        (AreAdded (scope_in meanings.now) (with_variables w.now ∷ []) types.old types.new) }
{
    let around = meanings.around;
    let names = Names::Outermost(around.vars, around.types);
    add_type(alloc, w, &names, meanings.trees, types)
}

/// Puts a type without variables behind the others, and answers its number.
pub(crate) fn add_closed_type(
    alloc: Global,
    w: &Written,
    meanings: &Meanings<'_>,
    types: &mut TypeList,
) -> Result<u32, AllocError>
    requires { type_faults (scope_in meanings.now).closed w.now ≡ [] }
    ensures number { IfOk result (λ k. k ≡ length types.old.types.items) }
    ensures added { OnOk result
        (AreAdded (scope_in meanings.now) (without w.now ∷ []) types.old types.new) }
{
    let around = meanings.around;
    let names = Names::Outermost(around.no_vars, around.types);
    add_type(alloc, w, &names, meanings.trees, types)
}

/// Puts the types after a name behind the others, and answers their numbers.
fn add_arguments(
    alloc: Global,
    written: &[Written],
    meanings: &Meanings<'_>,
    types: &mut TypeList,
) -> Result<Vec<u32>, AllocError>
    requires { types_faults (scope_in meanings.now).types written.now ≡ [] }
    ensures numbers { IfOk result
        (λ ks. ks.items ≡ from (length types.old.types.items) written.now) }
    ensures added { OnOk result
        (AreAdded (scope_in meanings.now) (map with_variables written.now) types.old types.new) }
{
    let mut numbers = Vec::new(alloc);
    for w in written {
        numbers.push(add_open_type(alloc, w, meanings, types)?)?;
    }
    Ok(numbers)
}

/// The term of a name: a variable, or a global with the numbers of the types after it.
pub(crate) fn name_term(
    alloc: Global,
    at: u32,
    name: &Name,
    written: &[Written],
    meanings: &Meanings<'_>,
    locals: &Locals,
    types: &mut TypeList,
) -> Result<Term, AllocError>
    requires name { name_faults locals.now (scope_in meanings.now).globals at name.now written.now
        ≡ [] }
    requires arguments { types_faults (scope_in meanings.now).types written.now ≡ [] }
    ensures term { IfOk result (λ t. t ≡ name_term (numbers_in meanings.now)
        (length types.old.types.items) at name.now written.now (place_of locals.now name.now)) }
    ensures added { OnOk result
        (AreAdded (scope_in meanings.now) (map with_variables written.now) types.old types.new) }
{
    if written.is_empty() {
        if let Some(k) = locals.number_of(name) {
            return Ok(Term {
                at,
                form: Form::Local(number_of(k)?),
            });
        }
    }
    let arguments = add_arguments(alloc, written, meanings, types)?;
    match meanings.around.globals.number_of(name) {
        Some(k) => Ok(Term {
            at,
            form: Form::GlobalUse(number_of(k)?, arguments),
        }),
        None => unreachable!(),
    }
}

/// The term of a constructor with its arguments, of which there are so many.
pub(crate) fn maker_term(
    at: u32,
    name: &Name,
    count: usize,
    arguments: Vec<Term>,
    meanings: &Meanings<'_>,
) -> Term
    requires { maker_faults at name.now count ((scope_in meanings.now).makers name.now) ≡ [] }
    ensures { result ≡ maker_term at (cores_of arguments.items)
        ((numbers_in meanings.now).makers name.now) }
{
    match meanings.around.makers.entry_of(name) {
        Some(maker) => Term {
            at,
            form: Form::Make(maker.family, maker.number, arguments),
        },
        None => unreachable!(),
    }
}
