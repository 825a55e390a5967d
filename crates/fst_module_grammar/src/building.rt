ghost use Rattle.std.specs.Prelude.{◌≡◌, IfOk};
ghost use Rattle.fst_terms.specs.TermTree as term;

use fst_terms::{Op, SourceForm, SourceTerm};
use std::alloc::{AllocError, Global};
use std::mem;

/// Takes a term out of its place, where one without content is left.
fn taken(place: &mut SourceTerm) -> SourceTerm
    ensures { result ≡ place.old }
{
    let unit = SourceTerm {
        at: 0,
        form: SourceForm::Unit,
    };
    mem::replace(place, unit)
}

/// Makes this term the first operand of a sign, and the other one the second.
pub fn operate(
    alloc: Global,
    at: u32,
    op: Op,
    first: &mut SourceTerm,
    second: SourceTerm,
) -> Result<(), AllocError>
    ensures { IfOk result (λ u. first.new ≡ term.operate at op first.old second) }
{
    let second = Box::new(alloc, second)?;
    let inner = Box::new(alloc, taken(first))?;
    let form = SourceForm::Operate(op, inner, second);
    mem::replace(first, SourceTerm { at, form });
    Ok(())
}

/// Applies this term to an argument.
pub fn apply(
    alloc: Global,
    at: u32,
    function: &mut SourceTerm,
    argument: SourceTerm,
) -> Result<(), AllocError>
    ensures { IfOk result (λ u. function.new ≡ term.apply at function.old argument) }
{
    let argument = Box::new(alloc, argument)?;
    let inner = Box::new(alloc, taken(function))?;
    let form = SourceForm::Apply(inner, argument);
    mem::replace(function, SourceTerm { at, form });
    Ok(())
}
