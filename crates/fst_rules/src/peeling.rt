ghost use Rattle.std.specs.Prelude.{◌≡◌, IfOk, MatchOption, None, Some, option_map};
ghost use Rattle.fst_derivations.specs.Deriv.{deriv_of, parts_of};
ghost use Rattle.fst_rules.specs.Walks.{has_none, parts_1, parts_2, parts_3, parts_more, peeled};

use fst_derivations::Derivation;
use fst_fits::{is_formed, is_same};
use fst_types::{Kind, Ty};
use std::alloc::{AllocError, Global};

/// A row: its type, and the derivations of its parts.
#[derive(Clone, Copy)]
pub(crate) struct Row<'a> {
    pub(crate) ty: &'a Ty,
    pub(crate) parts: &'a [Derivation],
}

/// Whether there are no parts.
pub(crate) fn has_none(parts: &[Derivation]) -> bool
    ensures { result ≡ has_none (parts_of parts.now) }
{
    match parts.split_first() {
        None => true,
        Some(_) => false,
    }
}

/// The only part.
pub(crate) fn one<'a>(parts: &'a [Derivation]) -> Option<&'a Derivation>
    ensures { option_map (λ d. deriv_of d.now) result ≡ parts_1 (parts_of parts.now) }
{
    if parts.len() != 1 {
        return None;
    }
    Some(&parts[0])
}

/// The only two parts.
pub(crate) fn two<'a>(parts: &'a [Derivation]) -> Option<(&'a Derivation, &'a Derivation)>
    ensures { option_map (λ p. (deriv_of p.0.now, deriv_of p.1.now)) result ≡ parts_2 (parts_of
        parts.now) }
{
    if parts.len() != 2 {
        return None;
    }
    Some((&parts[0], &parts[1]))
}

/// The only three parts.
pub(crate) fn three<'a>(
    parts: &'a [Derivation],
) -> Option<(&'a Derivation, &'a Derivation, &'a Derivation)>
    ensures { option_map (λ p. (deriv_of p.0.now, deriv_of p.1.now, deriv_of p.2.now)) result ≡
        parts_3 (parts_of parts.now) }
{
    if parts.len() != 3 {
        return None;
    }
    Some((&parts[0], &parts[1], &parts[2]))
}

/// The row below conversions, if all types that stand above it and its own are well formed, and each conversion turns the
/// type that stands below it.
pub(crate) fn peel<'a>(
    alloc: Global,
    vars: &[Kind],
    derivation: &'a Derivation,
) -> Result<Option<Row<'a>>, AllocError>
    ensures { IfOk result (λ o. option_map (λ r. (r.ty.now, parts_of r.parts.now)) o ≡ peeled
        vars.now (deriv_of derivation.now)) }
{
    let mut below = derivation;
    loop {
        match below {
            Derivation::Row(ty, parts) => {
                if !is_formed(alloc, vars, ty)? {
                    return Ok(None);
                }
                return Ok(Some(Row { ty, parts }));
            }
            Derivation::Convert(found, wanted, part) => {
                if !is_formed(alloc, vars, found)? || !is_formed(alloc, vars, wanted)? {
                    return Ok(None);
                }
                if !is_same(part.type_of(), found) {
                    return Ok(None);
                }
                below = part;
            }
        }
    }
}
