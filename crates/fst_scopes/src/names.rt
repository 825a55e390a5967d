ghost use Rattle.std.specs.Prelude.{◌≡◌, ◌<◌, ◌^◌, IfSome, length};
ghost use Rattle.fst_terms.specs.Naming.{is_there, place_of};
ghost use Rattle.fst_scopes.specs.Scopes.{recs_of, types_of, vars_of};

use crate::table::NameTable;
use crate::types::TypeNames;
use fst_types::Name;

/// The names in scope: those of the `rec`s around, the innermost in front, and behind them those of the variables and of
/// the declared types.
#[derive(Drop)]
pub enum Names<'a> {
    Outermost(&'a NameTable, &'a TypeNames<'a>),
    Within(&'a Name, &'a Names<'a>),
}

/// The variables.
pub(crate) fn vars<'a>(names: &Names<'a>) -> &'a NameTable
    ensures { result.now ≡ vars_of names.now }
{
    match names {
        Names::Outermost(vars, _) => vars,
        Names::Within(_, outer) => vars(outer),
    }
}

/// The declared types.
pub(crate) fn types<'a>(names: &Names<'a>) -> &'a TypeNames<'a>
    ensures { result.now ≡ types_of names.now }
{
    match names {
        Names::Outermost(_, types) => types,
        Names::Within(_, outer) => types(outer),
    }
}

/// Whether a `rec` around has the name.
pub(crate) fn is_recursive(names: &Names<'_>, name: &Name) -> bool
    ensures { result ≡ is_there (place_of (recs_of names.now) name.now) }
{
    match names {
        Names::Outermost(_, _) => false,
        Names::Within(own, outer) => {
            name.as_slice() == own.as_slice() || is_recursive(outer, name)
        }
    }
}

/// The number of the innermost `rec` with a name, counted from 0 outward.
pub(crate) fn binder(names: &Names<'_>, name: &Name) -> Option<u32>
    requires { length (recs_of names.now) < 2 ^ 32 }
    ensures number { result ≡ place_of (recs_of names.now) name.now }
    ensures within { IfSome result (λ k. k < length (recs_of names.now)) }
{
    match names {
        Names::Outermost(_, _) => None,
        Names::Within(own, outer) => {
            if name.as_slice() == own.as_slice() {
                return Some(0);
            }
            Some(binder(outer, name)? + 1)
        }
    }
}
