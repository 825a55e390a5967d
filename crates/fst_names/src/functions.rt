ghost use Rattle.std.specs.Prelude.{◌≡◌, ◌≤◌, Some, IfOk, OnOk, length};
ghost use Rattle.fst_scopes.specs.Measures.{arrows};
ghost use Rattle.fst_names.specs.Modules.{functions, parameter_types};
ghost use Rattle.fst_names.specs.Parts.{IsLonger};

use fst_declarations::number_of;
use fst_term_names::TypeList;
use fst_terms::{Binder, Form, Term};
use fst_types::{Ty, TyForm, copy};
use std::alloc::{AllocError, Global};

/// Functions around a body, one for each parameter, with the uses of a type's arrows; puts the types in front of these
/// behind the others, each at the byte where the whole type begins. Recurses once for each parameter.
pub(crate) fn add_functions(
    alloc: Global,
    at: u32,
    parameters: &[Binder],
    its_type: &Ty,
    body: Box<Term>,
    list: &mut TypeList,
) -> Result<Box<Term>, AllocError>
    requires { length parameters.now ≤ arrows its_type.now }
    ensures term { IfOk result (λ t. t.value ≡
        functions (length list.old.types.items) parameters.now (Some its_type.now) body.value) }
    ensures list { OnOk result
        (IsLonger list.old (parameter_types at parameters.now (Some its_type.now)) list.new) }
{
    match parameters {
        [] => Ok(body),
        [first, others @ ..] => match &its_type.form {
            TyForm::Arrow(uses, from, to) => {
                let number = number_of(list.types.len())?;
                list.types.push(copy(alloc, from)?)?;
                list.places.push(at)?;
                let inner = add_functions(alloc, at, others, to, body, list)?;
                let binder = Binder {
                    name: first.name.copy(alloc)?,
                    at: first.at,
                };
                let function = Term {
                    at: first.at,
                    form: Form::Lambda(*uses, number, binder, inner),
                };
                Ok(Box::new(alloc, function)?)
            }
            _ => unreachable!(),
        },
    }
}
