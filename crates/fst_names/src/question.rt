ghost use Rattle.std.specs.Prelude.{◌≡◌, ◌≢◌, ◌≤◌, ◌^◌, [], Some, IfErr, IfOk, OnOk, length};
ghost use Rattle.fst_types.specs.Order.{IsSorted};
ghost use Rattle.fst_types.specs.Scoped.{IsScoped};
ghost use Rattle.fst_type_syntax.specs.Views.{question_tree};
ghost use Rattle.fst_scopes.specs.declared.fault.NameFault.TheVariants.{Memory};
ghost use Rattle.fst_scopes.specs.First.{first_fault, first_from};
ghost use Rattle.fst_scopes.specs.Twice.{AreNames, names, variables};
ghost use Rattle.fst_names.specs.Faults.{question_faults, types_faults};
ghost use Rattle.fst_names.specs.Resolved.{IsResolved, kinds};

use fst_scopes::{NameFault, NameTable, Names, TypeNames, named, note_type, place, variables_of};
use fst_terms::Binder;
use fst_type_syntax::SourceQuestion;
use fst_types::{Kind, Ty};
use std::alloc::{AllocError, Global};

/// How many variables have a number.
const MOST_VARIABLES: usize = 4_294_967_296;

/// Whether two types are equivalent, with numbers in place of names.
#[derive(Drop)]
pub struct Question {
    /// The kinds of the variables, in order of their numbers.
    pub kinds: Vec<Kind>,
    /// The type in front of the tilde.
    pub left: Ty,
    /// The type behind the tilde.
    pub right: Ty,
    /// How many bytes stand before the first token of the left type.
    pub left_at: u32,
    /// How many bytes stand before the first token of the right type.
    pub right_at: u32,
}

/// The kinds of variables.
pub(crate) fn kinds_of(alloc: Global, binders: &[(Binder, Kind)]) -> Result<Vec<Kind>, AllocError>
    ensures { IfOk result (λ ks. ks.items ≡ kinds binders.now) }
{
    let mut kinds = Vec::new(alloc);
    for (_, kind) in binders {
        kinds.push(*kind)?;
    }
    Ok(kinds)
}

// The question, where it has no fault.
fn resolved(
    alloc: Global,
    q: &SourceQuestion,
    vars: &NameTable,
    types: &TypeNames<'_>,
) -> Result<Question, AllocError>
    requires faultless { question_faults (question_tree q.now) ≡ [] }
    requires variables { vars.now ≡ names (variables q.now.binders.items) }
    requires count { length vars.now ≤ 2 ^ 32 }
    requires types { types.now.names ≡ [] }
    ensures resolved { IfOk result (IsResolved (question_tree q.now)) }
    ensures scoped { IfOk result (λ r. IsScoped 0 r.left × IsScoped 0 r.right) }
    ensures sorted { IfOk result (λ r. IsSorted r.left × IsSorted r.right) }
{
    let kinds = kinds_of(alloc, &q.binders)?;
    let names = Names::Outermost(vars, types);
    let left = named(alloc, &q.left, &names, &[])?;
    let right = named(alloc, &q.right, &names, &[])?;
    Ok(Question {
        kinds,
        left,
        right,
        left_at: place(&q.left),
        right_at: place(&q.right),
    })
}

// Notes the faults of the two types.
fn note_types(
    alloc: Global,
    q: &SourceQuestion,
    vars: &NameTable,
    types: &TypeNames<'_>,
    least: &mut Option<NameFault>,
) -> Result<(), AllocError>
    requires variables { AreNames (variables q.now.binders.items) vars.now }
    requires types { types.now.names ≡ [] }
    ensures { OnOk result (least.new ≡ first_from least.old (types_faults (question_tree q.now))) }
{
    let names = Names::Outermost(vars, types);
    note_type(alloc, &q.left, &names, &[], least)?;
    note_type(alloc, &q.right, &names, &[], least)?;
    Ok(())
}

/// A question with numbers in place of names: of the `rec`s around, innermost first, and of the variables of its
/// `forall`, in their order.
///
/// Its first fault is answered where it has one: a variable with the name of an earlier one, a name that stands for
/// nothing, or a type of more than 4,096 nodes. Want of memory may come at any time, and comes where there are more
/// variables than 32 bits have numbers.
pub fn resolve_question(alloc: Global, q: &SourceQuestion) -> Result<Question, NameFault>
    ensures resolved { IfOk result (IsResolved (question_tree q.now)) }
    ensures scoped { IfOk result (λ r. IsScoped 0 r.left × IsScoped 0 r.right) }
    ensures sorted { IfOk result (λ r. IsSorted r.left × IsSorted r.right) }
    ensures fault { IfErr result (λ f. f ≢ Memory →
        first_fault (question_faults (question_tree q.now)) ≡ Some f) }
{
    let mut least = None;
    let vars = variables_of(alloc, &q.binders, &mut least)?;
    let types = TypeNames::none(alloc);
    note_types(alloc, q, &vars, &types, &mut least)?;
    if let Some(fault) = least {
        return Err(fault);
    }
    if vars.len() > MOST_VARIABLES {
        return Err(NameFault::Memory);
    }
    Ok(resolved(alloc, q, &vars, &types)?)
}
