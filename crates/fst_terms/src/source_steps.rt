ghost use Rattle.std.specs.Prelude.{◌≡◌, ◌<◌, ◌≤◌, IfOk, IfSome, IsFalse, MatchOption, length};
ghost use Rattle.fst_terms.specs.TermTree.{TermTree, term_height};
ghost use Rattle.fst_terms.specs.SourceAround.{around, has_first, second, wrap};

use crate::term::{Op, SourceForm, SourceTerm};
use std::alloc::{AllocError, Global};

/// What stands around the first part of a term: where the whole begins, the sign, and the second part.
#[derive(Clone, Copy)]
pub enum SourceStep<'a> {
    Operate(u32, Op, &'a SourceTerm),
    Apply(u32, &'a SourceTerm),
}

/// A term from the inside: the first part that has none itself, and the steps around it, the innermost last.
#[derive(Drop)]
pub struct SourceSpine<'a> {
    pub head: &'a SourceTerm,
    pub steps: Vec<SourceStep<'a>>,
}

/// The spine of a term as it was written.
#[tactic(auto, using(crate::proofs::SourceAround::around_last))]
pub fn source_spine_of<'a>(
    alloc: Global,
    term: &'a SourceTerm,
) -> Result<SourceSpine<'a>, AllocError>
    ensures whole { IfOk result (λ s. around s.head.now s.steps.items ≡ term.now) }
    ensures low { IfOk result (λ s. term_height s.head.now ≤ term_height term.now) }
    ensures head { IfOk result (λ s. IsFalse (has_first s.head.now)) }
{
    let mut steps = Vec::new(alloc);
    let mut head = term;
    loop {
        match &head.form {
            SourceForm::Operate(op, first, second) => {
                steps.push(SourceStep::Operate(head.at, *op, second))?;
                head = first;
            }
            SourceForm::Apply(first, second) => {
                steps.push(SourceStep::Apply(head.at, second))?;
                head = first;
            }
            _ => return Ok(SourceSpine { head, steps }),
        }
    }
}

/// The innermost step, which is taken off.
pub fn pop_source_step<'a>(steps: &mut Vec<SourceStep<'a>>) -> Option<SourceStep<'a>>
    ensures less { IfSome result (λ x. length steps.new.items < length steps.old.items) }
    ensures low { IfSome result (λ x. (t : TermTree) →
        term_height (second x) < term_height (around t steps.old.items)) }
    ensures whole { MatchOption result ((t : TermTree) → around t steps.old.items ≡ t)
        (λ x. (t : TermTree) → around t steps.old.items ≡ around (wrap x t) steps.new.items) }
{
    steps.pop()
}
