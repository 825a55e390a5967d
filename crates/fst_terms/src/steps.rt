ghost use Rattle.std.specs.Prelude.{◌≡◌, ◌<◌, ◌≤◌, IfOk, IfSome, IsFalse, MatchOption, length};
ghost use Rattle.fst_terms.specs.CoreTree.{CoreTree, core_height};
ghost use Rattle.fst_terms.specs.Around.{around, has_first, second, wrap};

use crate::core_term::{Form, Term};
use crate::term::Op;
use std::alloc::{AllocError, Global};

/// What stands around the first part of a term: where the whole begins, the sign, and the second part.
#[derive(Clone, Copy)]
pub enum Step<'a> {
    Operate(u32, Op, &'a Term),
    Apply(u32, &'a Term),
}

/// A term from the inside: the first part that has none itself, and the steps around it, the innermost last.
#[derive(Drop)]
pub struct Spine<'a> {
    pub head: &'a Term,
    pub steps: Vec<Step<'a>>,
}

/// The spine of a term.
#[tactic(auto, using(crate::proofs::Around::around_last))]
pub fn spine_of<'a>(alloc: Global, term: &'a Term) -> Result<Spine<'a>, AllocError>
    ensures whole { IfOk result (λ s. around s.head.now s.steps.items ≡ term.now) }
    ensures low { IfOk result (λ s. core_height s.head.now ≤ core_height term.now) }
    ensures head { IfOk result (λ s. IsFalse (has_first s.head.now)) }
{
    let mut steps = Vec::new(alloc);
    let mut head = term;
    loop {
        match &head.form {
            Form::Operate(op, first, second) => {
                steps.push(Step::Operate(head.at, *op, second))?;
                head = first;
            }
            Form::Apply(first, second) => {
                steps.push(Step::Apply(head.at, second))?;
                head = first;
            }
            _ => return Ok(Spine { head, steps }),
        }
    }
}

/// The innermost step, which is taken off.
pub fn pop_step<'a>(steps: &mut Vec<Step<'a>>) -> Option<Step<'a>>
    ensures less { IfSome result (λ x. length steps.new.items < length steps.old.items) }
    ensures low { IfSome result (λ x. (t : CoreTree) →
        core_height (second x) < core_height (around t steps.old.items)) }
    ensures whole { MatchOption result ((t : CoreTree) → around t steps.old.items ≡ t)
        (λ x. (t : CoreTree) → around t steps.old.items ≡ around (wrap x t) steps.new.items) }
{
    steps.pop()
}
