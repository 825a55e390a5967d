ghost use Rattle.std.specs.Prelude.{◌≡◌, ◌≤◌, IfOk, IfErr, List};
ghost use Rattle.fst_types.specs.declared.kind.Kind.{Kind};
ghost use Rattle.fst_kinds.specs.WellFormed.{IsSession};
ghost use Rattle.fst_grammar.specs.Translation.{IsTooLarge};
ghost use Rattle.fst_equiv.specs.Answers.{Answers};
ghost use Rattle.fst_equiv.specs.Problem.{AreNormedWithin};
ghost use Rattle.fst_equiv.specs.Verdicts.{IsDecided, IsVerdict, answer_of, verdict_of};
ghost use Rattle.fst_equiv.specs.declared.fault.EquivFault.TheVariants.{TooLarge};

use crate::fault::EquivFault;
use crate::finding::{Finding, find};
use crate::verdict::{Certificate, Verdict};
use fst_breadth::Found;
use fst_grammar::{one_grammar, translate};
use fst_norms::{prune, unnormed};
use fst_types::Ty;
use fst_words::{Grammar, Word};
use std::alloc::Global;

/// Whether two session types are equivalent: translates them to a simple grammar. Where all its non-terminals have norms, and the budget
/// is at least the square of their number, their words are decided. Else it tries whether the cuts of the words are a basis within the
/// budget, and then searches the pairs of words that theirs reach, at most `budget` many, for the least difference.
pub fn ask(alloc: Global, t: &Ty, u: &Ty, budget: u32) -> Result<Verdict, EquivFault>
    requires session_left { (vars : List Kind) × IsSession vars t.now }
    requires session_right { (vars : List Kind) × IsSession vars u.now }
    requires budget { 1 ≤ budget }
    ensures verdict { IfOk result (IsVerdict t.now u.now budget) }
    ensures answer { IfOk result (λ v. Answers t.now u.now budget (answer_of v)) }
    ensures normed { IfOk result (λ v. AreNormedWithin t.now u.now budget → IsDecided v) }
    ensures too_large { IfErr result (λ f. f ≡ TooLarge → IsTooLarge t.now u.now) }
{
    one_grammar();
    let (g, mut left, mut right) = translate(alloc, t, u)?;
    let marks = unnormed(alloc, &g)?;
    let marks = marks.as_slice();
    prune(&mut left, marks);
    prune(&mut right, marks);
    let finding = find(alloc, &g, marks, &left, &right, budget)?;
    Ok(verdict_of(g, left, right, finding))
}

// The verdict on two types that what is found of their pruned words gives.
fn verdict_of(g: Grammar, left: Word, right: Word, finding: Finding) -> Verdict
    ensures { result ≡ verdict_of g left right finding }
{
    match finding {
        Finding::Proved(proof) => Verdict::Yes(Certificate::Basis(g, left, right, proof)),
        Finding::Least(trace, side) => Verdict::No(trace, side),
        Finding::Searched(Found::Equal(pairs)) => {
            Verdict::Yes(Certificate::Visited(g, left, right, pairs))
        }
        Finding::Searched(Found::Differ(trace, side)) => Verdict::No(trace, side),
        Finding::Searched(Found::Spent(pairs)) => Verdict::Undecided(g, pairs),
    }
}
