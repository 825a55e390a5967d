ghost use Rattle.std.specs.Prelude.{◌≡◌, ℕ, List};
ghost use Rattle.fst_types.specs.Tree.{Tree};
ghost use Rattle.fst_types.specs.declared.kind.Kind.{Kind};
ghost use Rattle.fst_lts.specs.Equal.{IsEqual};
ghost use Rattle.fst_equiv.specs.Answers.{OneAnswer};
ghost use Rattle.fst_equiv.specs.Comparison.{IsComparison, IsDifference, AreEqual};
ghost use Rattle.fst_equiv.specs.Outcomes.{HasOutcome, outcome_of, OneOutcome};
ghost use Rattle.fst_equiv.specs.declared.comparing.Same.{Same};
ghost use Rattle.fst_equiv.specs.declared.comparing.Same.TheVariants.{Yes};

use fst_breadth::search_is_determined;
use fst_grammar::one_grammar;

/// Law: a question of two session types has at most one answer.
pub fn one_answer()
    ensures { OneAnswer }
{
    one_grammar();
    search_is_determined();
}

/// Law: two well-formed types compare in one way at most, and what is found is that way.
pub fn one_outcome()
    ensures one { OneOutcome }
    ensures found { (t u : Tree) (budget : ℕ) (a : Same) → IsComparison t u budget a →
        HasOutcome t u budget (outcome_of a) }
{
    one_answer();
}

/// Law: types of which all comparisons are Yes are equal, over each list of kinds over which both are well formed; and
/// types that differ in their shape or by a word aren't equal, over any list of kinds.
pub fn comparison_law()
    ensures equal { (t u : Tree) (budget : ℕ) → IsComparison t u budget Yes → AreEqual t u }
    ensures differ { (vars : List Kind) (t u : Tree) (budget : ℕ) (a : Same) →
        IsComparison t u budget a → IsDifference a → IsEqual vars t u → ⊥ }
{}
