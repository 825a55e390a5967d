ghost use Rattle.std.specs.Prelude.{◌≡◌};
ghost use Rattle.fst_parts.specs.Views.{HasNumber};
ghost use Rattle.fst_grammar.specs.Counts.{tree_counts};

use fst_parts::{Counts, Numbered, Trees};

/// What is counted of a type with its number.
#[tactic(auto, using(crate::proofs::CountLaws::counts_of_tree))]
pub(crate) fn counts(trees: &Trees, t: Numbered<'_>) -> Counts
    requires { HasNumber trees.now t }
    ensures { result ≡ tree_counts t.entry.ty.now }
{
    t.counts(trees)
}
