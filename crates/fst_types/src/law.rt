ghost use Rattle.std.specs.Prelude.{◌≡◌, ◌↔◌, ◌<◌, ℕ, List, Option, IsTrue};
ghost use Rattle.std.specs.Cmp.{IsTotalOrder};
ghost use Rattle.fst_types.specs.Tree.{Tree};
ghost use Rattle.fst_types.specs.Order.{label_cmp, same_label};
ghost use Rattle.fst_types.specs.Scoped.{IsScoped, IsFree};
ghost use Rattle.fst_types.specs.Substitution.{substitute, EnvHas, StandsForNothing};
ghost use Rattle.fst_types.specs.declared.label.Label.{Label};

/// The order of labels is total, and the test for one label is equality.
#[tactic(auto, using(crate::proofs::Laws::label_cmp_total, crate::proofs::Laws::same_label_is))]
pub fn label_order_law()
    ensures total { IsTotalOrder label_cmp }
    ensures same { (a b : Label) → IsTrue (same_label a b) ↔ (a ≡ b) }
{}

/// A type's free variables belong to the binders around it. Where types without free variables are put into a type,
/// its free variables are afterwards exactly those for which nothing is put in.
#[tactic(auto, using(crate::proofs::FreeLaws::substitution_laws))]
pub fn substitution_law()
    ensures scoped { (n : ℕ) (t : Tree) → IsScoped n t ↔ ((k : ℕ) → IsFree k t → k < n) }
    ensures free { (env : List (Option Tree)) → EnvHas (IsScoped 0) env →
        (t : Tree) (k : ℕ) → IsFree k (substitute env t) ↔ (IsFree k t × StandsForNothing env k) }
{}
