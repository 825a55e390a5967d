ghost use Rattle.std.specs.Prelude.{◌≡◌, ◌↔◌, ℕ, List, Some, map, option_map};
ghost use Rattle.fst_types.specs.Tree.{Tree};
ghost use Rattle.fst_types.specs.Tree as tree;
ghost use Rattle.fst_types.specs.Scoped.{IsScoped};
ghost use Rattle.fst_types.specs.Substitution.{unfolding_of};
ghost use Rattle.fst_types.specs.declared.kind.Kind.{Kind};
ghost use Rattle.fst_types.specs.declared.label.Label.{Label};
ghost use Rattle.fst_kinds.specs.Contractive.{IsContractive};
ghost use Rattle.fst_kinds.specs.WellFormed.{IsSession};
ghost use Rattle.fst_lts.specs.Step.{step, terminated};
ghost use Rattle.fst_base.specs.Agreement.{residual, Agree, AgreeTo, HaveSameTracesTo, IsBisimulation};
ghost use Rattle.fst_lts.specs.Dual.{dual, dual_label};
ghost use Rattle.fst_lts.specs.Histories.{is_output, after_history};
ghost use Rattle.fst_lts.specs.Moves.{Moves};
ghost use Rattle.fst_types.specs.declared.event.Entry.{Entry};

/// A relation between types, which is whatever a proof that calls `bisimulation_law` takes for it.
pub trait Relation {
    ghost related: { Tree → Tree → Type 0 };
}

/// Agreement at every depth is the greatest bisimulation (Park, 1981): it is one, and each one is within it.
pub fn bisimulation_law<R: Relation>()
    ensures agreement { IsBisimulation step step (Agree step step) }
    ensures greatest { IsBisimulation step step R.related →
        (s r : Tree) → R.related s r → Agree step step s r }
{}

/// Two types agree to a depth exactly where they perform the same traces of at most that many labels.
pub fn depth_law()
    ensures { (n : ℕ) (s r : Tree) → AgreeTo step step n s r ↔ HaveSameTracesTo step step n s r }
{}

/// The labels of a type are all outputs, or none is one: an end whose residual isn't terminated sends or receives,
/// and never may do both.
pub fn direction_law()
    ensures { (s t u : Tree) (a b : Label) → step s a ≡ Some t → step s b ≡ Some u →
        is_output a ≡ is_output b }
{}

/// The dual of the dual is the type itself, and so it is for labels; what the dual leaves after the dual trace is the
/// dual of what the type leaves after the trace; and so what a history leaves of the right end is the dual of what it
/// leaves of the left one.
pub fn dual_law()
    ensures involution { (s : Tree) → dual (dual s) ≡ s }
    ensures labels { (a : Label) → dual_label (dual_label a) ≡ a }
    ensures residuals { (trace : List Label) (s : Tree) →
        residual step (dual s) (map dual_label trace) ≡ option_map dual (residual step s trace) }
    ensures histories { (s : Tree) (history : List Entry) →
        after_history (dual s) history ≡ option_map dual (after_history s history) }
{}

/// The steps of a contractive type without free recursion variables are its moves by the rules, where a recursive
/// type moves as its unfolding; and by each label a type moves to at most one type.
pub fn moves_law()
    ensures steps { (s : Tree) → IsScoped 0 s → IsContractive s →
        (a : Label) (t : Tree) → step s a ≡ Some t ↔ Moves s a t }
    ensures unique { (s t u : Tree) (a : Label) → Moves s a t → Moves s a u → t ≡ u }
{}

/// The unfolding of a recursive session type moves as the type does, and is terminated where the type is.
pub fn unfolding_law()
    ensures steps { (vars : List Kind) (s : Tree) → IsSession vars (tree.rec s) →
        (a : Label) → step (unfolding_of s) a ≡ step (tree.rec s) a }
    ensures ends { (vars : List Kind) (s : Tree) → IsSession vars (tree.rec s) →
        terminated (unfolding_of s) ≡ terminated (tree.rec s) }
{}

/// Agreement at every depth is an equivalence, and is kept with any type in front of both sides, and with any type
/// behind two session types.
pub fn agreement_law()
    ensures itself { (s : Tree) → Agree step step s s }
    ensures back { (s r : Tree) → Agree step step s r → Agree step step r s }
    ensures through { (s r t : Tree) → Agree step step s r → Agree step step r t →
        Agree step step s t }
    ensures front { (s r t : Tree) → Agree step step s r →
        Agree step step (tree.seq t s) (tree.seq t r) }
    ensures behind { (vars : List Kind) (s r t : Tree) → IsSession vars s → IsSession vars r →
        Agree step step s r → Agree step step (tree.seq s t) (tree.seq r t) }
{}
