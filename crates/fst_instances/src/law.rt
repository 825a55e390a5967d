ghost use Rattle.std.specs.Prelude.{◌≡◌, ℕ, List, Some, map, option_map, true, false, IsSome};
ghost use Rattle.fst_types.specs.Tree.{Tree};
ghost use Rattle.fst_types.specs.Tree as tree;
ghost use Rattle.fst_types.specs.declared.base.Base.{Base};
ghost use Rattle.fst_types.specs.declared.kind.Kind.{Kind};
ghost use Rattle.fst_types.specs.declared.kind.Use.{Use};
ghost use Rattle.fst_types.specs.declared.label.Label.{Label};
ghost use Rattle.fst_types.specs.declared.label.Label.TheVariants.{Var};
ghost use Rattle.fst_types.specs.Instance.{argument, instantiated};
ghost use Rattle.fst_kinds.specs.Kinds.{top, HasKind};
ghost use Rattle.fst_kinds.specs.WellFormed.{IsSession, IsWellFormed, IsInstantiation};
ghost use Rattle.fst_base.specs.Agreement.{Agree, BothOrNeither};
ghost use Rattle.fst_lts.specs.Step.{step, terminated, followed};
ghost use Rattle.fst_lts.specs.Dual.{dual};
ghost use Rattle.fst_lts.specs.Equal.{IsEqual};
ghost use Rattle.fst_instances.specs.Instance.{InstanceLaw, InstanceLawOver, IsUnled, FewVariables};
ghost use Rattle.fst_instances.specs.EqualParts.{IsFunctionLike, IsPairLike, StepsToEqual};

/// Session types that agree at every depth do so in every closing instance, with any one type in front of both; and in
/// every instance by types that hold variables of their own.
pub fn instance_law()
    ensures closing { InstanceLaw }
    ensures outer { (outer : List Kind) → InstanceLawOver outer }
{}

/// An instance moves as its type until the type moves by a variable; then the type moves by nothing
/// else, and the instance goes on as what was put for the variable, followed by the instance of what
/// is left: behind an end nothing of that is. This comes only finitely often before another move.
pub fn instance_moves_law()
    ensures steps { (outer vars : List Kind) (args : List Tree) → IsInstantiation outer vars args →
        (s : Tree) → IsUnled s → (a : Label) →
        step (instantiated args s) a ≡ option_map (instantiated args) (step s a) }
    ensures moves { (outer vars : List Kind) (args : List Tree) → IsInstantiation outer vars args →
        (s t : Tree) (a : Label) → ((k : ℕ) → a ≡ Var k → ⊥) → step s a ≡ Some t →
        step (instantiated args s) a ≡ Some (instantiated args t) }
    ensures ends { (args : List Tree) (s : Tree) → IsUnled s →
        terminated (instantiated args s) ≡ terminated s }
    ensures variable { (s t : Tree) (k : ℕ) → step s (Var k) ≡ Some t →
        (a : Label) → IsSome (step s a) → a ≡ Var k }
    ensures argument { (outer vars : List Kind) (args : List Tree) →
        IsInstantiation outer vars args →
        (s t : Tree) (k : ℕ) → IsSession vars s → step s (Var k) ≡ Some t →
        Agree step step (instantiated args s) (tree.seq (argument args k) (instantiated args t)) }
    ensures ahead { (outer vars : List Kind) (args : List Tree) → IsInstantiation outer vars args →
        (s t : Tree) (k : ℕ) → IsSession vars s → step s (Var k) ≡ Some t →
        terminated (argument args k) ≡ false →
        (a : Label) → BothOrNeither (λ x y. Agree step step x (followed a (instantiated args t) y))
        (step (instantiated args s) a) (step (argument args k) a) }
    ensures over { (outer vars : List Kind) (args : List Tree) → IsInstantiation outer vars args →
        (s t : Tree) (k : ℕ) → IsSession vars s → step s (Var k) ≡ Some t →
        terminated (argument args k) ≡ true →
        Agree step step (instantiated args s) (instantiated args t) }
    ensures few { (vars : List Kind) (s : Tree) → IsSession vars s → FewVariables s }
    ensures duals { (args : List Tree) (s : Tree) →
        instantiated (map dual args) (dual s) ≡ dual (instantiated args s) }
{}

/// Equality is an equivalence of well-formed types, and what equals a well-formed type is well formed too, of the same
/// kind. Two session types are equal where they agree, and so they move by the same labels to equal types. What equals
/// a function is a function of the same use with equal parts, what equals a pair a pair with equal parts; and a base
/// type, a data type, and a variable of kind `*T` or `1T` are equal to themselves alone.
pub fn equal_types_law()
    ensures itself { (vars : List Kind) (t : Tree) (k : Kind) → IsWellFormed vars t k →
        IsEqual vars t t }
    ensures back { (vars : List Kind) (s r : Tree) → IsEqual vars s r → IsEqual vars r s }
    ensures through { (vars : List Kind) (s r t : Tree) → IsEqual vars s r → IsEqual vars r t →
        IsEqual vars s t }
    ensures kinds { (vars : List Kind) (s r : Tree) (i j : Kind) → IsEqual vars s r →
        HasKind vars s i → HasKind vars r j → i ≡ j }
    ensures well_formed { (vars : List Kind) (s r : Tree) (k : Kind) → IsEqual vars s r →
        IsWellFormed vars s k → IsWellFormed vars r k }
    ensures agreement { (vars : List Kind) (s r : Tree) → IsEqual vars s r → IsSession vars s →
        Agree step step s r }
    ensures protocols { (vars : List Kind) (s r : Tree) → IsSession vars s → IsSession vars r →
        Agree step step s r → IsEqual vars s r }
    ensures steps { (vars : List Kind) (s r t : Tree) (a : Label) → IsEqual vars s r →
        IsSession vars s → step s a ≡ Some t → StepsToEqual vars r a t }
    ensures functions { (vars : List Kind) (u : Use) (s r t : Tree) →
        IsEqual vars (tree.arrow u s r) t → IsFunctionLike vars u s r t }
    ensures pairs { (vars : List Kind) (s r t : Tree) → IsEqual vars (tree.pair s r) t →
        IsPairLike vars s r t }
    ensures base_types { (vars : List Kind) (b : Base) (t : Tree) → IsEqual vars (tree.plain b) t →
        t ≡ tree.plain b }
    ensures data_types { (vars : List Kind) (k : ℕ) (t : Tree) → IsEqual vars (tree.named k) t →
        t ≡ tree.named k }
    ensures variables { (vars : List Kind) (k : ℕ) (u : Use) (t : Tree) →
        HasKind vars (tree.var k) (top u) → IsEqual vars (tree.var k) t → t ≡ tree.var k }
{}

/// Instances of equal types are equal.
pub fn equal_instances_law()
    ensures { (outer vars : List Kind) (args : List Tree) → IsInstantiation outer vars args →
        (s r : Tree) → IsEqual vars s r →
        IsEqual outer (instantiated args s) (instantiated args r) }
{}
