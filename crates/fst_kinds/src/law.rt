ghost use Rattle.std.specs.Prelude.{◌≡◌, ◌↔◌, List, [], Option, Ok, Err, map};
ghost use Rattle.fst_types.specs.Tree.{Tree, rec};
ghost use Rattle.fst_types.specs.declared.kind.Kind.{Kind};
ghost use Rattle.fst_types.specs.Substitution.{substitute, unfolding_of};
ghost use Rattle.fst_types.specs.Instance.{instantiated, instantiated_env};
ghost use Rattle.fst_kinds.specs.Kinds.{HasKind};
ghost use Rattle.fst_types.specs.Scoped.{IsScoped};
ghost use Rattle.fst_types.specs.Order.{IsSorted};
ghost use Rattle.fst_kinds.specs.WellFormed.{IsWellFormed, IsInstance, IsInstantiation};
ghost use Rattle.fst_kinds.specs.Walk.{walk};
ghost use Rattle.fst_kinds.specs.Faults.{IsFirstFault};
ghost use Rattle.fst_kinds.specs.declared.fault.KindFault.{KindFault};

/// A type has one kind at most.
#[tactic(auto, using(crate::proofs::KindLaws::one_kind))]
pub fn one_kind()
    ensures { (vars : List Kind) (t : Tree) (j k : Kind) → HasKind vars t j → HasKind vars t k →
        j ≡ k }
{}

/// The unfolding of a well-formed recursive type is well formed, and of the same kind.
pub fn unfolding_keeps_kinds()
    ensures { (vars : List Kind) (s : Tree) (k : Kind) → IsWellFormed vars (rec s) k →
        IsWellFormed vars (unfolding_of s) k }
{}

/// The walk over a type finds a kind exactly where the type is well formed and of that kind, and a fault exactly where
/// it is the first one: what is asked fails so, and all that is asked before it holds.
pub fn walk_law()
    ensures kinds { (vars : List Kind) (t : Tree) (k : Kind) → IsScoped 0 t → IsSorted t →
        (walk vars t ≡ Ok k) ↔ IsWellFormed vars t k }
    ensures faults { (vars : List Kind) (t : Tree) (f : KindFault) →
        (walk vars t ≡ Err f) ↔ IsFirstFault vars t f }
{}

/// An instance of a well-formed type is well formed, of a kind below that of the type. The types that are put for its
/// variables may hold variables of their own; those of a closing instantiation hold none.
pub fn instances_keep_kinds()
    ensures { (outer vars : List Kind) (args : List Tree) (t : Tree) (k : Kind) →
        IsInstantiation outer vars args → IsWellFormed vars t k →
        IsInstance outer k (instantiated args t) }
{}

/// An instance of a type without variables is the type itself; instantiating goes through substitution and unfolding;
/// and types that are put for variables may be instantiated before they are put there or after.
pub fn instantiation_law()
    ensures closed { (args : List Tree) (t : Tree) (k : Kind) → HasKind [] t k →
        instantiated args t ≡ t }
    ensures substitution { (outer vars : List Kind) (args : List Tree) →
        IsInstantiation outer vars args →
        (env : List (Option Tree)) (t : Tree) →
        instantiated args (substitute env t) ≡ substitute (instantiated_env args env)
        (instantiated args t) }
    ensures unfoldings { (outer vars : List Kind) (args : List Tree) →
        IsInstantiation outer vars args →
        (s : Tree) → instantiated args (unfolding_of s) ≡ unfolding_of (instantiated args s) }
    ensures again { (outer vars : List Kind) (args : List Tree) → IsInstantiation outer vars args →
        (more : List Tree) (t : Tree) (k : Kind) → HasKind vars t k →
        instantiated more (instantiated args t) ≡ instantiated (map (instantiated more) args) t }
    ensures composed { (last outer vars : List Kind) (more args : List Tree) →
        IsInstantiation last outer more → IsInstantiation outer vars args →
        IsInstantiation last vars (map (instantiated more) args) }
{}
