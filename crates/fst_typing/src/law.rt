ghost use Rattle.std.specs.Prelude.{ℕ, List};
ghost use Rattle.fst_types.specs.declared.kind.Kind.{Kind};
ghost use Rattle.fst_terms.specs.declared.core_module.Module.{Module};
ghost use Rattle.fst_derivations.specs.Deriv.{Deriv};
ghost use Rattle.fst_derivations.specs.Modules.{HasDerivations};
ghost use Rattle.fst_typing.specs.Checked.{IsAccepted};
ghost use Rattle.fst_typing.specs.Laws.{AcceptedIsNotRefused, AcceptedIsWithin, DerivedHasPlain, OneRefusal, RefusedHasNone, WithinIsNotRefused};
ghost use Rattle.fst_derivations.specs.Parts.{IsConversion};
ghost use Rattle.fst_derivations.specs.Laws.{IsTypeEquality};

use fst_derivations::{plain_derivation_law, plain_types_are_unique};
use fst_equiv::{comparison_law, one_outcome};
use fst_kinds::walk_law;

/// Equality of types is what derivations ask of it, so a term that has a derivation has a plain one.
pub fn equality_law()
    ensures { (vars : List Kind) → IsTypeEquality vars (IsConversion vars) }
{}

/// The plain derivations with which a module is accepted are its derivations.
pub fn accepted_law()
    ensures { (m : Module) (budget : ℕ) (ds : List Deriv) → IsAccepted m budget ds →
        HasDerivations m ds }
{}

/// A module that has derivations has plain ones; and one of which a refusal is shown, other than for an undecided question or
/// for a size, has none.
pub fn refusal_law()
    ensures plain { DerivedHasPlain }
    ensures refused { RefusedHasNone }
{
    comparison_law();
    plain_types_are_unique();
    plain_derivation_law();
}

/// A module with plain derivations whose types are within their size, and whose questions are answered within the budget,
/// isn't refused; and each accepted module has such derivations.
pub fn complete_law()
    ensures complete { WithinIsNotRefused }
    ensures accepted { AcceptedIsWithin }
{
    comparison_law();
    one_outcome();
    plain_types_are_unique();
}

/// A module is refused in one way at most, and one that is accepted isn't refused.
pub fn one_refusal_law()
    ensures one { OneRefusal }
    ensures apart { AcceptedIsNotRefused }
{
    walk_law();
    one_outcome();
    plain_types_are_unique();
}
