ghost use Rattle.std.specs.Prelude.{◌≡◌, ◌≤◌, ◌++◌, ◌∷◌, [], ℕ, IfOk, IfErr, List};
ghost use Rattle.fst_types.specs.declared.kind.Kind.{Kind};
ghost use Rattle.fst_kinds.specs.WellFormed.{IsSession};
ghost use Rattle.fst_parts.specs.Same.{same_base, same_use};
ghost use Rattle.fst_equiv.specs.Comparison.{asked, is_part, unless_same, comparisons, ComesTo, ComesToTooLarge, IsComparison, IsTooLargeComparison, AreFormed, AreEqual};
ghost use Rattle.fst_equiv.specs.declared.fault.EquivFault.TheVariants.{TooLarge};
ghost use Rattle.fst_equiv.specs.declared.comparing.Same.TheVariants.{Yes};

use crate::asking::ask;
use crate::fault::EquivFault;
use crate::verdict::Verdict;
use fst_shared::SharedPair;
use fst_types::{Base, Label, Side, Ty, TyForm, Use, same};
use fst_words::Grammar;
use std::alloc::Global;

/// How two types of any shape compare.
#[derive(Drop)]
pub enum Same {
    /// They are equal.
    Yes,
    /// The first parts that aren't equal differ in their form.
    Shape,
    /// The least trace that exactly one side performs of the first parts that aren't equal, and that side.
    Word(Vec<Label>, Side),
    /// The question of the first parts that aren't known to be equal has more pairs than the budget, and no basis within it: its
    /// grammar, and as many pairs as the budget.
    Undecided(Grammar, Vec<SharedPair>),
}

/// How two types compare: node by node from the root, the left part before the right. Two session types or variables are
/// equal without a question where they are the same tree, and else asked within the budget; the first parts that aren't equal
/// decide.
#[cycle(same_type)]
pub fn same_type(alloc: Global, t: &Ty, u: &Ty, budget: u32) -> Result<Same, EquivFault>
    requires budget { 1 ≤ budget }
    requires formed { AreFormed t.now u.now }
    ensures answer { IfOk result (λ same. IsComparison t.now u.now budget same) }
    ensures equal { IfOk result (λ same. same ≡ Yes → AreEqual t.now u.now) }
    ensures too_large { IfErr result (λ f. f ≡ TooLarge → IsTooLargeComparison t.now u.now budget) }
{
    if is_part(t) && is_part(u) {
        return same_part(alloc, t, u, budget);
    }
    match (&t.form, &u.form) {
        (TyForm::Plain(b), TyForm::Plain(c)) => Ok(unless_same(same_base(*b, *c))),
        (TyForm::Arrow(uses, from, to), TyForm::Arrow(others, domain, codomain)) => {
            if same_use(*uses, *others) {
                same_parts(alloc, from, domain, to, codomain, budget)
            } else {
                Ok(Same::Shape)
            }
        }
        (TyForm::Pair(first, second), TyForm::Pair(left, right)) => {
            same_parts(alloc, first, left, second, right, budget)
        }
        (TyForm::Named(k), TyForm::Named(l)) => Ok(unless_same(*k == *l)),
        _ => Ok(Same::Shape),
    }
}

/// How the first two types compare, and where these are equal, the second two.
#[cycle(same_type)]
fn same_parts(
    alloc: Global,
    left_first: &Ty,
    right_first: &Ty,
    left_second: &Ty,
    right_second: &Ty,
    budget: u32,
) -> Result<Same, EquivFault>
    requires budget { 1 ≤ budget }
    requires first_formed { AreFormed left_first.now right_first.now }
    requires second_formed { AreFormed left_second.now right_second.now }
    ensures answer { IfOk result (λ same. ComesTo
        (comparisons left_first.now right_first.now ++ comparisons left_second.now right_second.now)
        budget same) }
    ensures too_large { IfErr result (λ f. f ≡ TooLarge →
        ComesToTooLarge (comparisons left_first.now right_first.now ++ comparisons left_second.now
        right_second.now) budget) }
{
    match same_type(alloc, left_first, right_first, budget)? {
        Same::Yes => same_type(alloc, left_second, right_second, budget),
        other => Ok(other),
    }
}

/// How two session types or variables compare.
fn same_part(alloc: Global, t: &Ty, u: &Ty, budget: u32) -> Result<Same, EquivFault>
    requires session_left { (vars : List Kind) × IsSession vars t.now }
    requires session_right { (vars : List Kind) × IsSession vars u.now }
    requires budget { 1 ≤ budget }
    ensures answer { IfOk result (λ same. ComesTo (asked t.now u.now ∷ []) budget same) }
    ensures too_large { IfErr result (λ f. f ≡ TooLarge →
        ComesToTooLarge (asked t.now u.now ∷ []) budget) }
{
    if same(t, u) {
        return Ok(Same::Yes);
    }
    match ask(alloc, t, u, budget)? {
        Verdict::Yes(_) => Ok(Same::Yes),
        Verdict::No(trace, side) => Ok(Same::Word(trace, side)),
        Verdict::Undecided(g, pairs) => Ok(Same::Undecided(g, pairs)),
    }
}

/// That two nodes without parts are the same, or that they differ.
fn unless_same(is_same: bool) -> Same
    ensures { (budget : ℕ) → ComesTo (unless_same is_same) budget result }
{
    if is_same { Same::Yes } else { Same::Shape }
}

/// Whether two base types are the same.
fn same_base(b: Base, c: Base) -> bool
    ensures { result ≡ same_base b c }
{
    b == c
}

/// Whether two uses are the same.
fn same_use(u: Use, v: Use) -> bool
    ensures { result ≡ same_use u v }
{
    u == v
}

/// Whether a type is a session type or a variable, told by its form.
fn is_part(t: &Ty) -> bool
    ensures { result ≡ is_part t.now }
{
    match &t.form {
        TyForm::Skip => true,
        TyForm::Send(_) => true,
        TyForm::Receive(_) => true,
        TyForm::Close => true,
        TyForm::Wait => true,
        TyForm::Select(_) => true,
        TyForm::Offer(_) => true,
        TyForm::Seq(_, _) => true,
        TyForm::Rec(_) => true,
        TyForm::Back(_) => true,
        TyForm::Var(_) => true,
        TyForm::Plain(_) => false,
        TyForm::Arrow(_, _, _) => false,
        TyForm::Pair(_, _) => false,
        TyForm::Named(_) => false,
    }
}
