//! What is found of two pruned words within a budget.

ghost use Rattle.std.specs.Prelude.{◌≡◌, ◌≤◌, ◌↔◌, IfNone, IfOk, IfSome, IsTrue, false, length};
ghost use Rattle.fst_base.specs.Agreement.{HaveSameTraces};
ghost use Rattle.fst_base.specs.Order.{IsRising};
ghost use Rattle.fst_types.specs.Order.{label_cmp};
ghost use Rattle.fst_words.specs.Words.{InRange, LettersBelow, WordBelow, step};
ghost use Rattle.fst_norms.specs.Pruned.{AreUnnormed};
ghost use Rattle.fst_basis.specs.Basis.{IsProof};
ghost use Rattle.fst_breadth.specs.Answer.{IfSpent};
ghost use Rattle.fst_expand.specs.Good.{AreGoodCuts, IsGood};
ghost use Rattle.fst_equiv.specs.Findings.{IsFinding};
ghost use Rattle.fst_equiv.specs.Problem.{IsNormedWithin};

use fst_basis::{Proof, check};
use fst_breadth::{Found, least, search};
use fst_expand::expand;
use fst_normed::{Decision, decide};
use fst_norms::is_normed;
use fst_types::{Label, Side};
use fst_words::{Grammar, Word};
use std::alloc::{AllocError, Global};

/// What shows how two words compare.
#[derive(Drop)]
pub(crate) enum Finding {
    /// A basis with chains, by which they perform the same traces.
    Proved(Proof),
    /// The least trace that one of them alone performs, and whose it is, in a grammar whose non-terminals all have norms.
    Least(Vec<Label>, Side),
    /// What the search finds.
    Searched(Found),
}

/// How two words compare: by what `decide` finds where all non-terminals have norms and the budget is at least the square of their
/// number, else by their cuts, and else by the search.
pub(crate) fn find(
    alloc: Global,
    g: &Grammar,
    unnormed: &[bool],
    u: &Word,
    v: &Word,
    budget: u32,
) -> Result<Finding, AllocError>
    requires grammar { InRange g.now.rules.items }
    requires letters { LettersBelow (length g.now.letters.items) g.now.rules.items }
    requires rising { IsRising label_cmp g.now.letters.items }
    requires left { WordBelow (length g.now.rules.items) u.now }
    requires right { WordBelow (length g.now.rules.items) v.now }
    requires unnormed { AreUnnormed g.now.rules.items unnormed.now }
    requires budget { 1 ≤ budget }
    ensures { IfOk result (IsFinding g.now.rules.items unnormed.now g.now.letters.items u.now v.now
        budget) }
{
    let normed = is_normed_within(alloc, g, budget)?;
    if normed {
        if let Some(finding) = decided(alloc, g, unnormed, u, v, budget) {
            return Ok(finding);
        }
    }
    let finding = expanded(alloc, g, unnormed, u, v, budget, normed)?;
    Ok(finding)
}

// Whether all non-terminals have norms below 2^63, and the budget is at least the square of their number. Where it is less, no norm is
// computed.
fn is_normed_within(alloc: Global, g: &Grammar, budget: u32) -> Result<bool, AllocError>
    requires { InRange g.now.rules.items }
    ensures { IfOk result (λ b. IsTrue b ↔ IsNormedWithin g.now.rules.items budget) }
{
    let count = g.rules.len() as u64;
    if count.saturating_mul(count) > u64::from(budget) {
        return Ok(false);
    }
    let normed = is_normed(alloc, g)?;
    Ok(normed)
}

// What `decide` and `least` find, or none where the rewrites of `decide` are spent or they want memory, as `least` does past its limit.
fn decided(
    alloc: Global,
    g: &Grammar,
    unnormed: &[bool],
    u: &Word,
    v: &Word,
    budget: u32,
) -> Option<Finding>
    requires grammar { InRange g.now.rules.items }
    requires letters { LettersBelow (length g.now.letters.items) g.now.rules.items }
    requires rising { IsRising label_cmp g.now.letters.items }
    requires left { WordBelow (length g.now.rules.items) u.now }
    requires right { WordBelow (length g.now.rules.items) v.now }
    requires unnormed { AreUnnormed g.now.rules.items unnormed.now }
    requires normed { IsNormedWithin g.now.rules.items budget }
    ensures { IfSome result (IsFinding g.now.rules.items unnormed.now g.now.letters.items u.now
        v.now budget) }
{
    match decide(alloc, g, u, v) {
        Ok(Decision::Alike(proof)) => Some(Finding::Proved(proof)),
        Ok(Decision::Different) => match least(alloc, g, u, v) {
            Ok((trace, side)) => Some(Finding::Least(trace, side)),
            Err(AllocError) => None,
        },
        Ok(Decision::Spent) => None,
        Err(AllocError) => None,
    }
}

// What the cuts of two words show, and else the search. Where the grammar is normed within the budget, a search that is spent is want of
// memory.
fn expanded(
    alloc: Global,
    g: &Grammar,
    unnormed: &[bool],
    u: &Word,
    v: &Word,
    budget: u32,
    normed: bool,
) -> Result<Finding, AllocError>
    requires grammar { InRange g.now.rules.items }
    requires letters { LettersBelow (length g.now.letters.items) g.now.rules.items }
    requires rising { IsRising label_cmp g.now.letters.items }
    requires left { WordBelow (length g.now.rules.items) u.now }
    requires right { WordBelow (length g.now.rules.items) v.now }
    requires unnormed { AreUnnormed g.now.rules.items unnormed.now }
    requires budget { 1 ≤ budget }
    requires normed { IsTrue normed ↔ IsNormedWithin g.now.rules.items budget }
    ensures { IfOk result (IsFinding g.now.rules.items unnormed.now g.now.letters.items u.now v.now
        budget) }
{
    if let Some(proof) = proof_of(alloc, g, unnormed, u, v, budget)? {
        return Ok(Finding::Proved(proof));
    }
    let found = search(alloc, g, unnormed, u, v, budget)?;
    if normed && is_spent(&found) {
        return Err(AllocError);
    }
    Ok(Finding::Searched(found))
}

fn is_spent(found: &Found) -> bool
    ensures { result ≡ false → IfSpent found.now (λ pairs. ⊥) }
{
    matches!(found, Found::Spent(_))
}

// The cuts of two words as a basis with chains, which `check` accepts, or none where the cuts aren't good at the budget.
fn proof_of(
    alloc: Global,
    g: &Grammar,
    unnormed: &[bool],
    u: &Word,
    v: &Word,
    budget: u32,
) -> Result<Option<Proof>, AllocError>
    requires grammar { InRange g.now.rules.items }
    requires letters { LettersBelow (length g.now.letters.items) g.now.rules.items }
    requires left { WordBelow (length g.now.rules.items) u.now }
    requires right { WordBelow (length g.now.rules.items) v.now }
    requires unnormed { AreUnnormed g.now.rules.items unnormed.now }
    requires budget { 1 ≤ budget }
    ensures proof { IfOk result (λ o. IfSome o
        (λ p. IsProof (length g.now.letters.items) g.now.rules.items
        unnormed.now u.now v.now p.basis.items p.chains.items)) }
    ensures same { IfOk result (λ o. IfSome o
        (λ p. HaveSameTraces (step g.now.rules.items) (step g.now.rules.items)
        u.now v.now)) }
    ensures good { IfOk result (λ o. IfSome o
        (λ p. AreGoodCuts g.now.rules.items unnormed.now u.now v.now budget
        p.basis.items)) }
    ensures none { IfOk result (λ o. IfNone o
        (IsGood g.now.rules.items unnormed.now u.now v.now budget → ⊥)) }
{
    match expand(alloc, g, unnormed, u, v, budget)? {
        Some(proof) => {
            let basis = proof.basis.as_slice();
            let is_proof = check(alloc, g, unnormed, u, v, basis, proof.chains.as_slice())?;
            if is_proof { Ok(Some(proof)) } else { Ok(None) }
        }
        None => Ok(None),
    }
}
