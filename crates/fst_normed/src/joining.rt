//! Joining two words by their heads.

ghost use Rattle.std.specs.Prelude.{◌≡◌, ◌<◌, ◌+◌, ◌*◌, ◌++◌, ◌∷◌, ◌^◌, ◌⊎◌, [], ℕ, List, Option, Some, All, IfErr, IfNone, IfOk, IfSome, OnOk, length, reverse, slice_get};
ghost use Rattle.fst_words.specs.Words.{WordBelow};
ghost use Rattle.fst_norms.specs.Bounds.{total};
ghost use Rattle.fst_normed.specs.Candidates.{AreCandidates, IsCandidate, IsThere, residual};
ghost use Rattle.fst_normed.specs.Closing.{AreNoted};
ghost use Rattle.fst_normed.specs.Joining.{AreJoinedByHeads, exchanged, exchanges};
ghost use Rattle.fst_norms.specs.Lowering.{LowerByOne};
ghost use Rattle.fst_normed.specs.Stops.{Shows};
ghost use Rattle.fst_normed.specs.Walks.{IsPopped, IsUnderwayIn, IsUnderwayWith, Leads, rewrites_in};

use crate::candidates::Candidates;
use crate::lowering::residual;
use crate::stop::Stop;
use fst_basis::Rewrite;
use fst_norms::norm_of;
use fst_words::{Word, push_word};
use std::alloc::{AllocError, Global};

/// How far two words are joined: what is left of each, the first non-terminal last; the heads that both have in front of that; the rewrites
/// that lead to the left one, and those that lead on from the right one, the last one first.
#[derive(Drop)]
pub(crate) struct Walk {
    left: Vec<u32>,
    right: Vec<u32>,
    front: Vec<u32>,
    before: Vec<Rewrite>,
    after: Vec<Rewrite>,
}

// Takes one off the rewrites that may still be made, if any may.
fn spend(rewrites: &mut u64) -> Result<(), Stop>
    ensures ok { OnOk result (rewrites.old ≡ rewrites.new + 1) }
    ensures stopped { IfErr result (λ s. Shows s ⊥ (rewrites.old ≡ 0)) }
{
    let Some(rest) = rewrites.checked_sub(1) else {
        return Err(Stop::Spent);
    };
    *rewrites = rest;
    Ok(())
}

// Puts what Y becomes by as many steps as the norm of X on a stack, and gives the place of their candidate, which is needed from now on.
// That is for one rewrite.
fn exchange(
    alloc: Global,
    norms: &[Option<u64>],
    words: &[Word],
    needed: &mut Candidates,
    x: u32,
    y: u32,
    stack: &mut Vec<u32>,
    rewrites: &mut u64,
) -> Result<u32, Stop>
    requires candidate { IsCandidate (length words.now) norms.now (x, y) }
    requires words { All (WordBelow (length words.now)) words.now }
    requires count { length norms.now ≡ length words.now }
    requires lowering { LowerByOne norms.now words.now }
    requires few { length words.now * length words.now < 2 ^ 32 }
    requires are { AreCandidates (length words.now) norms.now needed.old }
    ensures place { IfOk result (λ at. slice_get needed.new at ≡ Some (x, y)) }
    ensures noted { OnOk result (AreNoted (length words.now) norms.now needed.old needed.new
        (λ c. (x, y) ≡ c)) }
    ensures spent { OnOk result (rewrites.old ≡ rewrites.new + 1) }
    ensures stopped { IfErr result (λ s. Shows s ⊥ (rewrites.old ≡ 0)) }
    ensures stack { OnOk result (reverse stack.new.items ≡ residual norms.now words.now x y ++
        reverse stack.old.items) }
    ensures below { OnOk result (WordBelow (length words.now) (residual norms.now words.now x y)) }
{
    spend(rewrites)?;
    let at = needed.place_of(x, y)?;
    let rest = residual(alloc, norms, words, x, y)?;
    push_word(stack, &rest)?;
    Ok(at as u32)
}

// Drops the heads of two words, which are these and stand in front of what is left.
fn drop_heads(
    alloc: Global,
    norms: &[Option<u64>],
    words: &[Word],
    needed: &mut Candidates,
    walk: &mut Walk,
    n: u32,
    m: u32,
    rewrites: &mut u64,
) -> Result<(), Stop>
    requires n { n < length words.now }
    requires m { m < length words.now }
    requires words { All (WordBelow (length words.now)) words.now }
    requires count { length norms.now ≡ length words.now }
    requires lowering { LowerByOne norms.now words.now }
    requires few { length words.now * length words.now < 2 ^ 32 }
    requires are { AreCandidates (length words.now) norms.now needed.old }
    ensures underway { OnOk result ((x y : List ℕ) →
        IsUnderwayWith norms.now words.now needed.old x y walk.old n m →
        IsUnderwayIn norms.now words.now needed.new x y walk.new) }
    ensures noted { OnOk result (AreNoted (length words.now) norms.now needed.old needed.new
        (IsThere (exchanged norms.now n m))) }
    ensures spent { OnOk result (rewrites_in walk.new + rewrites.new ≡ rewrites_in walk.old
        + rewrites.old) }
    ensures less { OnOk result (total norms.now (reverse walk.new.left.items) < total norms.now
        (n ∷ reverse walk.old.left.items)) }
    ensures stopped { IfErr result (λ s. Shows s ⊥
        (rewrites.old < length (exchanged norms.now n m))) }
{
    if n == m {
        walk.front.push(n)?;
        return Ok(());
    }
    let at = walk.front.len() as u64;
    if norm_of(norms, n) <= norm_of(norms, m) {
        let stack = &mut walk.right;
        let pair = exchange(alloc, norms, words, needed, n, m, stack, rewrites)?;
        walk.after.push(Rewrite::Back { at, pair })?;
        walk.front.push(n)?;
        return Ok(());
    }
    let stack = &mut walk.left;
    let pair = exchange(alloc, norms, words, needed, m, n, stack, rewrites)?;
    walk.before.push(Rewrite::Forth { at, pair })?;
    walk.front.push(m)?;
    Ok(())
}

// Takes the heads off both words, if each has one.
fn pop_heads(walk: &mut Walk) -> Option<(u32, u32)>
    ensures none { IfNone result (walk.new ≡ walk.old) }
    ensures empty { IfNone result ((reverse walk.old.left.items ≡ []) ⊎
        (reverse walk.old.right.items ≡ [])) }
    ensures some { IfSome result (IsPopped walk.old walk.new) }
{
    if walk.left.is_empty() || walk.right.is_empty() {
        return None;
    }
    let n = walk.left.pop()?;
    let m = walk.right.pop()?;
    Some((n, m))
}

// The rewrites, once nothing is left of both words.
fn finish(walk: Walk) -> Result<Vec<Rewrite>, Stop>
    requires { (reverse walk.left.items ≡ []) ⊎ (reverse walk.right.items ≡ []) }
    ensures leads { IfOk result (λ steps. (norms : List (Option ℕ)) (words : List (List ℕ))
        (candidates : List (ℕ × ℕ)) (x y : List ℕ) →
        IsUnderwayIn norms words candidates x y walk →
        Leads norms words candidates steps.items x y) }
    ensures count { IfOk result (λ steps. length steps.items ≡ rewrites_in walk) }
    ensures stopped { IfErr result (λ s. Shows s
        ((norms : List (Option ℕ)) (words : List (List ℕ)) →
        AreJoinedByHeads norms words (reverse walk.left.items) (reverse walk.right.items) → ⊥) ⊥) }
{
    if !walk.left.is_empty() || !walk.right.is_empty() {
        return Err(Stop::Difference);
    }
    let mut steps = walk.before;
    let mut after = walk.after;
    after.reverse();
    steps.append(&mut after)?;
    Ok(steps)
}

// Nothing of these words is joined yet.
fn start(alloc: Global, left: &[u32], right: &[u32]) -> Result<Walk, AllocError>
    ensures left { IfOk result (λ w. reverse w.left.items ≡ left.now) }
    ensures right { IfOk result (λ w. reverse w.right.items ≡ right.now) }
    ensures front { IfOk result (λ w. w.front.items ≡ []) }
    ensures before { IfOk result (λ w. w.before.items ≡ []) }
    ensures after { IfOk result (λ w. w.after.items ≡ []) }
{
    let mut walk = Walk {
        left: Vec::new(alloc),
        right: Vec::new(alloc),
        front: Vec::new(alloc),
        before: Vec::new(alloc),
        after: Vec::new(alloc),
    };
    push_word(&mut walk.left, left)?;
    push_word(&mut walk.right, right)?;
    Ok(walk)
}

/// The rewrites that lead from one word to another, by candidates that are needed from now on. As many rewrites as are made are taken off
/// those that may still be made. It stops where the words aren't joined by their heads.
pub(crate) fn join(
    alloc: Global,
    norms: &[Option<u64>],
    words: &[Word],
    needed: &mut Candidates,
    left: &[u32],
    right: &[u32],
    rewrites: &mut u64,
) -> Result<Vec<Rewrite>, Stop>
    requires left { WordBelow (length words.now) left.now }
    requires right { WordBelow (length words.now) right.now }
    requires words { All (WordBelow (length words.now)) words.now }
    requires count { length norms.now ≡ length words.now }
    requires lowering { LowerByOne norms.now words.now }
    requires few { length words.now * length words.now < 2 ^ 32 }
    requires are { AreCandidates (length words.now) norms.now needed.old }
    ensures leads { IfOk result (λ steps.
        Leads norms.now words.now needed.new steps.items left.now right.now) }
    ensures noted { OnOk result (AreNoted (length words.now) norms.now needed.old needed.new
        (IsThere (exchanges norms.now words.now left.now right.now))) }
    ensures spent { IfOk result (λ steps. length steps.items + rewrites.new ≡ rewrites.old) }
    ensures count { IfOk result (λ steps.
        length steps.items ≡ length (exchanges norms.now words.now left.now right.now)) }
    ensures stopped { IfErr result (λ s. Shows s
        (AreJoinedByHeads norms.now words.now left.now right.now → ⊥)
        (rewrites.old < length (exchanges norms.now words.now left.now right.now))) }
{
    let mut walk = start(alloc, left, right)?;
    while let Some((n, m)) = pop_heads(&mut walk) {
        drop_heads(alloc, norms, words, needed, &mut walk, n, m, rewrites)?;
    }
    let steps = finish(walk)?;
    Ok(steps)
}
