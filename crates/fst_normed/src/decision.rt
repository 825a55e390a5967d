//! Whether two words of a normed grammar perform the same traces.

ghost use Rattle.std.specs.Prelude.{◌≡◌, ◌<◌, ◌≤◌, ◌*◌, ◌^◌, ℕ, List, Bool, All, IfOk, length};
ghost use Rattle.fst_words.specs.Ordered.{AreOrdered};
ghost use Rattle.fst_words.specs.Words.{InRange, LettersBelow, WordBelow, row_of};
ghost use Rattle.fst_words.specs.Marks.{IsUnnormedSet};
ghost use Rattle.fst_words.specs.Differences.{Differ};
ghost use Rattle.fst_base.specs.Limits.{most_rewrites};
ghost use Rattle.fst_basis.specs.Basis.{IsProof};
ghost use Rattle.fst_norms.specs.Lowering.{LowerByOne};
ghost use Rattle.fst_norms.specs.Norms.{IsNormed};
ghost use Rattle.fst_normed.specs.Candidates.{AreCandidates, candidate};
ghost use Rattle.fst_normed.specs.Closing.{rewrites_of};
ghost use Rattle.fst_normed.specs.Decisions.{IfAlike, IfDifferent, IfSpent};
ghost use Rattle.fst_normed.specs.Needs.{TakesMore};
ghost use Rattle.fst_normed.specs.Walks.{pairs_of};

use crate::answers::Decision;
use crate::candidates::Candidates;
use crate::closing::close;
use crate::lowering::residual;
use crate::stop::Stop;
use fst_base::MOST_REWRITES;
use fst_basis::{Pair, Proof};
use fst_norms::{lowering_words, norms};
use fst_words::{Grammar, Word};
use std::alloc::{AllocError, Global};

// Law: the rules of each non-terminal are in order.
fn each_in_order(g: &Grammar)
    ensures { (n : ℕ) → AreOrdered (row_of g.now.rules.items n) }
{
    for rules in &g.rules {
        let _rules = rules.as_slice();
    }
}

// The pair of a candidate.
fn pair_of(
    alloc: Global,
    norms: &[Option<u64>],
    words: &[Word],
    x: u32,
    y: u32,
) -> Result<Pair, AllocError>
    requires x { x < length words.now }
    requires y { y < length words.now }
    requires words { All (WordBelow (length words.now)) words.now }
    requires count { length norms.now ≡ length words.now }
    requires lowering { LowerByOne norms.now words.now }
    ensures { IfOk result (λ b. b ≡ candidate norms.now words.now (x, y)) }
{
    let rest = residual(alloc, norms, words, x, y)?;
    Ok(Pair {
        left: Word::of(alloc, &[y])?,
        right: Word::concat(alloc, &[x], &rest)?,
    })
}

// The pairs of candidates.
fn pairs_of(
    alloc: Global,
    norms: &[Option<u64>],
    words: &[Word],
    needed: &Candidates,
) -> Result<Vec<Pair>, AllocError>
    requires words { All (WordBelow (length words.now)) words.now }
    requires count { length norms.now ≡ length words.now }
    requires lowering { LowerByOne norms.now words.now }
    requires candidates { AreCandidates (length words.now) norms.now needed.now }
    ensures { IfOk result (λ pairs. pairs.items ≡ pairs_of norms.now words.now needed.now) }
{
    let mut pairs = Vec::new(alloc);
    for at in 0..needed.len() {
        let (x, y) = needed.get(at);
        pairs.push(pair_of(alloc, norms, words, x, y)?)?;
    }
    Ok(pairs)
}

/// Whether two words perform the same traces, by pairs and chains that show it, or that some trace is performed by one of them alone; or that
/// it takes more rewrites than the limit to say. The pairs are at most as many as pairs of non-terminals, all of which have norms; whatever is
/// marked, they are a basis.
pub fn decide(alloc: Global, g: &Grammar, u: &Word, v: &Word) -> Result<Decision, AllocError>
    requires grammar { InRange g.now.rules.items }
    requires letters { LettersBelow (length g.now.letters.items) g.now.rules.items }
    requires left { WordBelow (length g.now.rules.items) u.now }
    requires right { WordBelow (length g.now.rules.items) v.now }
    requires normed { IsNormed g.now.rules.items }
    requires few { length g.now.rules.items * length g.now.rules.items < 2 ^ 32 }
    ensures proof { IfOk result (λ d. IfAlike d
        (λ p. (marks : List Bool) → length marks ≡ length g.now.rules.items →
        IsUnnormedSet g.now.rules.items marks →
        IsProof (length g.now.letters.items) g.now.rules.items marks u.now v.now p.basis.items
        p.chains.items)) }
    ensures count { IfOk result (λ d. IfAlike d
        (λ p. length p.basis.items ≤ length g.now.rules.items * length g.now.rules.items)) }
    ensures rewrites { IfOk result (λ d. IfAlike d
        (λ p. rewrites_of p.chains.items ≤ most_rewrites)) }
    ensures different { IfOk result (λ d. IfDifferent d (Differ g.now.rules.items u.now v.now)) }
    ensures spent { IfOk result (λ d. IfSpent d
        (TakesMore g.now.rules.items u.now v.now most_rewrites)) }
{
    each_in_order(g);
    let mut rewrites = MOST_REWRITES;
    let norms = norms(alloc, g)?;
    let words = lowering_words(alloc, g, &norms)?;
    let outcome = close(
        alloc,
        g,
        &norms,
        &words,
        u.as_slice(),
        v.as_slice(),
        &mut rewrites,
    );
    match outcome {
        Ok(closed) => {
            let basis = pairs_of(alloc, &norms, &words, &closed.needed)?;
            let chains = closed.chains;
            Ok(Decision::Alike(Proof { basis, chains }))
        }
        Err(Stop::Difference) => Ok(Decision::Different),
        Err(Stop::Spent) => Ok(Decision::Spent),
        Err(Stop::Memory) => Err(AllocError),
    }
}
