//! Looking at each candidate that is needed, once.

ghost use Rattle.std.specs.Prelude.{◌≡◌, ◌<◌, ◌+◌, ◌*◌, ◌++◌, ◌^◌, List, All, IfErr, IfOk, OnOk, length};
ghost use Rattle.fst_words.specs.Ordered.{AreOrdered};
ghost use Rattle.fst_words.specs.Words.{InRange, Productions, WordBelow, row_of};
ghost use Rattle.fst_words.specs.Differences.{Differ};
ghost use Rattle.fst_basis.specs.declared.proof.Chain.{Chain};
ghost use Rattle.fst_norms.specs.Lowering.{LowerByOne};
ghost use Rattle.fst_normed.specs.Candidates.{AreCandidates, CandidateDiffers};
ghost use Rattle.fst_normed.specs.Closing.{AreNoted, AreToldApart, Holds, IsClosed, IsExchangedInTurn, LeadInTurn, rewrites_of};
ghost use Rattle.fst_normed.specs.Needs.{Needs, TakesMore, rewrites_at, rewrites_in_turn};
ghost use Rattle.fst_normed.specs.Normed.{IsNormedGrammar};
ghost use Rattle.fst_normed.specs.Stops.{Shows};

use crate::candidates::Candidates;
use crate::joining::join;
use crate::lowering::residual;
use crate::stop::Stop;
use fst_basis::{Chain, same_letters};
use fst_words::{Grammar, Rule, Word};
use std::alloc::Global;

// The rules of a non-terminal.
fn rules_of(g: &Grammar, n: u32) -> &[Rule]
    requires range { InRange g.now.rules.items }
    requires within { n < length g.now.rules.items }
    ensures row { result.now ≡ row_of g.now.rules.items n }
    ensures ordered { AreOrdered result.now }
    ensures below { All (λ r. WordBelow (length g.now.rules.items) r.word) result.now }
{
    g.rules[n as usize].as_slice()
}

// Joins the words of rules, one after the other, to those of other rules with this word behind them.
fn join_rules(
    alloc: Global,
    norms: &[Option<u64>],
    words: &[Word],
    needed: &mut Candidates,
    rules: &[Rule],
    others: &[Rule],
    tail: &[u32],
    chains: &mut Vec<Chain>,
    rewrites: &mut u64,
) -> Result<(), Stop>
    requires rules { All (λ r. WordBelow (length words.now) r.word) rules.now }
    requires others { All (λ r. WordBelow (length words.now) r.word) others.now }
    requires tail { WordBelow (length words.now) tail.now }
    requires same { length rules.now ≡ length others.now }
    requires words { All (WordBelow (length words.now)) words.now }
    requires count { length norms.now ≡ length words.now }
    requires lowering { LowerByOne norms.now words.now }
    requires few { length words.now * length words.now < 2 ^ 32 }
    requires are { AreCandidates (length words.now) norms.now needed.old }
    ensures lead { OnOk result ((cs : List Chain) × (chains.new.items ≡ chains.old.items ++ cs) ×
        LeadInTurn norms.now words.now needed.new rules.now others.now tail.now cs) }
    ensures noted { OnOk result (AreNoted (length words.now) norms.now needed.old needed.new
        (IsExchangedInTurn norms.now words.now rules.now others.now tail.now)) }
    ensures made { OnOk result (rewrites_of chains.new.items + rewrites.new ≡ rewrites_of
        chains.old.items + rewrites.old) }
    ensures spent { OnOk result (rewrites_in_turn norms.now words.now rules.now others.now tail.now
        + rewrites.new ≡ rewrites.old) }
    ensures stopped { IfErr result (λ s. Shows s
        (AreToldApart norms.now words.now rules.now others.now tail.now)
        (rewrites.old < rewrites_in_turn norms.now words.now rules.now others.now tail.now)) }
{
    for (i, rule) in rules.iter().enumerate() {
        let to = Word::concat(alloc, others[i].word.as_slice(), tail)?;
        let from = rule.word.as_slice();
        let steps = join(alloc, norms, words, needed, from, to.as_slice(), rewrites)?;
        chains.push(Chain { steps })?;
    }
    Ok(())
}

// Looks at the candidate of two non-terminals: its words perform the same letters, and what they become by each is joined, by chains that
// are added. It stops where the words of the candidate differ.
fn look(
    alloc: Global,
    g: &Grammar,
    norms: &[Option<u64>],
    words: &[Word],
    needed: &mut Candidates,
    x: u32,
    y: u32,
    chains: &mut Vec<Chain>,
    rewrites: &mut u64,
) -> Result<(), Stop>
    requires range { InRange g.now.rules.items }
    requires x { x < length g.now.rules.items }
    requires y { y < length g.now.rules.items }
    requires size { length words.now ≡ length g.now.rules.items }
    requires words { All (WordBelow (length words.now)) words.now }
    requires count { length norms.now ≡ length words.now }
    requires lowering { LowerByOne norms.now words.now }
    requires few { length words.now * length words.now < 2 ^ 32 }
    requires are { AreCandidates (length words.now) norms.now needed.old }
    ensures holds { OnOk result ((cs : List Chain) × (chains.new.items ≡ chains.old.items ++ cs) ×
        Holds g.now.rules.items norms.now words.now needed.new (x, y) cs) }
    ensures noted { OnOk result (AreNoted (length words.now) norms.now needed.old needed.new
        (Needs g.now.rules.items norms.now words.now (x, y))) }
    ensures made { OnOk result (rewrites_of chains.new.items + rewrites.new ≡ rewrites_of
        chains.old.items + rewrites.old) }
    ensures spent { OnOk result (rewrites_at g.now.rules.items norms.now words.now (x, y)
        + rewrites.new ≡ rewrites.old) }
    ensures stopped { IfErr result (λ s. Shows s
        (IsNormedGrammar g.now.rules.items norms.now words.now →
        CandidateDiffers g.now.rules.items norms.now words.now (x, y))
        (rewrites.old < rewrites_at g.now.rules.items norms.now words.now (x, y))) }
{
    let rules = rules_of(g, y);
    let others = rules_of(g, x);
    if !same_letters(rules, others) {
        return Err(Stop::Difference);
    }
    let tail = residual(alloc, norms, words, x, y)?;
    join_rules(
        alloc, norms, words, needed, rules, others, &tail, chains, rewrites,
    )?;
    Ok(())
}

/// The candidates that two words need, and chains: one that joins the words, and those by which the candidates hold.
#[derive(Drop)]
pub(crate) struct Closed {
    pub(crate) needed: Candidates,
    pub(crate) chains: Vec<Chain>,
}

/// Joins two words, and looks at each candidate that is needed until all hold. It stops where the words differ.
pub(crate) fn close(
    alloc: Global,
    g: &Grammar,
    norms: &[Option<u64>],
    words: &[Word],
    u: &[u32],
    v: &[u32],
    rewrites: &mut u64,
) -> Result<Closed, Stop>
    requires grammar { IsNormedGrammar g.now.rules.items norms.now words.now }
    requires left { WordBelow (length words.now) u.now }
    requires right { WordBelow (length words.now) v.now }
    requires words { All (WordBelow (length words.now)) words.now }
    requires lowering { LowerByOne norms.now words.now }
    requires few { length words.now * length words.now < 2 ^ 32 }
    ensures closed { IfOk result (λ c. IsClosed g.now.rules.items norms.now words.now u.now v.now
        c.needed c.chains.items) }
    ensures made { IfOk result (λ c. rewrites_of c.chains.items + rewrites.new ≡ rewrites.old) }
    ensures stopped { IfErr result (λ s. Shows s
        (Differ g.now.rules.items u.now v.now)
        (TakesMore g.now.rules.items u.now v.now rewrites.old)) }
{
    let mut needed = Candidates::new(alloc);
    let mut chains = Vec::new(alloc);
    let steps = join(alloc, norms, words, &mut needed, u, v, rewrites)?;
    chains.push(Chain { steps })?;
    let mut at = 0;
    while at < needed.len() {
        let (x, y) = needed.get(at);
        look(
            alloc,
            g,
            norms,
            words,
            &mut needed,
            x,
            y,
            &mut chains,
            rewrites,
        )?;
        at += 1;
    }
    Ok(Closed { needed, chains })
}
