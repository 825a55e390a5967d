//! Bases for two words, found by dropping heads.

ghost use Rattle.std.specs.Prelude.{◌≡◌, List, ℕ, ◌<◌, ◌≤◌, ◌^◌, [], IfNone, IfOk, IfSome, length, true, false};
ghost use Rattle.fst_words.specs.Words.{InRange, LettersBelow, WordBelow};
ghost use Rattle.fst_norms.specs.Pruned.{AreUnnormed};
ghost use Rattle.fst_basis.specs.Basis.{IsProof};
ghost use Rattle.fst_shared.specs.Numbers.{AreNumbered};
ghost use Rattle.fst_expand.specs.Bridge.{AreFit, HaveRoom};
ghost use Rattle.fst_expand.specs.Expansion.{AreSettled};
ghost use Rattle.fst_expand.specs.Good.{AreGoodCuts, IsGood};
ghost use Rattle.fst_expand.specs.Measures.{AreMeasures};

use crate::bridge::{Front, meet};
use crate::chaining::chains_of;
use crate::following::follow;
use crate::measures::Measures;
use crate::table::Table;
use fst_basis::Proof;
use fst_norms::{lowering_words, norms};
use fst_shared::word_numbers;
use fst_words::{Grammar, Word};
use std::alloc::{AllocError, Global};

// Adds the cuts that two words lead to, and says whether they are good at the budget. Where they aren't, not all of them are added.
fn spread(
    alloc: Global,
    m: &Measures<'_>,
    table: &mut Table,
    u: &[u32],
    v: &[u32],
    budget: usize,
) -> Result<bool, AllocError>
    requires measured { AreMeasures m.now.grammar.now.rules.items m.now.marks.now m.now.norms.now
        m.now.lowering.now }
    requires numbered { (words : List (List ℕ)) ×
        AreNumbered words m.now.grammar.now.rules.items m.now.numbers.now }
    requires empty { table.old.pairs ≡ [] }
    requires left { WordBelow (length m.now.grammar.now.rules.items) u.now }
    requires right { WordBelow (length m.now.grammar.now.rules.items) v.now }
    requires most { budget < 2 ^ 32 }
    ensures good { IfOk result (λ b. b ≡ true →
        AreGoodCuts m.now.grammar.now.rules.items m.now.marks.now u.now v.now budget
        table.new.pairs) }
    ensures first { IfOk result (λ b. b ≡ true →
        HaveRoom m.now.marks.now m.now.norms.now m.now.lowering.now u.now v.now table.new.pairs
        budget) }
    ensures settled { IfOk result (λ b. b ≡ true →
        AreSettled m.now.grammar.now.rules.items m.now.marks.now m.now.norms.now m.now.lowering.now
        table.new.pairs budget) }
    ensures fit { IfOk result (λ b. b ≡ true →
        AreFit m.now.marks.now (length m.now.lowering.now) table.new.pairs) }
    ensures none { IfOk result (λ b. b ≡ false →
        IsGood m.now.grammar.now.rules.items m.now.marks.now u.now v.now budget → ⊥) }
{
    table.each_once();
    let from = Front { word: u, tail: 0 };
    let to = Front { word: v, tail: 0 };
    let Some(joined) = meet(alloc, m, table, &from, &to, budget)? else {
        table.each_once();
        return Ok(false);
    };
    table.each_once();
    let mut room = budget - joined.heads;
    let mut at = 0usize;
    while at < table.len() {
        let Some(heads) = follow(alloc, m, table, at, room)? else {
            table.each_once();
            return Ok(false);
        };
        table.each_once();
        room -= heads;
        at += 1;
    }
    Ok(true)
}

/// Pairs and chains that show that two words perform the same traces, or none where the cuts that the words lead to aren't good at the
/// budget: the pairs are these cuts. The marks are those of `unnormed`.
pub fn expand(
    alloc: Global,
    g: &Grammar,
    unnormed: &[bool],
    u: &Word,
    v: &Word,
    budget: u32,
) -> Result<Option<Proof>, AllocError>
    requires grammar { InRange g.now.rules.items }
    requires letters { LettersBelow (length g.now.letters.items) g.now.rules.items }
    requires left { WordBelow (length g.now.rules.items) u.now }
    requires right { WordBelow (length g.now.rules.items) v.now }
    requires unnormed { AreUnnormed g.now.rules.items unnormed.now }
    requires budget { 1 ≤ budget }
    ensures proof { IfOk result (λ o. IfSome o
        (λ p. IsProof (length g.now.letters.items) g.now.rules.items unnormed.now u.now v.now
        p.basis.items p.chains.items)) }
    ensures good { IfOk result (λ o. IfSome o
        (λ p. AreGoodCuts g.now.rules.items unnormed.now u.now v.now budget p.basis.items)) }
    ensures none { IfOk result (λ o. IfNone o
        (IsGood g.now.rules.items unnormed.now u.now v.now budget → ⊥)) }
{
    let norms = norms(alloc, g)?;
    let lowering = lowering_words(alloc, g, &norms)?;
    let numbers = word_numbers(alloc, g)?;
    let m = Measures {
        grammar: g,
        marks: unnormed,
        norms: &norms,
        lowering: &lowering,
        numbers: &numbers,
    };
    let mut table = Table::new(alloc);
    if !spread(
        alloc,
        &m,
        &mut table,
        u.as_slice(),
        v.as_slice(),
        budget as usize,
    )? {
        return Ok(None);
    }
    let chains = chains_of(
        alloc,
        &m,
        &mut table,
        u.as_slice(),
        v.as_slice(),
        budget as usize,
    )?;
    let basis = table.to_pairs(alloc)?;
    Ok(Some(Proof { basis, chains }))
}
