// A first estimate of the norms: the rules in the order of the bounds that they give, the least first, each rule
// once all non-terminals of its word have a bound (Knuth, A generalization of Dijkstra's algorithm, 1977).
ghost use Rattle.std.specs.Prelude.{◌≡◌, ◌<◌, ℕ, IfOk, IfSome, OnOk, All, length, []};
ghost use Rattle.fst_words.specs.Words.{Productions, row_of, InRange, WordBelow};
ghost use Rattle.fst_norms.specs.Bounds.{IsSound};
ghost use Rattle.fst_norms.specs.Pending.{IsPending, IsEstimate};

use crate::bounds::{rule_bound, weight};
use fst_words::{Grammar, Rule};
use std::alloc::{AllocError, Global};
use std::cmp::Reverse;
use std::collections::BinaryHeap;

// The rule of a non-terminal at a place, and how many non-terminals of its word still have no bound.
#[derive(Drop)]
pub(crate) struct Pending {
    pub(crate) number: usize,
    pub(crate) rule: usize,
    pub(crate) open: usize,
}

// The bounds so far, and those that wait to be used, each with its non-terminal.
#[derive(Drop)]
pub(crate) struct Estimate {
    pub(crate) bounds: Vec<Option<u64>>,
    pub(crate) found: BinaryHeap<(Reverse<u64>, usize)>,
}

fn add_pending(pending: &mut Vec<Pending>, number: usize, rules: &[Rule]) -> Result<(), AllocError>
    ensures { (rows : Productions) → number < length rows → row_of rows number ≡ rules.now →
        All (IsPending rows) pending.old.items →
        OnOk result (All (IsPending rows) pending.new.items) }
{
    for (rule, r) in rules.iter().enumerate() {
        let open = r.word.as_slice().len();
        pending.push(Pending { number, rule, open })?;
    }
    Ok(())
}

fn pending_rules(alloc: Global, g: &Grammar) -> Result<Vec<Pending>, AllocError>
    ensures { IfOk result (λ pending. All (IsPending g.now.rules.items) pending.items) }
{
    let mut pending = Vec::new(alloc);
    for (number, rules) in g.rules.iter().enumerate() {
        add_pending(&mut pending, number, rules.as_slice())?;
    }
    Ok(pending)
}

// The bound by a rule in the place of a greater one.
fn relax(g: &Grammar, p: &Pending, e: &mut Estimate) -> Result<(), AllocError>
    requires range { InRange g.now.rules.items }
    requires pending { IsPending g.now.rules.items p.now }
    requires estimate { IsEstimate g.now.rules.items e.old }
    ensures { OnOk result (IsEstimate g.now.rules.items e.new) }
{
    let Some(bound) = rule_bound(&e.bounds, &g.rules[p.number].as_slice()[p.rule]) else {
        return Ok(());
    };
    if bound < weight(e.bounds[p.number]) {
        e.bounds[p.number] = Some(bound);
        e.found.push((Reverse(bound), p.number))?;
    }
    Ok(())
}

// Notes for each non-terminal of the word that this pending rule has it.
fn add_uses(uses: &mut Vec<Vec<usize>>, at: usize, word: &[u32]) -> Result<(), AllocError>
    requires { WordBelow (length uses.old.items) word.now }
    ensures len { length uses.new.items ≡ length uses.old.items }
    ensures below { (n : ℕ) → at < n → All (λ u. All (λ k. k < n) u.items) uses.old.items →
        OnOk result (All (λ u. All (λ k. k < n) u.items) uses.new.items) }
{
    for n in word {
        uses[*n as usize].push(at)?;
    }
    Ok(())
}

// For each non-terminal the pending rules whose words have it, as often as they do.
fn uses_of(alloc: Global, g: &Grammar, pending: &[Pending]) -> Result<Vec<Vec<usize>>, AllocError>
    requires range { InRange g.now.rules.items }
    requires pending { All (IsPending g.now.rules.items) pending.now }
    ensures len { IfOk result (λ uses. length uses.items ≡ length g.now.rules.items) }
    ensures below { IfOk result (λ uses. All
        (λ u. All (λ k. k < length pending.now) u.items) uses.items) }
{
    let mut uses = empty_lists(alloc, g.rules.len())?;
    for (at, p) in pending.iter().enumerate() {
        let rule = &g.rules[p.number].as_slice()[p.rule];
        add_uses(&mut uses, at, rule.word.as_slice())?;
    }
    Ok(uses)
}

fn empty_lists(alloc: Global, count: usize) -> Result<Vec<Vec<usize>>, AllocError>
    ensures len { IfOk result (λ lists. length lists.items ≡ count) }
    ensures empty { IfOk result (λ lists. All (λ list. list.items ≡ []) lists.items) }
{
    let mut lists = Vec::new(alloc);
    for _ in 0..count {
        lists.push(Vec::new(alloc))?;
    }
    Ok(lists)
}

// Takes one non-terminal with a new bound off its uses, and looks at the rules that have none left.
fn follow(
    g: &Grammar,
    uses: &[usize],
    pending: &mut Vec<Pending>,
    e: &mut Estimate,
) -> Result<(), AllocError>
    requires range { InRange g.now.rules.items }
    requires uses { All (λ k. k < length pending.old.items) uses.now }
    requires pending { All (IsPending g.now.rules.items) pending.old.items }
    requires estimate { IsEstimate g.now.rules.items e.old }
    ensures len { length pending.new.items ≡ length pending.old.items }
    ensures pending { All (IsPending g.now.rules.items) pending.new.items }
    ensures estimate { OnOk result (IsEstimate g.now.rules.items e.new) }
{
    for at in uses {
        let open = pending[*at].open.saturating_sub(1);
        pending[*at].open = open;
        if open == 0 {
            relax(g, &pending[*at], e)?;
        }
    }
    Ok(())
}

// No bound but those by rules with an empty word.
fn first(alloc: Global, g: &Grammar, pending: &[Pending]) -> Result<Estimate, AllocError>
    requires range { InRange g.now.rules.items }
    requires pending { All (IsPending g.now.rules.items) pending.now }
    ensures { IfOk result (IsEstimate g.now.rules.items) }
{
    let mut e = Estimate {
        bounds: vec![in alloc; None; g.rules.len()]?,
        found: BinaryHeap::new(alloc),
    };
    for p in pending {
        if p.open == 0 {
            relax(g, p, &mut e)?;
        }
    }
    Ok(e)
}

// The least of the bounds that wait, with its non-terminal.
fn take_least(g: &Grammar, e: &mut Estimate) -> Option<(u64, usize)>
    requires { IsEstimate g.now.rules.items e.old }
    ensures estimate { IsEstimate g.now.rules.items e.new }
    ensures within { IfSome result (λ least. least.1 < length g.now.rules.items) }
{
    match e.found.pop() {
        None => None,
        Some((Reverse(bound), n)) => Some((bound, n)),
    }
}

// Bounds of the norms that come from traces; that they are the norms is left to the rounds that follow.
pub(crate) fn first_bounds(alloc: Global, g: &Grammar) -> Result<Vec<Option<u64>>, AllocError>
    requires { InRange g.now.rules.items }
    ensures len { IfOk result (λ bounds. length bounds.items ≡ length g.now.rules.items) }
    ensures sound { IfOk result (λ bounds. IsSound g.now.rules.items bounds.items) }
{
    let mut pending = pending_rules(alloc, g)?;
    let uses = uses_of(alloc, g, &pending)?;
    let mut e = first(alloc, g, &pending)?;
    for _ in 0..pending.len() {
        let Some((bound, n)) = take_least(g, &mut e) else {
            break;
        };
        if e.bounds[n] == Some(bound) {
            follow(g, &uses[n], &mut pending, &mut e)?;
        }
    }
    Ok(e.bounds)
}
