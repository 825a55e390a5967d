ghost use Rattle.std.specs.Prelude.{◌≡◌, ◌+◌, ◌<◌, ◌≤◌, ◌^◌, ◌++◌, ◌∷◌, [], IfErr, IfOk, OnOk, map, length};
ghost use Rattle.fst_words.specs.Words.{Productions, row_of};
ghost use Rattle.fst_grammar.specs.Rules.{rules_before};
ghost use Rattle.fst_grammar.specs.Equations.{Solves, Leads, HasRanks, HasOrderedRows, AreLast};
ghost use Rattle.fst_grammar.specs.Translation.{right_sides, right_side};
ghost use Rattle.fst_grammar.specs.Views.{equation_of};
ghost use Rattle.fst_grammar.specs.declared.fault.TranslateFault.TheVariants.{TooLarge};
ghost use Rattle.fst_base.specs.Limits.{most_letters};

use crate::equations::Equation;
use crate::fault::TranslateFault;
use fst_base::MOST_LETTERS;
use fst_words::{Rule, Rules, Word};
use std::alloc::{AllocError, Global};

/// A bound on how many equations stand behind one another.
const MOST_STEPS: u32 = 16_781_312;

/// The rules that a non-terminal comes to, and what stands behind each of their words.
#[derive(Drop)]
struct Head<'a> {
    rules: &'a [Rule],
    rest: Vec<u32>,
}

/// Goes from equation to equation to rules, at most so many steps: to an equation's own, or to those of one of the last
/// non-terminals, whose rules are known.
#[tactic(auto, using(crate::proofs::Rulesets::heads))]
fn head_of<'a>(
    alloc: Global,
    equations: &'a [Equation],
    known: &'a [Rules],
    z: u32,
    left: u32,
) -> Result<Head<'a>, AllocError>
    requires within { z < length equations.now }
    requires known { (rows : Productions) → Solves rows (map equation_of equations.now) →
        AreLast rows known.now }
    requires leads { Leads (map equation_of equations.now) z left }
    ensures rules { (rows : Productions) → Solves rows (map equation_of equations.now) → IfOk result
        (λ h. row_of rows z ≡ rules_before h.rest.items h.rules.now) }
{
    let behind = equations.len() - 1 - z as usize;
    if behind < known.len() {
        return Ok(Head {
            rules: known[behind].as_slice(),
            rest: Vec::new(alloc),
        });
    }
    match &equations[z as usize] {
        Equation::Own(rules) => Ok(Head {
            rules,
            rest: Vec::new(alloc),
        }),
        Equation::Like(word) => {
            let word = word.as_slice();
            let mut head = head_of(alloc, equations, known, word[0], left - 1)?;
            head.rest.extend_from_slice(&word[1..])?;
            Ok(head)
        }
    }
}

/// The rules with more behind each word, which take their letters from those that are left.
fn carry(
    alloc: Global,
    rules: &[Rule],
    rest: &[u32],
    room: &mut u64,
) -> Result<Vec<Rule>, TranslateFault>
    ensures rules { IfOk result (λ r. r.items ≡ rules_before rest.now rules.now) }
    ensures room { OnOk result (room.new + right_side
        (rules_before rest.now rules.now) ≡ room.old) }
    ensures too_large { IfErr result (λ f. f ≡ TooLarge →
        room.old < right_side (rules_before rest.now rules.now)) }
{
    let mut longer = Vec::new(alloc);
    for rule in rules {
        let letters = (rule.word.as_slice().len() + rest.len()) as u64;
        if letters > *room {
            return Err(TranslateFault::TooLarge);
        }
        *room -= letters;
        add_rule(alloc, &mut longer, rule, rest)?;
    }
    Ok(longer)
}

fn add_rule(
    alloc: Global,
    rules: &mut Vec<Rule>,
    rule: &Rule,
    rest: &[u32],
) -> Result<(), AllocError>
    ensures { OnOk result (rules.new.items ≡ rules.old.items
        ++ (record { letter = rule.now.letter; word = rule.now.word ++ rest.now }) ∷ []) }
{
    rules.push(Rule {
        letter: rule.letter,
        word: Word::concat(alloc, rule.word.as_slice(), rest)?,
    })?;
    Ok(())
}

/// The rules of a non-terminal, from those of the last ones, which take their letters from those that are left.
#[tactic(auto, using(crate::proofs::HeadLaws::leads_all))]
fn row(
    alloc: Global,
    equations: &[Equation],
    known: &[Rules],
    z: u32,
    room: &mut u64,
) -> Result<Rules, TranslateFault>
    requires within { z < length equations.now }
    requires known { (rows : Productions) → Solves rows (map equation_of equations.now) →
        AreLast rows known.now }
    requires grounded { HasRanks (map equation_of equations.now) }
    requires ordered { HasOrderedRows (map equation_of equations.now) }
    ensures rules { (rows : Productions) → Solves rows (map equation_of equations.now) → IfOk result
        (λ r. r ≡ row_of rows z) }
    ensures room { (rows : Productions) → Solves rows (map equation_of equations.now) →
        OnOk result (room.new + right_side (row_of rows z) ≡ room.old) }
    ensures too_large { (rows : Productions) → Solves rows (map equation_of equations.now) →
        IfErr result (λ f. f ≡ TooLarge → room.old < right_side (row_of rows z)) }
{
    let head = head_of(alloc, equations, known, z, MOST_STEPS)?;
    let rules = carry(alloc, head.rules, &head.rest, room)?;
    Ok(Rules::new(rules))
}

/// The rules of all non-terminals, found from the last one on: most equations lead to a later one.
pub(crate) fn rows_of(alloc: Global, equations: &[Equation]) -> Result<Vec<Rules>, TranslateFault>
    requires few { length equations.now < 2 ^ 32 }
    requires grounded { HasRanks (map equation_of equations.now) }
    requires ordered { HasOrderedRows (map equation_of equations.now) }
    ensures rules { (rows : Productions) → Solves rows (map equation_of equations.now) → IfOk result
        (λ r. r.items ≡ rows) }
    ensures small { IfOk result (λ r. right_sides r.items ≤ most_letters) }
    ensures too_large { (rows : Productions) → Solves rows (map equation_of equations.now) →
        IfErr result (λ f. f ≡ TooLarge → most_letters < right_sides rows) }
{
    let mut rows = Vec::new(alloc);
    let mut room = MOST_LETTERS;
    for i in 0..equations.len() {
        let z = (equations.len() - 1 - i) as u32;
        let rules = row(alloc, equations, &rows, z, &mut room)?;
        add_row(&mut rows, rules)?;
    }
    rows.reverse();
    Ok(rows)
}

fn add_row(rows: &mut Vec<Rules>, rules: Rules) -> Result<(), AllocError>
    ensures { OnOk result (rows.new.items ≡ rows.old.items ++ rules ∷ []) }
{
    rows.push(rules)?;
    Ok(())
}
