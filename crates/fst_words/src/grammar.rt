ghost use Rattle.std.specs.Prelude.{◌≡◌, ◌↔◌, All, IfOk, IfSome, IsTrue, length};
ghost use Rattle.fst_words.specs.Words.{step, WordBelow, InRange};

use crate::rules::{Rule, Rules};
use crate::word::Word;
use fst_types::Label;
use std::alloc::{AllocError, Global};

/// A simple grammar: the letters' labels in label order, and the rules of each non-terminal.
#[derive(Drop)]
pub struct Grammar {
    pub letters: Vec<Label>,
    pub rules: Vec<Rules>,
}

/// The word after the letter, or none where the word doesn't perform it.
#[tactic(auto, using(crate::proofs::RangeLaws::step_in_range))]
pub fn step(alloc: Global, g: &Grammar, w: &Word, letter: u32) -> Result<Option<Word>, AllocError>
    requires word { WordBelow (length g.now.rules.items) w.now }
    requires grammar { InRange g.now.rules.items }
    ensures next { IfOk result (λ next. next ≡ step g.now.rules.items w.now letter) }
    ensures range { IfOk result (λ next. IfSome next (WordBelow (length g.now.rules.items))) }
{
    step_by_rule(alloc, g, w.as_slice(), letter)
}

fn step_by_rule(
    alloc: Global,
    g: &Grammar,
    w: &[u32],
    letter: u32,
) -> Result<Option<Word>, AllocError>
    requires { WordBelow (length g.now.rules.items) w.now }
    ensures { IfOk result (λ next. next ≡ step g.now.rules.items w.now letter) }
{
    let Some((first, rest)) = w.split_first() else {
        return Ok(None);
    };
    match g.rules[*first as usize].word_for(letter) {
        None => Ok(None),
        Some(word) => Ok(Some(Word::concat(alloc, word.as_slice(), rest)?)),
    }
}

/// Whether each non-terminal in a rule's word is one of the grammar's.
pub fn is_in_range(g: &Grammar) -> bool
    ensures { IsTrue result ↔ InRange g.now.rules.items }
{
    let count = g.rules.len();
    g.rules
        .iter()
        .all(|rules| are_below(rules.as_slice(), count))
}

fn are_below(rules: &[Rule], count: usize) -> bool
    ensures { IsTrue result ↔ All (λ r. WordBelow count r.word) rules.now }
{
    rules.iter().all(|r| is_below(r.word.as_slice(), count))
}

/// Whether the numbers of a word are below this one.
pub fn is_below(word: &[u32], count: usize) -> bool
    ensures { IsTrue result ↔ WordBelow count word.now }
{
    word.iter().all(|n| (*n as usize) < count)
}
