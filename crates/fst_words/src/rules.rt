ghost use Rattle.std.specs.Prelude.{◌≡◌, ◌↔◌, IfErr, IfOk, IsTrue};
ghost use Rattle.std.specs.Option.{option_copied};
ghost use Rattle.fst_words.specs.Ordered.{AreOrdered};
ghost use Rattle.fst_words.specs.Words.{rule_of};

use crate::word::Word;
use std::marker::Model;

/// A rule: the letter that is performed, and the word that takes the non-terminal's place.
#[derive(Drop)]
pub struct Rule {
    pub letter: u32,
    pub word: Word,
}

/// The rules of one non-terminal, at most one for each letter, in the order of the letters.
#[derive(Drop)]
pub struct Rules {
    rules: Vec<Rule>,
}

impl Model for Rules {
    ghost use Rattle.std.specs.Prelude.{List};
    ghost use Rattle.fst_words.specs.declared.rules.Rule.{Rule};
    ghost use Rattle.fst_words.specs.Ordered.{AreOrdered};

    ghost Value = { List Rule };

    ghost view = { λ r. r.rules.items };

    ghost invariant = { λ r. AreOrdered r.rules.items };
}

impl Rules {
    /// The rules of this list, which is in order.
    pub fn new(rules: Vec<Rule>) -> Rules
        requires { AreOrdered rules.items }
        ensures { result ≡ rules.items }
    {
        Rules { rules }
    }

    /// The rules of this list, or the list again where it isn't in order.
    pub fn of(rules: Vec<Rule>) -> Result<Rules, Vec<Rule>>
        ensures ok { IfOk result (λ r. r ≡ rules.items) }
        ensures err { IfErr result (λ back. back ≡ rules) }
        ensures refused { IfErr result (λ back. AreOrdered rules.items → ⊥) }
    {
        if are_ordered(&rules) {
            Ok(Rules { rules })
        } else {
            Err(rules)
        }
    }

    /// The list of the rules, in order.
    pub fn into_vec(self) -> Vec<Rule>
        ensures rules { result.items ≡ self }
        ensures ordered { AreOrdered self }
    {
        self.rules
    }

    /// The rules in order.
    pub fn as_slice(&self) -> &[Rule]
        ensures rules { result.now ≡ self.now }
        ensures ordered { AreOrdered self.now }
    {
        &self.rules
    }

    /// The word of the rule with this letter.
    pub fn word_for(&self, letter: u32) -> Option<&Word>
        ensures { option_copied result ≡ rule_of self.now letter }
    {
        match self.rules.binary_search_by_key(&letter, |rule| rule.letter) {
            Ok(at) => Some(&self.rules[at].word),
            Err(_) => None,
        }
    }
}

fn are_ordered(rules: &[Rule]) -> bool
    ensures { IsTrue result ↔ AreOrdered rules.now }
{
    let mut last = None;
    for rule in rules {
        if let Some(letter) = last {
            if rule.letter <= letter {
                return false;
            }
        }
        last = Some(rule.letter);
    }
    true
}
