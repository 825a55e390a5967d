// Numbers for the words of rules, by which rules with the same word are told without a look at it.
ghost use Rattle.std.specs.Prelude.{◌≡◌, List, ℕ, IfOk, length};
ghost use Rattle.fst_shared.specs.Shared.{Keeps};
ghost use Rattle.fst_shared.specs.Numbers.{AreNumbers, AreNumbered};

use crate::words::SharedWords;
use fst_words::{Grammar, Rule};
use std::alloc::{AllocError, Global};

fn row_numbers(
    alloc: Global,
    words: &mut SharedWords,
    rules: &[Rule],
) -> Result<Vec<u32>, AllocError>
    ensures kept { Keeps words.old words.new }
    ensures numbers { IfOk result (λ numbers. AreNumbers words.new rules.now numbers.items) }
    ensures count { IfOk result (λ numbers. length numbers.items ≡ length rules.now) }
{
    let mut numbers = Vec::new(alloc);
    for rule in rules {
        words.each_once();
        let number = words.concat(rule.word.as_slice(), 0)?;
        numbers.push(number)?;
    }
    Ok(numbers)
}

/// A number for the word of each rule, row by row: rules with the same number have the same word.
pub fn word_numbers(alloc: Global, g: &Grammar) -> Result<Vec<Vec<u32>>, AllocError>
    ensures { IfOk result (λ numbers. (words : List (List ℕ)) ×
        AreNumbered words g.now.rules.items numbers.items) }
{
    let mut words = SharedWords::new(alloc);
    let mut numbers = Vec::new(alloc);
    for rules in &g.rules {
        let row = row_numbers(alloc, &mut words, rules.as_slice())?;
        numbers.push(row)?;
    }
    Ok(numbers)
}
