ghost use Rattle.std.specs.Prelude.{◌≡◌, ◌++◌, ◌↔◌, IfOk, IsTrue, OnOk, reverse, take};

use std::alloc::{AllocError, Global};
use std::marker::Model;

/// A word of non-terminals: contracts see the list of their numbers.
#[derive(Drop)]
pub struct Word {
    numbers: Vec<u32>,
}

impl Model for Word {
    ghost use Rattle.std.specs.Prelude.{List, ℕ};

    ghost Value = { List ℕ };

    ghost view = { λ w. w.numbers.items };
}

impl Word {
    /// The word of these non-terminals.
    pub fn of(alloc: Global, letters: &[u32]) -> Result<Word, AllocError>
        ensures { IfOk result (λ w. w ≡ letters.now) }
    {
        Ok(Word {
            numbers: Vec::from_slice(alloc, letters)?,
        })
    }

    /// The word of the non-terminals of this list, without a copy.
    pub fn from_vec(numbers: Vec<u32>) -> Word
        ensures { result ≡ numbers.items }
    {
        Word { numbers }
    }

    /// The list of the non-terminals, without a copy.
    pub fn into_vec(self) -> Vec<u32>
        ensures { result.items ≡ self }
    {
        self.numbers
    }

    /// The numbers of the non-terminals.
    pub fn as_slice(&self) -> &[u32]
        ensures { result.now ≡ self.now }
    {
        &self.numbers
    }

    /// The first word, and then the second.
    pub fn concat(alloc: Global, first: &[u32], second: &[u32]) -> Result<Word, AllocError>
        ensures { IfOk result (λ w. w ≡ first.now ++ second.now) }
    {
        let mut numbers = Vec::from_slice(alloc, first)?;
        numbers.extend_from_slice(second)?;
        Ok(Word { numbers })
    }

    /// Whether two words are the same.
    pub fn same(&self, other: &Word) -> bool
        ensures { IsTrue result ↔ (self.now ≡ other.now) }
    {
        self.numbers == other.numbers
    }

    /// Keeps the first `len` non-terminals.
    pub fn truncate(&mut self, len: usize)
        ensures { self.new ≡ take len self.old }
    {
        self.numbers.truncate(len);
    }
}

/// Puts a word on a stack, whose last item is the first of a word.
pub fn push_word(stack: &mut Vec<u32>, word: &[u32]) -> Result<(), AllocError>
    ensures { OnOk result (reverse stack.new.items ≡ word.now ++ reverse stack.old.items) }
{
    let mut rest = word.len();
    while rest > 0 {
        rest -= 1;
        stack.push(word[rest])?;
    }
    Ok(())
}
