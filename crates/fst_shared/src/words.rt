ghost use Rattle.std.specs.Prelude.{◌≡◌, ◌<◌, ◌↔◌, ◌++◌, ◌∷◌, [], ℕ, List, IfOk, IfSome, IfNone, OnErr, IsTrue, length, take, ◌+◌};
ghost use Rattle.fst_words.specs.Words.{WordBelow};
ghost use Rattle.fst_shared.specs.Shared.{word_of, Keeps, IsEachOnce};
ghost use Rattle.fst_words.specs.Marks.{cut};

use fst_words::{Word, first_marked};
use indexmap::IndexSet;
use std::alloc::{AllocError, Global};
use std::marker::Model;

/// Words by number, each once: contracts see the list of them. A word is empty, with number 0, or a non-terminal in
/// front of an earlier word.
#[derive(Drop)]
pub struct SharedWords {
    nodes: IndexSet<(u32, u32)>,
}

impl Model for SharedWords {
    ghost use Rattle.std.specs.Prelude.{List, ℕ};
    ghost use Rattle.fst_shared.specs.Shared.{words_of, IsTable};

    ghost Value = { List (List ℕ) };

    ghost view = { λ s. words_of s.nodes.keys };

    ghost invariant = { λ s. IsTable s.nodes.keys (words_of s.nodes.keys) };
}

// What is left of a word in front of another, and the number of the word behind that.
fn cut_front<'a>(marks: &[bool], front: &'a [u32], tail: u32) -> (&'a [u32], u32)
    requires { WordBelow (length marks.now) front.now }
    ensures value { (words : List (List ℕ)) → word_of words 0 ≡ [] →
        result.0.now ++ word_of words result.1 ≡ cut marks.now front.now (word_of words tail) }
    ensures within { (n : ℕ) → tail < n → result.1 < n }
{
    match first_marked(marks, front) {
        None => (front, tail),
        Some(at) => (&front[..at + 1], 0),
    }
}

impl SharedWords {
    /// The table of the empty word.
    pub fn new(alloc: Global) -> SharedWords
        ensures { result ≡ [] ∷ [] }
    {
        SharedWords {
            nodes: IndexSet::new(alloc),
        }
    }

    /// Law: no word has two numbers, and number 0 is the empty one.
    pub fn each_once(&self)
        ensures once { IsEachOnce self.now }
        ensures empty { word_of self.now 0 ≡ [] }
        ensures some { 0 < length self.now }
    {
        let _nodes = &self.nodes;
    }

    /// Whether two numbers are those of the same word.
    pub fn same(&self, left: u32, right: u32) -> bool
        requires left { left < length self.now }
        requires right { right < length self.now }
        ensures { IsTrue result ↔ (word_of self.now left ≡ word_of self.now right) }
    {
        let _nodes = &self.nodes;
        left == right
    }

    /// The number of a non-terminal in front of a word. A refusal leaves the table as it was.
    pub fn push(&mut self, head: u32, tail: u32) -> Result<u32, AllocError>
        requires { tail < length self.old }
        ensures word { IfOk result (λ r. word_of self.new r ≡ head ∷ word_of self.old tail) }
        ensures within { IfOk result (λ r. r < length self.new) }
        ensures kept { Keeps self.old self.new }
        ensures err { OnErr result (self.new ≡ self.old) }
    {
        if self.nodes.len() >= u32::MAX as usize {
            return Err(AllocError);
        }
        let (at, _) = self.nodes.insert_full((head, tail))?;
        Ok(at as u32 + 1)
    }

    /// The first non-terminal of a word, and the number of what is behind it.
    pub fn split_first(&self, word: u32) -> Option<(u32, u32)>
        requires { word < length self.now }
        ensures none { IfNone result (word_of self.now word ≡ []) }
        ensures some { IfSome result (λ p. word_of self.now word ≡ p.0 ∷ word_of self.now p.1) }
        ensures less { IfSome result (λ p. p.1 < word) }
    {
        let nodes = &self.nodes;
        if word == 0 {
            return None;
        }
        nodes.get_index(word as usize - 1).copied()
    }

    /// The word with a number, written out.
    pub fn to_word(&self, alloc: Global, word: u32) -> Result<Word, AllocError>
        requires { word < length self.now }
        ensures { IfOk result (λ w. w ≡ word_of self.now word) }
    {
        let mut numbers = Vec::new(alloc);
        let mut at = word;
        while let Some((head, tail)) = self.split_first(at) {
            numbers.push(head)?;
            at = tail;
        }
        Ok(Word::from_vec(numbers))
    }

    /// The number of one word in front of another.
    pub fn concat(&mut self, front: &[u32], tail: u32) -> Result<u32, AllocError>
        requires { tail < length self.old }
        ensures word { IfOk result (λ r. word_of self.new r ≡ front.now ++ word_of self.old tail) }
        ensures within { IfOk result (λ r. r < length self.new) }
        ensures kept { Keeps self.old self.new }
    {
        let mut word = tail;
        let mut rest = front.len();
        while rest > 0 {
            rest -= 1;
            word = self.push(front[rest], word)?;
        }
        Ok(word)
    }

    /// The number of one word in front of another, cut behind the first word's first marked non-terminal.
    pub fn prepend(&mut self, marks: &[bool], front: &[u32], tail: u32) -> Result<u32, AllocError>
        requires tail { tail < length self.old }
        requires front { WordBelow (length marks.now) front.now }
        ensures word { IfOk result (λ r. word_of self.new r ≡ cut marks.now front.now
            (word_of self.old tail)) }
        ensures within { IfOk result (λ r. r < length self.new) }
        ensures kept { Keeps self.old self.new }
    {
        let _nodes = &self.nodes;
        let (left, behind) = cut_front(marks, front, tail);
        let word = self.concat(left, behind)?;
        Ok(word)
    }
}
