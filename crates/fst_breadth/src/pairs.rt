ghost use Rattle.std.specs.Prelude.{◌≡◌, ◌<◌, ◌≤◌, ◌↔◌, ◌++◌, ◌∷◌, [], ◌⊎◌, IfOk, IfSome, IfNone, OnOk, OnErr, IsTrue, Any, length, drop, Some, slice_get, map};
ghost use Rattle.fst_words.specs.Words.{WordBelow};
ghost use Rattle.fst_words.specs.Marks.{cut};
ghost use Rattle.fst_shared.specs.Shared.{word_of, Keeps};
ghost use Rattle.fst_breadth.specs.Reached.{ReachedPair};
ghost use Rattle.fst_breadth.specs.Answer.{pair_of};
ghost use Rattle.fst_breadth.specs.Tables.{HasPair, AreNumbersAt, trace_at, trace_from};
ghost use Rattle.fst_breadth.specs.Following.{Follows};

use fst_shared::{SharedPair, SharedWord, SharedWords};
use fst_words::Word;
use indexmap::IndexMap;
use std::alloc::{AllocError, Global};
use std::marker::Model;
use std::rc::Rc;

/// What became of the pair that follows another by a letter.
pub(crate) enum Followed {
    /// Its words are the same, or it was listed before.
    Known,
    /// It is listed now.
    Added,
    /// There is no room for it.
    Full,
}

/// Pairs of words in order, each once: the numbers of its words, and the place of the pair from which it was reached
/// with the letter, unless it is the first one.
#[derive(Drop)]
pub(crate) struct Pairs {
    words: SharedWords,
    map: IndexMap<(u32, u32), Option<(u32, u32)>>,
}

impl Model for Pairs {
    ghost use Rattle.std.specs.Prelude.{[], length};
    ghost use Rattle.fst_breadth.specs.Tables.{Store, found_from, AreEntries};

    ghost Value = { Store };

    ghost view = { λ s. record { words = s.words; found = found_from s.words [] s.map.entries } };

    ghost invariant = { λ s. AreEntries (length s.words) 0 s.map.entries };
}

impl Pairs {
    /// The table of no pair.
    pub(crate) fn new(alloc: Global) -> Pairs
        ensures words { result.words ≡ [] ∷ [] }
        ensures found { result.found ≡ [] }
    {
        Pairs {
            words: SharedWords::new(alloc),
            map: IndexMap::new(alloc),
        }
    }

    /// How many pairs there are.
    pub(crate) fn len(&self) -> usize
        ensures { result ≡ length self.now.found }
    {
        self.map.len()
    }

    /// The numbers of a pair's words.
    pub(crate) fn numbers(&self, at: usize) -> (u32, u32)
        requires { at < length self.now.found }
        ensures numbers { AreNumbersAt self.now at result.0 result.1 }
        ensures left { result.0 < length self.now.words }
        ensures right { result.1 < length self.now.words }
    {
        *self.map.get_index(at).unwrap().0
    }

    /// The first non-terminal of a word.
    pub(crate) fn head(&self, word: u32) -> Option<u32>
        requires { word < length self.now.words }
        ensures { result ≡ slice_get (word_of self.now.words word) 0 }
    {
        match self.words.split_first(word) {
            None => None,
            Some((head, _)) => Some(head),
        }
    }

    // The number of what is behind a word's first non-terminal.
    fn tail(&self, word: u32) -> u32
        requires { word < length self.now.words }
        ensures value { word_of self.now.words result ≡ drop 1 (word_of self.now.words word) }
        ensures within { result < length self.now.words }
    {
        match self.words.split_first(word) {
            None => word,
            Some((_, tail)) => tail,
        }
    }

    // The number of one word in front of another, cut behind the first word's first marked non-terminal.
    fn prepend(&mut self, marks: &[bool], front: &[u32], tail: u32) -> Result<u32, AllocError>
        requires tail { tail < length self.old.words }
        requires front { WordBelow (length marks.now) front.now }
        ensures word { IfOk result (λ r. word_of self.new.words r ≡ cut marks.now front.now
            (word_of self.old.words tail)) }
        ensures within { IfOk result (λ r. r < length self.new.words) }
        ensures kept { Keeps self.old.words self.new.words }
        ensures found { self.new.found ≡ self.old.found }
    {
        self.words.prepend(marks, front, tail)
    }

    /// The number of a word, cut behind its first marked non-terminal.
    pub(crate) fn number(&mut self, marks: &[bool], word: &Word) -> Result<u32, AllocError>
        requires { WordBelow (length marks.now) word.now }
        ensures word { IfOk result (λ r. word_of self.new.words r ≡ cut marks.now word.now []) }
        ensures within { IfOk result (λ r. r < length self.new.words) }
        ensures kept { Keeps self.old.words self.new.words }
        ensures found { self.new.found ≡ self.old.found }
    {
        self.words.each_once();
        self.prepend(marks, word.as_slice(), 0)
    }

    /// The numbers of the words that follow those of a pair by rules with these words.
    pub(crate) fn next(
        &mut self,
        marks: &[bool],
        at: usize,
        left: &[u32],
        right: &[u32],
    ) -> Result<(u32, u32), AllocError>
        requires at { at < length self.old.found }
        requires left { WordBelow (length marks.now) left.now }
        requires right { WordBelow (length marks.now) right.now }
        ensures left { IfOk result (λ r. (e : ReachedPair) → slice_get self.old.found at ≡ Some e →
            word_of self.new.words r.0 ≡ cut marks.now left.now (drop 1 e.left)) }
        ensures right { IfOk result (λ r. (e : ReachedPair) → slice_get self.old.found at ≡ Some e →
            word_of self.new.words r.1 ≡ cut marks.now right.now (drop 1 e.right)) }
        ensures left_within { IfOk result (λ r. r.0 < length self.new.words) }
        ensures right_within { IfOk result (λ r. r.1 < length self.new.words) }
        ensures found { self.new.found ≡ self.old.found }
    {
        let (left_word, right_word) = self.numbers(at);
        let left_tail = self.tail(left_word);
        let right_tail = self.tail(right_word);
        let left_next = self.prepend(marks, left, left_tail)?;
        let right_next = self.prepend(marks, right, right_tail)?;
        Ok((left_next, right_next))
    }

    /// Whether two numbers are those of the same word.
    pub(crate) fn same(&self, left: u32, right: u32) -> bool
        requires left { left < length self.now.words }
        requires right { right < length self.now.words }
        ensures { IsTrue result ↔ (word_of self.now.words left ≡ word_of self.now.words right) }
    {
        self.words.same(left, right)
    }

    // Whether the pair of these two words is there.
    fn contains(&self, left: u32, right: u32) -> bool
        requires left { left < length self.now.words }
        requires right { right < length self.now.words }
        ensures { IsTrue result ↔ Any (HasPair (word_of self.now.words left)
            (word_of self.now.words right)) self.now.found }
    {
        self.words.each_once();
        self.map.contains_key(&(left, right))
    }

    /// Adds a pair that isn't there, by the place of the pair from which it was reached and the letter.
    pub(crate) fn push(
        &mut self,
        left: u32,
        right: u32,
        origin: Option<(u32, u32)>,
    ) -> Result<(), AllocError>
        requires left { left < length self.old.words }
        requires right { right < length self.old.words }
        requires origin { IfSome origin (λ p. p.0 < length self.old.found) }
        requires other { Any (HasPair (word_of self.old.words left) (word_of self.old.words right))
            self.old.found → ⊥ }
        ensures words { self.new.words ≡ self.old.words }
        ensures found { OnOk result (self.new.found ≡ self.old.found
            ++ record {
              left = word_of self.old.words left;
              right = word_of self.old.words right;
              trace = trace_from self.old.found origin;
            } ∷ []) }
        ensures err { OnErr result (self.new.found ≡ self.old.found) }
    {
        self.map.insert((left, right), origin)?;
        Ok(())
    }

    /// Adds the pair of two words that is reached from another by a letter, unless the words are the same or it is
    /// there.
    pub(crate) fn add(
        &mut self,
        left: u32,
        right: u32,
        at: u32,
        letter: u32,
        budget: u32,
    ) -> Result<Followed, AllocError>
        requires at { at < length self.old.found }
        requires left { left < length self.old.words }
        requires right { right < length self.old.words }
        ensures { IfOk result (λ f. Follows self.old.found self.new.found
            (record {
              left = word_of self.old.words left;
              right = word_of self.old.words right;
              trace = trace_at self.old.found at ++ letter ∷ [];
            }) budget f) }
    {
        if self.same(left, right) || self.contains(left, right) {
            return Ok(Followed::Known);
        }
        if self.len() >= budget as usize {
            return Ok(Followed::Full);
        }
        self.push(left, right, Some((at, letter)))?;
        Ok(Followed::Added)
    }

    // The place of the pair from which a pair was reached, and the letter, unless it is the first one.
    fn origin(&self, at: usize) -> Option<(u32, u32)>
        requires { at < length self.now.found }
        ensures none { IfNone result (trace_at self.now.found at ≡ []) }
        ensures some { IfSome result (λ p.
            trace_at self.now.found at ≡ trace_at self.now.found p.0 ++ p.1 ∷ []) }
        ensures less { IfSome result (λ p. p.0 < at) }
    {
        *self.map.get_index(at).unwrap().1
    }

    /// The trace of the pair at a place.
    pub(crate) fn trace(&self, alloc: Global, at: usize) -> Result<Vec<u32>, AllocError>
        requires { at < length self.now.found }
        ensures { IfOk result (λ s. s.items ≡ trace_at self.now.found at) }
    {
        let mut letters = Vec::new(alloc);
        let mut place = at;
        while let Some((from, letter)) = self.origin(place) {
            letters.push(letter)?;
            place = from as usize;
        }
        letters.reverse();
        Ok(letters)
    }

    /// The pairs in order, without their traces: handles on one table of words.
    pub(crate) fn into_pairs(self, alloc: Global) -> Result<Vec<SharedPair>, AllocError>
        ensures { IfOk result (λ pairs. pairs.items ≡ map pair_of self.found) }
    {
        let words = Rc::new(alloc, self.words)?;
        let mut pairs = Vec::new(alloc);
        for (left, right) in self.map.into_keys() {
            pairs.push(SharedPair {
                left: SharedWord::new(&words, left)?,
                right: SharedWord::new(&words, right)?,
            })?;
        }
        Ok(pairs)
    }
}
