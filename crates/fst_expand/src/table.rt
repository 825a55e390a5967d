//! Pairs of words in order, each once.

ghost use Rattle.std.specs.Prelude.{◌≡◌, ◌≢◌, ◌<◌, ◌^◌, ◌++◌, [], ◌∷◌, IfNone, IfOk, IfSome, Some, length, slice_get};
ghost use Rattle.std.specs.Bool.{OnFalse, OnTrue};
ghost use Rattle.fst_words.specs.Words.{WordBelow};
ghost use Rattle.fst_words.specs.Marks.{cut};
ghost use Rattle.fst_shared.specs.Shared.{Keeps, word_of};
ghost use Rattle.fst_expand.specs.Cuts.{unless_same};
ghost use Rattle.fst_expand.specs.Good.{AreDistinct};
ghost use Rattle.fst_expand.specs.Table.{AreNumbered, IsNumbered, key_pair};

use fst_basis::Pair;
use fst_shared::SharedWords;
use fst_words::Word;
use indexmap::IndexSet;
use std::alloc::{AllocError, Global};
use std::marker::Model;

/// Words by number, and pairs of them in order, each once.
#[derive(Drop)]
pub(crate) struct Table {
    words: SharedWords,
    keys: IndexSet<(u32, u32)>,
}

impl Model for Table {
    ghost use Rattle.std.specs.Prelude.{length, map};
    ghost use Rattle.fst_expand.specs.Table.{Store, AreKeysOnce, key_pair};

    ghost Value = { Store };

    ghost view = { λ t. record { words = t.words; pairs = map (key_pair t.words) t.keys.keys } };

    ghost invariant = { λ t. AreKeysOnce (length t.words) t.keys.keys };
}

impl Table {
    /// The table of the empty word and of no pair.
    pub(crate) fn new(alloc: Global) -> Table
        ensures words { result.words ≡ [] ∷ [] }
        ensures pairs { result.pairs ≡ [] }
    {
        Table {
            words: SharedWords::new(alloc),
            keys: IndexSet::new(alloc),
        }
    }

    /// How many pairs there are.
    pub(crate) fn len(&self) -> usize
        ensures count { result ≡ length self.now.pairs }
        ensures fits { result < 2 ^ 63 }
    {
        self.keys.len()
    }

    /// Law: no pair is twice in the table, and word 0 is the empty one.
    pub(crate) fn each_once(&self)
        ensures pairs { AreDistinct self.now.pairs }
        ensures empty { word_of self.now.words 0 ≡ [] }
        ensures some { 0 < length self.now.words }
    {
        self.words.each_once();
        let _keys = &self.keys;
    }

    /// The numbers of a pair's words.
    pub(crate) fn key(&self, at: usize) -> (u32, u32)
        requires { at < length self.now.pairs }
        ensures left { result.0 < length self.now.words }
        ensures right { result.1 < length self.now.words }
        ensures pair { slice_get self.now.pairs at ≡ Some (key_pair self.now.words result) }
    {
        *self.keys.get_index(at).unwrap()
    }

    /// Whether two numbers are those of the same word.
    pub(crate) fn same(&self, left: u32, right: u32) -> bool
        requires left { left < length self.now.words }
        requires right { right < length self.now.words }
        ensures same { OnTrue result (word_of self.now.words left ≡ word_of self.now.words right) }
        ensures other { OnFalse result (word_of self.now.words left ≢ word_of self.now.words
            right) }
    {
        self.words.same(left, right)
    }

    /// The first non-terminal of a word.
    pub(crate) fn head(&self, word: u32) -> Option<u32>
        requires { word < length self.now.words }
        ensures { result ≡ slice_get (word_of self.now.words word) 0 }
    {
        match self.split_first(word) {
            None => None,
            Some((head, _)) => Some(head),
        }
    }

    /// The first non-terminal of a word, and the number of what is behind it.
    pub(crate) fn split_first(&self, word: u32) -> Option<(u32, u32)>
        requires { word < length self.now.words }
        ensures none { IfNone result (word_of self.now.words word ≡ []) }
        ensures some { IfSome result (λ p.
            word_of self.now.words word ≡ p.0 ∷ word_of self.now.words p.1) }
        ensures within { IfSome result (λ p. p.1 < length self.now.words) }
    {
        self.words.split_first(word)
    }

    /// The first non-terminal of a word that has one, and the number of what is behind it.
    pub(crate) fn parts(&self, word: u32) -> (u32, u32)
        requires within { word < length self.now.words }
        requires some { word_of self.now.words word ≢ [] }
        ensures word { word_of self.now.words word ≡ result.0 ∷ word_of self.now.words result.1 }
        ensures within { result.1 < length self.now.words }
    {
        self.split_first(word).unwrap()
    }

    /// The number of one word in front of another, cut behind the first word's first marked non-terminal.
    pub(crate) fn prepend(
        &mut self,
        marks: &[bool],
        front: &[u32],
        tail: u32,
    ) -> Result<u32, AllocError>
        requires tail { tail < length self.old.words }
        requires front { WordBelow (length marks.now) front.now }
        ensures word { IfOk result (λ r. word_of self.new.words r ≡ cut marks.now front.now
            (word_of self.old.words tail)) }
        ensures within { IfOk result (λ r. r < length self.new.words) }
        ensures kept { Keeps self.old.words self.new.words }
        ensures pairs { self.new.pairs ≡ self.old.pairs }
    {
        self.words.prepend(marks, front, tail)
    }

    /// The number of one word in front of another.
    pub(crate) fn concat(&mut self, front: &[u32], tail: u32) -> Result<u32, AllocError>
        requires { tail < length self.old.words }
        ensures word { IfOk result (λ r. word_of self.new.words r ≡ front.now ++ word_of
            self.old.words tail) }
        ensures within { IfOk result (λ r. r < length self.new.words) }
        ensures kept { Keeps self.old.words self.new.words }
        ensures pairs { self.new.pairs ≡ self.old.pairs }
    {
        self.words.concat(front, tail)
    }

    // The number of a non-terminal in front of a word.
    fn push(&mut self, head: u32, tail: u32) -> Result<u32, AllocError>
        requires { tail < length self.old.words }
        ensures word { IfOk result (λ r. word_of self.new.words r ≡ head ∷ word_of self.old.words
            tail) }
        ensures within { IfOk result (λ r. r < length self.new.words) }
        ensures kept { Keeps self.old.words self.new.words }
        ensures pairs { self.new.pairs ≡ self.old.pairs }
    {
        self.words.push(head, tail)
    }

    /// The number of a non-terminal with a word behind it.
    pub(crate) fn headed(&mut self, head: u32, rest: &[u32]) -> Result<u32, AllocError>
        ensures word { IfOk result (λ r. word_of self.new.words r ≡ head ∷ rest.now) }
        ensures within { IfOk result (λ r. r < length self.new.words) }
        ensures kept { IfOk result (λ r. Keeps self.old.words self.new.words) }
        ensures pairs { IfOk result (λ r. self.new.pairs ≡ self.old.pairs) }
    {
        self.each_once();
        let tail = self.concat(rest, 0)?;
        let word = self.push(head, tail)?;
        Ok(word)
    }

    /// The number of the pair of two words, which is added where it isn't there.
    pub(crate) fn insert(&mut self, left: u32, right: u32) -> Result<u32, AllocError>
        requires left { left < length self.old.words }
        requires right { right < length self.old.words }
        ensures words { self.new.words ≡ self.old.words }
        ensures number { IfOk result (λ at. IsNumbered
            (key_pair self.old.words (left, right)) self.old.pairs self.new.pairs at) }
    {
        if self.keys.len() >= u32::MAX as usize {
            return Err(AllocError);
        }
        let (at, _) = self.keys.insert_full((left, right))?;
        Ok(at as u32)
    }

    /// The number of the pair of two words, which is added where it isn't there, or none where the words are the same.
    pub(crate) fn number(&mut self, left: u32, right: u32) -> Result<Option<u32>, AllocError>
        requires left { left < length self.old.words }
        requires right { right < length self.old.words }
        ensures words { self.new.words ≡ self.old.words }
        ensures number { IfOk result (AreNumbered
            (unless_same (word_of self.old.words left) (word_of self.old.words right))
            self.old.pairs self.new.pairs) }
    {
        if self.same(left, right) {
            return Ok(None);
        }
        let at = self.insert(left, right)?;
        Ok(Some(at))
    }

    /// The word with a number, written out.
    pub(crate) fn to_word(&self, alloc: Global, word: u32) -> Result<Word, AllocError>
        requires { word < length self.now.words }
        ensures { IfOk result (λ w. w ≡ word_of self.now.words word) }
    {
        self.words.to_word(alloc, word)
    }

    // The pair with a number, written out.
    fn pair(&self, alloc: Global, at: usize) -> Result<Pair, AllocError>
        requires { at < length self.now.pairs }
        ensures { IfOk result (λ b. slice_get self.now.pairs at ≡ Some b) }
    {
        let (left, right) = self.key(at);
        Ok(Pair {
            left: self.to_word(alloc, left)?,
            right: self.to_word(alloc, right)?,
        })
    }

    /// The pairs in order, written out.
    #[tactic(auto, using(crate::proofs::PlaceLaws::taken))]
    pub(crate) fn to_pairs(&self, alloc: Global) -> Result<Vec<Pair>, AllocError>
        ensures { IfOk result (λ pairs. pairs.items ≡ self.now.pairs) }
    {
        let mut pairs = Vec::new(alloc);
        for at in 0..self.len() {
            pairs.push(self.pair(alloc, at)?)?;
        }
        Ok(pairs)
    }
}
