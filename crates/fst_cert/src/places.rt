//! The places of pairs in a basis.

ghost use Rattle.std.specs.Prelude.{◌≡◌, ◌<◌, ◌^◌, ◌++◌, ◌∷◌, [], IfNone, IfOk, IfSome, OnOk, Some, length, slice_get};
ghost use Rattle.fst_shared.specs.Shared.{IsEachOnce, Keeps, word_of};
ghost use Rattle.fst_expand.specs.Good.{AreDistinct, IsIn};
ghost use Rattle.fst_cert.specs.Visited.{AreNumbersOf, AreSameOrPair, pair_of};

use fst_basis::Pair;
use fst_shared::SharedWords;
use indexmap::IndexSet;
use std::alloc::{AllocError, Global};
use std::marker::Model;

/// Pairs of words at their places, each once: contracts see the list of them. The pairs are those of the numbers that their words have in
/// a table.
#[derive(Drop)]
pub(crate) struct Places {
    words: SharedWords,
    keys: IndexSet<(u32, u32)>,
}

impl Model for Places {
    ghost use Rattle.std.specs.Prelude.{List, length, map};
    ghost use Rattle.fst_basis.specs.declared.proof.Pair.{Pair};
    ghost use Rattle.fst_shared.specs.Shared.{AreKeys};
    ghost use Rattle.fst_expand.specs.Table.{key_pair};

    ghost Value = { List Pair };

    ghost view = { λ p. map (key_pair p.words) p.keys.keys };

    ghost invariant = { λ p. AreKeys (length p.words) p.keys.keys };
}

// The number of a word, which is added to the table where it isn't there.
fn number(words: &mut SharedWords, word: &[u32]) -> Result<u32, AllocError>
    ensures word { IfOk result (λ r. word_of words.new r ≡ word.now) }
    ensures within { IfOk result (λ r. r < length words.new) }
    ensures kept { Keeps words.old words.new }
{
    words.each_once();
    words.concat(word, 0)
}

// The numbers of two words.
fn numbers(words: &mut SharedWords, left: &[u32], right: &[u32]) -> Result<(u32, u32), AllocError>
    ensures key { IfOk result (AreNumbersOf words.new left.now right.now) }
    ensures kept { Keeps words.old words.new }
    ensures once { IfOk result (λ r. IsEachOnce words.new) }
{
    let left = number(words, left)?;
    let right = number(words, right)?;
    words.each_once();
    Ok((left, right))
}

impl Places {
    /// No pairs.
    pub(crate) fn new(alloc: Global) -> Places
        ensures { result ≡ [] }
    {
        Places {
            words: SharedWords::new(alloc),
            keys: IndexSet::new(alloc),
        }
    }

    /// Adds a pair that isn't there.
    pub(crate) fn push(&mut self, left: &[u32], right: &[u32]) -> Result<(), AllocError>
        requires { IsIn (pair_of left.now right.now) self.old → ⊥ }
        ensures { OnOk result (self.new ≡ self.old ++ pair_of left.now right.now ∷ []) }
    {
        let key = numbers(&mut self.words, left, right)?;
        self.keys.insert(key)?;
        Ok(())
    }

    /// The place of a pair, or none where its words are the same.
    pub(crate) fn place_of(
        &mut self,
        left: &[u32],
        right: &[u32],
    ) -> Result<Option<u32>, AllocError>
        requires few { length self.old < 2 ^ 32 }
        requires there { AreSameOrPair self.old left.now right.now }
        ensures same { IfOk result (λ o. IfNone o (left.now ≡ right.now)) }
        ensures place { IfOk result (λ o. IfSome o
            (λ at. slice_get self.old at ≡ Some (pair_of left.now right.now))) }
        ensures pairs { IfOk result (λ o. self.new ≡ self.old) }
    {
        if left == right {
            return Ok(None);
        }
        let key = numbers(&mut self.words, left, right)?;
        let place = self.keys.get_index_of(&key).unwrap();
        Ok(Some(place as u32))
    }
}

/// The places of the pairs of a basis.
pub(crate) fn places_of(alloc: Global, basis: &[Pair]) -> Result<Places, AllocError>
    requires { AreDistinct basis.now }
    ensures { IfOk result (λ places. places ≡ basis.now) }
{
    let mut places = Places::new(alloc);
    for pair in basis {
        places.push(pair.left.as_slice(), pair.right.as_slice())?;
    }
    Ok(places)
}
