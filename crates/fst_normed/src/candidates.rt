//! The candidates that are needed, in the order in which they came to be.

ghost use Rattle.std.specs.Prelude.{◌≡◌, ◌≢◌, ◌<◌, [], ℕ, IfOk, OnOk, Some, length, slice_get};
ghost use Rattle.std.specs.List.{AllPairs};
ghost use Rattle.fst_normed.specs.Closing.{IsAdded};

use indexmap::IndexSet;
use std::alloc::{AllocError, Global};
use std::marker::Model;

/// Candidates, each by its two non-terminals: contracts see their list.
#[derive(Drop)]
pub(crate) struct Candidates {
    pairs: IndexSet<(u32, u32)>,
}

impl Model for Candidates {
    ghost use Rattle.std.specs.Prelude.{List, ℕ};

    ghost Value = { List (ℕ × ℕ) };

    ghost view = { λ c. c.pairs.keys };
}

impl Candidates {
    /// No candidates.
    pub(crate) fn new(alloc: Global) -> Candidates
        ensures { result ≡ [] }
    {
        Candidates {
            pairs: IndexSet::new(alloc),
        }
    }

    /// How many there are.
    pub(crate) fn len(&self) -> usize
        ensures { result ≡ length self.now }
    {
        self.pairs.len()
    }

    /// The non-terminals of the candidate at a place.
    pub(crate) fn get(&self, at: usize) -> (u32, u32)
        requires { at < length self.now }
        ensures { slice_get self.now at ≡ Some result }
    {
        *self.pairs.get_index(at).unwrap()
    }

    /// The place of the candidate of two non-terminals, which is added behind the others unless it is there.
    pub(crate) fn place_of(&mut self, x: u32, y: u32) -> Result<usize, AllocError>
        ensures place { IfOk result (λ at. slice_get self.new at ≡ Some (x, y)) }
        ensures added { OnOk result (IsAdded self.old self.new (x, y)) }
        ensures once { OnOk result (AllPairs (λ c d. c ≢ d) self.new) }
    {
        let (at, _) = self.pairs.insert_full((x, y))?;
        Ok(at)
    }
}
