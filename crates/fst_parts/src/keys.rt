ghost use Rattle.std.specs.Prelude.{◌≡◌, [], IfOk, OnOk};
ghost use Rattle.fst_parts.specs.Keys.{place, with_key};

use indexmap::IndexSet;
use std::alloc::{AllocError, Global};
use std::marker::Model;

/// Lists of numbers, each once, that are found by what they hold.
#[derive(Drop)]
pub struct Keys {
    set: IndexSet<Vec<usize>>,
}

impl Model for Keys {
    ghost use Rattle.std.specs.Prelude.{List, ℕ, map};
    ghost use Rattle.fst_parts.specs.Kept.{items_of};

    ghost Value = { List (List ℕ) };

    ghost view = { λ k. map items_of k.set.keys };
}

impl Keys {
    /// No keys.
    pub(crate) fn new(alloc: Global) -> Keys
        ensures { result ≡ [] }
    {
        Keys {
            set: IndexSet::new(alloc),
        }
    }

    /// The place of a key, or the number of keys where it isn't there.
    pub(crate) fn place_of(&self, key: &[usize]) -> usize
        ensures { result ≡ place self.now key.now }
    {
        match self.set.get_index_of(key) {
            Some(at) => at,
            None => self.set.len(),
        }
    }

    /// Puts a key behind the others, unless it is there, and returns its place.
    pub(crate) fn put(&mut self, key: Vec<usize>) -> Result<usize, AllocError>
        ensures keys { OnOk result (self.new ≡ with_key self.old key.items) }
        ensures place { IfOk result (λ at. at ≡ place self.old key.items) }
    {
        let (at, _) = self.set.insert_full(key)?;
        Ok(at)
    }
}
