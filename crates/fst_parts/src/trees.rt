ghost use Rattle.std.specs.Prelude.{◌≡◌, [], IfOk, OnOk};
ghost use Rattle.fst_parts.specs.Shapes.{Shape};
ghost use Rattle.fst_parts.specs.Keys.{place, with_key, number_in, first, second, Stands};
ghost use Rattle.fst_parts.specs.Counts.{counts_of, HasCounts};

use crate::counts::Counts;
use indexmap::IndexMap;
use std::alloc::{AllocError, Global};
use std::marker::Model;

/// The trees that have numbers, each once: by the key of its node, whose place is its number, with what is counted of it.
#[derive(Drop)]
pub struct Trees {
    table: IndexMap<Vec<usize>, Counts>,
}

impl Model for Trees {
    ghost use Rattle.std.specs.Prelude.{List, ℕ, map};
    ghost use Rattle.indexmap.specs.IndexMap.{keys, values};
    ghost use Rattle.fst_parts.specs.Kept.{items_of};
    ghost use Rattle.fst_parts.specs.Counts.{AreCounts};

    ghost Value = { List (List ℕ) };

    ghost view = { λ t. map items_of (keys t.table) };

    ghost invariant = { λ t. AreCounts (map items_of (keys t.table)) (values t.table) };
}

impl Trees {
    /// No trees.
    pub(crate) fn new(alloc: Global) -> Trees
        ensures { result ≡ [] }
    {
        Trees {
            table: IndexMap::new(alloc),
        }
    }

    /// Puts the key of a tree behind the others, unless it is there, and returns its place.
    pub(crate) fn put(&mut self, key: Vec<usize>, counts: Counts) -> Result<usize, AllocError>
        requires { HasCounts (with_key self.old key.items) (place self.old key.items) counts }
        ensures keys { OnOk result (self.new ≡ with_key self.old key.items) }
        ensures place { IfOk result (λ at. at ≡ place self.old key.items) }
    {
        let (at, _) = self.table.insert_full(key, counts)?;
        Ok(at)
    }

    /// What is counted of the tree with this number.
    pub(crate) fn counts(&self, at: usize) -> Counts
        ensures { (x : Shape) → Stands self.now at x → result ≡ counts_of x }
    {
        match self.table.get_index(at) {
            Some((_, counts)) => *counts,
            None => Counts::of_end(),
        }
    }

    /// A number in the key at a place, or 0.
    fn number_in(&self, at: usize, k: usize) -> usize
        ensures { result ≡ number_in self.now at k }
    {
        match self.table.get_index(at) {
            Some((key, _)) => match key.get(k) {
                Some(n) => *n,
                None => 0,
            },
            None => 0,
        }
    }

    /// The number of a tree's first part.
    pub fn first(&self, at: usize) -> usize
        ensures { result ≡ first self.now at }
    {
        self.number_in(at, 1)
    }

    /// The number of a tree's second part.
    pub fn second(&self, at: usize) -> usize
        ensures { result ≡ second self.now at }
    {
        self.number_in(at, 2)
    }
}
