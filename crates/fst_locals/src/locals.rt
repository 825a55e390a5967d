ghost use Rattle.std.specs.Prelude.{◌≡◌, ◌≢◌, ◌∷◌, ◌<◌, [], IfSome, OnErr, OnOk, drop, length};
ghost use Rattle.fst_terms.specs.Naming.{place_of};

use fst_types::Name;
use indexmap::IndexMap;
use std::alloc::{AllocError, Global};
use std::marker::Model;

// A variable that was entered: where its name stands in the table, and the level of the variable that it hides.
#[derive(Drop)]
struct Open {
    index: usize,
    hidden: Option<usize>,
}

/// The names of the variables around a term, which are found by their bytes: contracts see the list of them, the innermost
/// first. A variable's level is how many stand around it; the table has for each name the level of the innermost one with it.
#[derive(Drop)]
pub struct Locals {
    levels: IndexMap<Vec<u8>, Option<usize>>,
    order: Vec<Open>,
}

impl Model for Locals {
    ghost use Rattle.std.specs.Prelude.{List, ℕ};
    ghost use Rattle.fst_locals.specs.Levels.{IsTable, names_in};

    ghost Value = { List (List ℕ) };

    ghost view = { λ s. names_in s.levels.entries s.order.items };

    ghost invariant = { λ s. IsTable s.levels.entries s.order.items };
}

impl Locals {
    /// No variables.
    pub fn new(alloc: Global) -> Locals
        ensures { result ≡ [] }
    {
        Locals {
            levels: IndexMap::new(alloc),
            order: Vec::new(alloc),
        }
    }

    /// Enters a variable, which hides those around with its name; where there is no room, nothing changes.
    pub fn enter(&mut self, alloc: Global, name: &Name) -> Result<(), AllocError>
        ensures entered { OnOk result (self.new ≡ name.now ∷ self.old) }
        ensures unchanged { OnErr result (self.new ≡ self.old) }
    {
        let key = Vec::from_slice(alloc, name.as_slice())?;
        self.order.reserve(1)?;
        let level = self.order.len();
        let (index, known) = self.levels.insert_full(key, Some(level))?;
        self.order.push(Open {
            index,
            hidden: known.flatten(),
        })?;
        Ok(())
    }

    /// Leaves the innermost variable.
    pub fn leave(&mut self)
        requires { self.old ≢ [] }
        ensures { self.new ≡ drop 1 self.old }
    {
        if let Some(open) = self.order.pop() {
            if let Some(level) = self.levels.get_index_mut(open.index) {
                *level = open.hidden;
            }
        }
    }

    /// The number of the innermost variable with a name, counted from 0 outward.
    pub fn number_of(&self, name: &Name) -> Option<usize>
        ensures number { result ≡ place_of self.now name.now }
        ensures within { IfSome result (λ k. k < length self.now) }
    {
        let level = self.levels.get(name.as_slice()).copied().flatten()?;
        Some(self.order.len() - 1 - level)
    }
}
