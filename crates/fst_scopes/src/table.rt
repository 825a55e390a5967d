ghost use Rattle.std.specs.Prelude.{◌≡◌, ◌≤◌, ◌<◌, ◌^◌, [], IfOk, IfSome, OnOk, length, not};
ghost use Rattle.fst_terms.specs.Naming.{place_of};
ghost use Rattle.fst_scopes.specs.Faults.{is_among};
ghost use Rattle.fst_scopes.specs.First.{first_from};
ghost use Rattle.fst_scopes.specs.Kept.{with_name};
ghost use Rattle.fst_scopes.specs.Twice.{AreNames, twice, twice_if, variables};

use crate::fault::{NameFault, note};
use fst_terms::Binder;
use fst_types::{Kind, Name};
use indexmap::IndexSet;
use std::alloc::{AllocError, Global};
use std::marker::Model;

/// Names, each once, that are found by their bytes.
#[derive(Drop)]
pub struct NameTable {
    set: IndexSet<Vec<u8>>,
}

impl Model for NameTable {
    ghost use Rattle.std.specs.Prelude.{List, ℕ, map};
    ghost use Rattle.fst_scopes.specs.Bytes.{bytes_of};

    ghost Value = { List (List ℕ) };

    ghost view = { λ v. map bytes_of v.set.keys };
}

impl NameTable {
    /// No names.
    pub fn new(alloc: Global) -> NameTable
        ensures { result ≡ [] }
    {
        NameTable {
            set: IndexSet::new(alloc),
        }
    }

    /// How many names there are.
    pub fn len(&self) -> usize
        ensures { result ≡ length self.now }
    {
        self.set.len()
    }

    /// The number of a name, counted from 0.
    pub fn number_of(&self, name: &Name) -> Option<usize>
        ensures number { result ≡ place_of self.now name.now }
        ensures within { IfSome result (λ k. k < length self.now) }
    {
        self.set.get_index_of(name.as_slice())
    }

    /// Puts a name behind the others, and says whether it wasn't among them, where it stays out.
    pub fn add(&mut self, alloc: Global, name: &Name) -> Result<bool, AllocError>
        ensures names { OnOk result (self.new ≡ with_name self.old name.now) }
        ensures is_new { IfOk result (λ is_new. is_new ≡ not (is_among self.old name.now)) }
    {
        let key = Vec::from_slice(alloc, name.as_slice())?;
        let (_, is_new) = self.set.insert_full(key)?;
        Ok(is_new)
    }
}

/// Puts the name that is bound behind the others, and says whether it wasn't among them; notes it where it was.
pub fn note_name(
    alloc: Global,
    binder: &Binder,
    names: &mut NameTable,
    least: &mut Option<NameFault>,
) -> Result<bool, AllocError>
    ensures names { OnOk result (names.new ≡ with_name names.old binder.now.name) }
    ensures twice { OnOk result (least.new ≡ first_from least.old
        (twice_if (is_among names.old binder.now.name) binder.now)) }
    ensures is_new { IfOk result (λ is_new. is_new ≡ not (is_among names.old binder.now.name)) }
{
    let is_new = names.add(alloc, &binder.name)?;
    if !is_new {
        note(least, NameFault::Twice(binder.at, binder.name.copy(alloc)?));
    }
    Ok(is_new)
}

/// The variables that are bound here; notes each that has the name of an earlier one.
pub fn variables_of(
    alloc: Global,
    binders: &[(Binder, Kind)],
    least: &mut Option<NameFault>,
) -> Result<NameTable, AllocError>
    ensures names { IfOk result (AreNames (variables binders.now)) }
    ensures twice { OnOk result (least.new ≡ first_from least.old (twice (variables binders.now))) }
{
    let mut names = NameTable::new(alloc);
    for (binder, _) in binders {
        note_name(alloc, binder, &mut names, least)?;
    }
    Ok(names)
}
