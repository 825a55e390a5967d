ghost use Rattle.std.specs.Prelude.{◌≡◌, ◌++◌, ◌∷◌, [], OnErr, OnOk};
ghost use Rattle.fst_lts.specs.Histories.{last_stamp};

use fst_types::Entry;
use std::alloc::{AllocError, Global};
use std::marker::Model;

/// A history, which contracts see as its list of entries.
#[derive(Drop)]
pub(crate) struct Entries {
    pub(crate) items: Vec<Entry>,
}

impl Model for Entries {
    ghost use Rattle.std.specs.Prelude.{List};
    ghost use Rattle.fst_types.specs.declared.event.Entry.{Entry};

    ghost Value = { List Entry };

    ghost view = { λ s. s.items.items };
}

impl Entries {
    pub(crate) fn new(alloc: Global) -> Entries
        ensures { result ≡ [] }
    {
        Entries {
            items: Vec::new(alloc),
        }
    }

    pub(crate) fn push(&mut self, entry: Entry) -> Result<(), AllocError>
        ensures ok { OnOk result (self.new ≡ self.old ++ entry ∷ []) }
        ensures err { OnErr result (self.new ≡ self.old) }
    {
        self.items.push(entry)?;
        Ok(())
    }

    pub(crate) fn last_stamp(&self) -> u64
        ensures { result ≡ last_stamp self.now }
    {
        match self.items.last() {
            Some(entry) => entry.stamp,
            None => 0,
        }
    }

    pub(crate) fn into_items(self) -> Vec<Entry>
        ensures { result.items ≡ self }
    {
        self.items
    }
}
