ghost use Rattle.std.specs.Prelude.{◌≡◌, ◌++◌, ◌∷◌, [], ℕ, IfOk, Some, slice_get, true, false};

use indexmap::IndexSet;
use std::alloc::{AllocError, Global};
use std::marker::Model;

/// Pairs of numbers that were noted, each once.
#[derive(Drop)]
pub(crate) struct Noted {
    pairs: IndexSet<(u32, u32)>,
}

impl Model for Noted {
    ghost use Rattle.std.specs.Prelude.{List, ℕ};

    ghost Value = { List (ℕ × ℕ) };

    ghost view = { λ n. n.pairs.keys };
}

impl Noted {
    /// No pair.
    pub(crate) fn new(alloc: Global) -> Noted
        ensures { result ≡ [] }
    {
        Noted {
            pairs: IndexSet::new(alloc),
        }
    }

    /// Notes a pair, and says whether it is new.
    pub(crate) fn note(&mut self, left: u32, right: u32) -> Result<bool, AllocError>
        ensures old { IfOk result (λ new. new ≡ false → (j : ℕ) ×
            (slice_get self.old j ≡ Some (left, right))) }
        ensures same { IfOk result (λ new. new ≡ false → self.new ≡ self.old) }
        ensures new { IfOk result (λ new. new ≡ true → self.new ≡ self.old ++ (left, right) ∷ []) }
    {
        let new = self.pairs.insert((left, right))?;
        Ok(new)
    }
}
