ghost use Rattle.std.specs.Prelude.{◌≡◌, IfOk};

use std::alloc::{AllocError, Global};
use std::marker::Model;

/// The path of a task: that of `main`'s task is 0, and the k-th task that a task forks, counted from 1, has its path with k
/// behind it. Contracts see the list of its numbers.
#[derive(Drop)]
pub struct Path {
    numbers: Vec<u32>,
}

impl Model for Path {
    ghost use Rattle.std.specs.Prelude.{List, ℕ};

    ghost Value = { List ℕ };

    ghost view = { λ p. p.numbers.items };
}

impl Path {
    /// The path of these numbers.
    pub fn of(alloc: Global, numbers: &[u32]) -> Result<Path, AllocError>
        ensures { IfOk result (λ p. p ≡ numbers.now) }
    {
        Ok(Path {
            numbers: Vec::from_slice(alloc, numbers)?,
        })
    }

    /// The numbers of the path.
    pub fn as_slice(&self) -> &[u32]
        ensures { result.now ≡ self.now }
    {
        &self.numbers
    }

    /// The same path in memory of its own.
    pub fn copy(&self, alloc: Global) -> Result<Path, AllocError>
        ensures { IfOk result (λ p. p ≡ self.now) }
    {
        Path::of(alloc, self.as_slice())
    }
}
