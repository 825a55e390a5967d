ghost use Rattle.std.specs.Prelude.{ℕ, ◌<◌, ◌≤◌, List, length, Option, OnErr};
ghost use Rattle.std.specs.Io.{ReadsAtMost};
ghost use Rattle.std.specs.Io.KnownBytes.{ReadConsumes};
ghost use Rattle.fst_io.specs.Faults.{Rose};

/// A read failed.
#[derive(Clone, Copy, Debug, PartialEq, Eq)]
pub struct Failed;

/// Where bytes come from. Its meanings are the bytes left, where they are told, and a count of
/// faults.
pub trait Source {
    ghost left: { Self → Option (List ℕ) };

    ghost faults: { Self → ℕ };

    /// Takes bytes from the front of those left into the front of the buffer, and answers how
    /// many. `Ok(0)` is the end of input.
    fn read(&mut self, buffer: &mut [u8]) -> Result<usize, Failed>
        requires { 0 < length buffer.old }
        ensures bound { ReadsAtMost result buffer.new }
        ensures bytes { ReadConsumes (left self.old) (left self.new) result buffer.new }
        ensures failed { OnErr result (Rose (faults self.old) (faults self.new)) }
        ensures later { faults self.old ≤ faults self.new };
}
