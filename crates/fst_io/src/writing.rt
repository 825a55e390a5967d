ghost use Rattle.std.specs.Prelude.{◌≤◌, OnOk, IfErr};
ghost use Rattle.std.specs.Io.KnownBytes.{Appends};
ghost use Rattle.fst_io.specs.GivingUp.{WriteGaveUp};

use crate::sink::{Sink, SinkFault};
use thiserror::Error;

/// Why not all bytes were written, with the number of bytes that were.
#[derive(Clone, Copy, Debug, PartialEq, Eq, Error)]
pub enum WriteFault {
    /// A write failed.
    #[error("a write failed after {0} bytes")]
    Failed(usize),
    /// The sink had no memory for the next bytes.
    #[error("out of memory after {0} bytes")]
    Memory(usize),
}

/// Writes all the bytes.
pub fn write_all<K: Sink>(sink: &mut K, bytes: &[u8]) -> Result<(), WriteFault>
    ensures all { OnOk result (Appends (K.taken sink.old) (K.taken sink.new) bytes.now) }
    ensures fault { IfErr result (λ e.
        WriteGaveUp e bytes.now
        (K.taken sink.old) (K.taken sink.new)
        (K.faults sink.old) (K.faults sink.new)) }
    ensures later { K.faults sink.old ≤ K.faults sink.new }
{
    let mut done = 0;
    while done < bytes.len() {
        match sink.write(&bytes[done..]) {
            Ok(n) => done += n,
            Err(SinkFault::Failed) => return Err(WriteFault::Failed(done)),
            Err(SinkFault::Memory) => return Err(WriteFault::Memory(done)),
        }
    }
    Ok(())
}
