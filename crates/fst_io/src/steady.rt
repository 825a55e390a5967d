ghost use Rattle.std.specs.Prelude.{◌≤◌, Some, drop, vec_len};

use crate::sink::{Sink, SinkFault};
use crate::source::{Failed, Source};

/// Bytes in memory, whose reads never fail. Those from `next` on are left.
#[derive(Drop)]
pub struct SteadySource {
    pub bytes: Vec<u8>,
    pub next: usize,
    ghost within: { next ≤ vec_len bytes },
}

impl Source for SteadySource {
    ghost left = { λ s. Some (drop s.next s.bytes.items) };

    ghost faults = { λ _. 0 };

    fn read(&mut self, buffer: &mut [u8]) -> Result<usize, Failed> {
        let n = buffer.len().min(self.bytes.len() - self.next);
        buffer[..n].copy_from_slice(&self.bytes[self.next..self.next + n]);
        self.next += n;
        Ok(n)
    }
}

/// A list that takes every byte, unless memory runs out.
#[derive(Drop)]
pub struct SteadySink {
    pub bytes: Vec<u8>,
}

impl Sink for SteadySink {
    ghost taken = { λ s. Some s.bytes.items };

    ghost faults = { λ _. 0 };

    fn write(&mut self, piece: &[u8]) -> Result<usize, SinkFault> {
        match self.bytes.extend_from_slice(piece) {
            Ok(()) => Ok(piece.len()),
            Err(_) => Err(SinkFault::Memory),
        }
    }
}
