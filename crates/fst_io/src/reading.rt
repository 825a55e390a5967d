ghost use Rattle.std.specs.Prelude.{◌≡◌, ◌<◌, ◌≤◌, ◌^◌, ◌-◌, vec_len, IfOk, IfErr, OnOk};
ghost use Rattle.std.specs.Io.KnownBytes.{Consumes, IsAtEnd};
ghost use Rattle.fst_io.specs.GivingUp.{ReadGaveUp};

use crate::source::Source;
use std::alloc::{AllocError, Global};
use thiserror::Error;

/// Why not all bytes were read.
#[derive(Clone, Copy, Debug, PartialEq, Eq, Error)]
pub enum ReadFault {
    /// A read failed.
    #[error("a read failed")]
    Failed,
    /// There are more bytes than the limit.
    #[error("the input is too long")]
    TooLong,
    /// There was no memory for the bytes.
    #[error("out of memory")]
    Memory,
}

impl From<AllocError> for ReadFault {
    ghost use Rattle.fst_io.specs.declared.reading.ReadFault.TheVariants.{Memory};

    ghost from_gives = { λ _ fault. fault ≡ Memory };

    fn from(_error: AllocError) -> ReadFault {
        ReadFault::Memory
    }
}

/// The greatest number of bytes that one read asks for.
const CHUNK: usize = 4096;

/// Reads all bytes up to the end of input, at most `limit` of them.
pub fn read_all<S: Source>(
    alloc: Global,
    source: &mut S,
    limit: usize,
) -> Result<Vec<u8>, ReadFault>
    requires { limit < 2 ^ 64 - 1 }
    ensures all { IfOk result (λ v. Consumes (S.left source.old) (S.left source.new) v.items) }
    ensures end { OnOk result (IsAtEnd (S.left source.new)) }
    ensures within { IfOk result (λ v. vec_len v ≤ limit) }
    ensures fault { IfErr result (λ e.
        ReadGaveUp e limit
        (S.left source.old) (S.left source.new)
        (S.faults source.old) (S.faults source.new)) }
    ensures later { S.faults source.old ≤ S.faults source.new }
{
    let mut all = Vec::new(alloc);
    let mut chunk = [0u8; CHUNK];
    while all.len() <= limit {
        let room = (limit + 1 - all.len()).min(CHUNK);
        let buffer = &mut chunk[..room];
        match source.read(buffer) {
            Err(_) => return Err(ReadFault::Failed),
            Ok(0) => return Ok(all),
            Ok(n) => all.extend_from_slice(&buffer[..n])?,
        }
    }
    Err(ReadFault::TooLong)
}
