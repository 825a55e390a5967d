ghost use Rattle.std.specs.Prelude.{◌≡◌, ◌+◌, ◌-◌, ◌<◌, ◌≤◌, ◌↔◌, min, Some, drop, length, vec_len, Contains, IfOk, OnErr, IsErr, if◌then◌else◌};
ghost use Rattle.std.specs.Result.{is_err, result_unwrap_or};
ghost use Rattle.std.specs.Io.{ReadsAtMost, WritesAtMost};
ghost use Rattle.std.specs.Io.KnownBytes.{ReadConsumes, WriteAppends};
ghost use Rattle.fst_io.specs.Faults.{Rose, one_more};

use crate::sink::{Sink, SinkFault};
use crate::source::{Failed, Source};

/// Bytes in memory, some of whose reads fail. Those from `next` on are left.
#[derive(Drop)]
pub struct MemorySource {
    /// The bytes given and those left.
    pub bytes: Vec<u8>,
    /// How many bytes were given.
    pub next: usize,
    /// The most bytes that one read gives.
    pub piece: usize,
    /// How many reads there were; it stays at the greatest `u64`.
    pub calls: u64,
    /// The numbers of the reads that fail, counted from 1.
    pub fail: Vec<u64>,
    /// How many reads failed; it stays at the greatest `u64`.
    pub faults: u64,
    ghost within: { next ≤ vec_len bytes },
    ghost some_piece: { 1 ≤ piece },
}

impl Source for MemorySource {
    ghost use Rattle.fst_io.specs.Memory.{KeepsSource};

    ghost left = { λ s. Some (drop s.next s.bytes.items) };

    ghost faults = { λ s. s.faults };

    fn read(&mut self, buffer: &mut [u8]) -> Result<usize, Failed>
        requires { 0 < length buffer.old }
        ensures bound { ReadsAtMost result buffer.new }
        ensures bytes { ReadConsumes
            (Some (drop self.old.next self.old.bytes.items))
            (Some (drop self.new.next self.new.bytes.items)) result buffer.new }
        ensures failed { OnErr result (Rose self.old.faults self.new.faults) }
        ensures later { self.old.faults ≤ self.new.faults }

        // The calls are numbered from 1, and those fail whose number is in the list.
        ensures numbered { self.new.calls ≡ one_more self.old.calls }
        ensures fails { IsErr result ↔ Contains self.old.fail.items self.new.calls }
        ensures fault { self.new.faults ≡
            (if is_err result then one_more self.old.faults else self.old.faults) }

        // Any other gives as much as it may and moves past it; the rest of the buffer stays.
        ensures count { IfOk result (λ n. n ≡
            min (min (length buffer.old) self.old.piece) (vec_len self.old.bytes - self.old.next)) }
        ensures next { self.new.next ≡ self.old.next + result_unwrap_or result 0 }
        ensures rest { let n = result_unwrap_or result 0 in drop n buffer.new ≡ drop n buffer.old }
        ensures keeps { KeepsSource self.old self.new }
    {
        self.calls = self.calls.saturating_add(1);
        if self.fail.contains(&self.calls) {
            self.faults = self.faults.saturating_add(1);
            return Err(Failed);
        }
        let room = buffer.len().min(self.piece);
        let n = room.min(self.bytes.len() - self.next);
        buffer[..n].copy_from_slice(&self.bytes[self.next..self.next + n]);
        self.next += n;
        Ok(n)
    }
}

/// A list that takes bytes in pieces, some of whose writes fail.
#[derive(Drop)]
pub struct MemorySink {
    /// The bytes taken.
    pub bytes: Vec<u8>,
    /// The most bytes that one write takes.
    pub piece: usize,
    /// How many writes there were; it stays at the greatest `u64`.
    pub calls: u64,
    /// The numbers of the writes that fail, counted from 1.
    pub fail: Vec<u64>,
    /// How many writes failed; it stays at the greatest `u64`. Want of memory is no fault.
    pub faults: u64,
    ghost some_piece: { 1 ≤ piece },
}

impl Sink for MemorySink {
    ghost use Rattle.fst_io.specs.Memory.{is_failed, KeepsSink};

    ghost taken = { λ s. Some s.bytes.items };

    ghost faults = { λ s. s.faults };

    fn write(&mut self, piece: &[u8]) -> Result<usize, SinkFault>
        requires { 0 < length piece.now }
        ensures some { IfOk result (λ n. 0 < n) }
        ensures bound { WritesAtMost result piece.now }
        ensures bytes { WriteAppends
            (Some self.old.bytes.items) (Some self.new.bytes.items) result piece.now }
        ensures failed { result ≡ Err SinkFault.Failed → Rose self.old.faults self.new.faults }
        ensures later { self.old.faults ≤ self.new.faults }

        // The calls are numbered from 1, and those fail whose number is in the list.
        ensures numbered { self.new.calls ≡ one_more self.old.calls }
        ensures fails { (result ≡ Err SinkFault.Failed)
            ↔ Contains self.old.fail.items self.new.calls }
        ensures fault { self.new.faults ≡
            (if is_failed result then one_more self.old.faults else self.old.faults) }

        // Any other takes as much as it may, unless memory runs out.
        ensures count { IfOk result (λ n. n ≡ min (length piece.now) self.old.piece) }
        ensures keeps { KeepsSink self.old self.new }
    {
        self.calls = self.calls.saturating_add(1);
        if self.fail.contains(&self.calls) {
            self.faults = self.faults.saturating_add(1);
            return Err(SinkFault::Failed);
        }
        let n = piece.len().min(self.piece);
        match self.bytes.extend_from_slice(&piece[..n]) {
            Ok(()) => Ok(n),
            Err(_) => Err(SinkFault::Memory),
        }
    }
}
