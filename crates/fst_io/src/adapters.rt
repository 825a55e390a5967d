ghost use Rattle.std.specs.Prelude.{◌≡◌, ◌≢◌, ◌<◌, ◌≤◌, length, IfOk, OnErr, if◌then◌else◌};
ghost use Rattle.std.specs.Result.{is_err};
ghost use Rattle.std.specs.Io.{ReadsAtMost, WritesAtMost};
ghost use Rattle.std.specs.Io.KnownBytes.{ReadConsumes, WriteAppends};
ghost use Rattle.fst_io.specs.Adapters.{AnswersRead, AnswersWrite};
ghost use Rattle.fst_io.specs.Faults.{Rose, one_more};

use crate::sink::{Sink, SinkFault};
use crate::source::{Failed, Source};
use std::io;
use std::io::{Read, Write};

/// A reader, as standard input, with a count of its errors. The bytes left are those that the
/// reader tells; standard input tells none.
#[derive(Drop)]
pub struct InputSource<R> {
    /// What is read.
    pub inner: R,
    /// How many reads failed; it stays at the greatest `u64`.
    pub faults: u64,
}

impl<R> InputSource<R> {
    /// A source that has counted no error yet.
    pub fn new(inner: R) -> Self
        ensures reader { result.inner ≡ inner }
        ensures count { result.faults ≡ 0 }
    {
        InputSource { inner, faults: 0 }
    }
}

// What a source answers for what its reader answered.
fn read_answer(answer: io::Result<usize>, faults: &mut u64) -> Result<usize, Failed>
    ensures answers { AnswersRead answer result faults.old faults.new }
    ensures later { faults.old ≤ faults.new }
{
    match answer {
        Ok(n) => Ok(n),
        Err(_) => {
            *faults = faults.saturating_add(1);
            Err(Failed)
        }
    }
}

impl<R: Read> Source for InputSource<R> {
    ghost left = { λ s. R.remaining s.inner };

    ghost faults = { λ s. s.faults };

    fn read(&mut self, buffer: &mut [u8]) -> Result<usize, Failed>
        requires { 0 < length buffer.old }
        ensures bound { ReadsAtMost result buffer.new }
        ensures bytes { ReadConsumes
            (R.remaining self.old.inner) (R.remaining self.new.inner) result buffer.new }
        ensures failed { OnErr result (Rose self.old.faults self.new.faults) }
        ensures later { self.old.faults ≤ self.new.faults }

        // The count rises where a read fails, and there alone.
        ensures fault { self.new.faults ≡
            (if is_err result then one_more self.old.faults else self.old.faults) }
    {
        read_answer(self.inner.read(buffer), &mut self.faults)
    }
}

/// A writer, as standard output, with a count of its errors. The bytes taken are those that the
/// writer tells; standard output tells none.
#[derive(Drop)]
pub struct OutputSink<W> {
    /// What is written to.
    pub inner: W,
    /// How many writes failed or took nothing; it stays at the greatest `u64`.
    pub faults: u64,
}

impl<W> OutputSink<W> {
    /// A sink that has counted no error yet.
    pub fn new(inner: W) -> Self
        ensures writer { result.inner ≡ inner }
        ensures count { result.faults ≡ 0 }
    {
        OutputSink { inner, faults: 0 }
    }
}

// What a sink answers for what its writer answered.
fn write_answer(answer: io::Result<usize>, faults: &mut u64) -> Result<usize, SinkFault>
    ensures answers { AnswersWrite answer result faults.old faults.new }
    ensures later { faults.old ≤ faults.new }
    ensures no_memory { result ≢ Err SinkFault.Memory }
{
    match answer {
        Ok(0) | Err(_) => {
            *faults = faults.saturating_add(1);
            Err(SinkFault::Failed)
        }
        Ok(n) => Ok(n),
    }
}

impl<W: Write> Sink for OutputSink<W> {
    ghost taken = { λ s. W.contents s.inner };

    ghost faults = { λ s. s.faults };

    fn write(&mut self, piece: &[u8]) -> Result<usize, SinkFault>
        requires { 0 < length piece.now }
        ensures some { IfOk result (λ n. 0 < n) }
        ensures bound { WritesAtMost result piece.now }
        ensures bytes { WriteAppends
            (W.contents self.old.inner) (W.contents self.new.inner) result piece.now }
        ensures failed { result ≡ Err SinkFault.Failed → Rose self.old.faults self.new.faults }
        ensures later { self.old.faults ≤ self.new.faults }

        // The count rises where a write fails or takes nothing, and there alone; an error is no
        // want of memory.
        ensures fault { self.new.faults ≡
            (if is_err result then one_more self.old.faults else self.old.faults) }
        ensures no_memory { result ≢ Err SinkFault.Memory }
    {
        write_answer(self.inner.write(piece), &mut self.faults)
    }
}
