//! Reading and writing all bytes, over ends that fail and ends that don't.

use fst_io::{
    Failed, Gate, InputSource, MemorySink, MemorySource, OpenGate, OutputSink, ReadFault, Sink,
    SinkFault, Source, SteadySink, SteadySource, WriteFault, read_all, write_all,
};
use fst_tables::{each_line, fields, no_row};
use std::alloc::Global;
use std::io;
use std::io::{Read, Write};
use std::test::Fail;

/// A source of these bytes that gives at most so many in a call, of which one fails.
pub(crate) fn source_of(
    alloc: Global,
    bytes: &[u8],
    piece: usize,
    fail: u64,
) -> Result<MemorySource, Fail> {
    if piece == 0 {
        return Err(Fail::new("no piece"));
    }
    Ok(MemorySource {
        bytes: bytes.to_vec(alloc)?,
        next: 0,
        piece,
        calls: 0,
        fail: vec![in alloc; fail]?,
        faults: 0,
    })
}

/// A sink that takes at most so many bytes in a call, of which one fails.
pub(crate) fn sink_of(alloc: Global, piece: usize, fail: u64) -> Result<MemorySink, Fail> {
    if piece == 0 {
        return Err(Fail::new("no piece"));
    }
    Ok(MemorySink {
        bytes: Vec::new(alloc),
        piece,
        calls: 0,
        fail: vec![in alloc; fail]?,
        faults: 0,
    })
}

/// Bytes as a text.
pub(crate) fn shown(bytes: &[u8]) -> Result<&str, Fail> {
    Ok(str::from_utf8(bytes)?)
}

// How many bytes there are and how many are allowed; how many are read, or the fault, and how many are taken.
const STEADY: &str = "\
0 ¦ 0 = 0 0
3 ¦ 0 = TooLong 1
3 ¦ 2 = TooLong 3
3 ¦ 3 = 3 3
3 ¦ 4 = 3 3
5000 ¦ 4999 = TooLong 5000
5000 ¦ 5000 = 5000 5000";

fn steady_row(alloc: Global, given: &str) -> Result<String, Fail> {
    let fields = fields(alloc, given)?;
    let [count, limit] = fields.as_slice() else {
        return Err(no_row());
    };
    let bytes = [b'x'].repeat(alloc, count.parse::<usize>()?)?;
    let limit = usize::from(limit.parse::<u16>()?);
    let mut source = SteadySource { bytes, next: 0 };
    match read_all(alloc, &mut source, limit) {
        Ok(read) => Ok(format!(in alloc; "{} {}", read.len(), source.next)?),
        Err(fault) => Ok(format!(in alloc; "{fault:?} {}", source.next)?),
    }
}

#[test]
fn reads_to_the_end_or_one_past_the_limit(rt: HostRuntime) -> Result<(), Fail> {
    each_line(rt.alloc(), STEADY, steady_row)
}

// Of `abcde`, how many bytes a call gives and which call fails; what is read, or the fault, and how many bytes are left.
const READS: &str = "\
1 ¦ 1 = Failed 5
1 ¦ 2 = Failed 4
1 ¦ 4 = Failed 2
2 ¦ 1 = Failed 5
2 ¦ 3 = Failed 1
2 ¦ 4 = Failed 0
7 ¦ 1 = Failed 5
7 ¦ 2 = Failed 0
7 ¦ 3 = abcde 0";

fn read_row(alloc: Global, given: &str) -> Result<String, Fail> {
    let (piece, fail) = given.split_once(" ¦ ").ok_or("no call")?;
    let mut source = source_of(
        alloc,
        b"abcde",
        piece.parse::<usize>()?,
        fail.parse::<u64>()?,
    )?;
    let read = read_all(alloc, &mut source, 9);
    let left = source.bytes.len() - source.next;
    match read {
        Ok(read) => Ok(format!(in alloc; "{} {left}", shown(&read)?)?),
        Err(fault) => Ok(format!(in alloc; "{fault:?} {left}")?),
    }
}

#[test]
fn reads_in_pieces_up_to_the_call_that_fails(rt: HostRuntime) -> Result<(), Fail> {
    each_line(rt.alloc(), READS, read_row)
}

// Of `abcde`, how many bytes a call takes and which call fails; the answer, and what is taken.
const WRITES: &str = "\
1 ¦ 1 = Err(Failed(0))
1 ¦ 2 = Err(Failed(1)) a
1 ¦ 5 = Err(Failed(4)) abcd
1 ¦ 6 = Ok(()) abcde
2 ¦ 1 = Err(Failed(0))
2 ¦ 3 = Err(Failed(4)) abcd
2 ¦ 4 = Ok(()) abcde
7 ¦ 1 = Err(Failed(0))
7 ¦ 2 = Ok(()) abcde";

fn write_row(alloc: Global, given: &str) -> Result<String, Fail> {
    let (piece, fail) = given.split_once(" ¦ ").ok_or("no call")?;
    let mut sink = sink_of(alloc, piece.parse::<usize>()?, fail.parse::<u64>()?)?;
    let written = write_all(&mut sink, b"abcde");
    Ok(format!(in alloc; "{written:?} {}", shown(&sink.bytes)?)?)
}

#[test]
fn writes_in_pieces_up_to_the_call_that_fails(rt: HostRuntime) -> Result<(), Fail> {
    each_line(rt.alloc(), WRITES, write_row)
}

#[test]
fn a_steady_sink_takes_all(rt: HostRuntime) -> Result<(), Fail> {
    let bytes = b"ab".to_vec(rt.alloc())?;
    let mut sink = SteadySink { bytes };
    write_all(&mut sink, b"")?;
    write_all(&mut sink, b"cd")?;
    assert_eq!(rt; sink.bytes.as_slice(), b"abcd".as_slice());
    Ok(())
}

#[test]
fn counts_stay_at_the_greatest(rt: HostRuntime) -> Result<(), Fail> {
    let mut source = source_of(rt.alloc(), b"a", 1, u64::MAX)?;
    (source.calls, source.faults) = (u64::MAX, u64::MAX);
    assert_eq!(rt; source.read(&mut [0u8]), Err(Failed));
    assert!(rt; source.calls == u64::MAX && source.faults == u64::MAX);
    let mut sink = sink_of(rt.alloc(), 1, u64::MAX)?;
    (sink.calls, sink.faults) = (u64::MAX, u64::MAX);
    assert_eq!(rt; sink.write(b"a"), Err(SinkFault::Failed));
    assert!(rt; sink.calls == u64::MAX && sink.faults == u64::MAX);
    Ok(())
}

/// A reader and writer that moves one byte at its first call, and answers an error at the next.
#[derive(Drop)]
struct OneByte {
    was_called: bool,
}

impl Read for OneByte {
    fn read(&mut self, buf: &mut [u8]) -> io::Result<usize> {
        if self.was_called || buf.is_empty() {
            return Err(io::ErrorKind::Other.into());
        }
        self.was_called = true;
        buf[0] = b'a';
        Ok(1)
    }
}

impl Write for OneByte {
    fn write(&mut self, buf: &[u8]) -> io::Result<usize> {
        if self.was_called || buf.is_empty() {
            return Err(io::ErrorKind::Other.into());
        }
        self.was_called = true;
        Ok(1)
    }

    fn flush(&mut self) -> io::Result<()> {
        Ok(())
    }
}

/// A writer that takes nothing.
#[derive(Drop)]
struct TakesNothing;

impl Write for TakesNothing {
    fn write(&mut self, _buf: &[u8]) -> io::Result<usize> {
        Ok(0)
    }

    fn flush(&mut self) -> io::Result<()> {
        Ok(())
    }
}

#[test]
fn adapters_pass_bytes_on(rt: HostRuntime) -> Result<(), Fail> {
    let mut source = InputSource::new(&b"abc"[..]);
    let read = read_all(rt.alloc(), &mut source, 3)?;
    let mut written = Vec::new(rt.alloc());
    let mut sink = OutputSink::new(&mut written);
    write_all(&mut sink, &read)?;
    assert!(rt; source.faults == 0 && sink.faults == 0);
    assert_eq!(rt; written.as_slice(), b"abc".as_slice());
    Ok(())
}

#[test]
fn adapters_count_faults(rt: HostRuntime) -> Result<(), Fail> {
    let mut source = InputSource::new(OneByte { was_called: false });
    let read = read_all(rt.alloc(), &mut source, 9);
    assert_eq!(rt; read.err(), Some(ReadFault::Failed));
    let mut sink = OutputSink::new(OneByte { was_called: false });
    assert_eq!(rt; write_all(&mut sink, b"ab"), Err(WriteFault::Failed(1)));
    let mut still = OutputSink::new(TakesNothing);
    assert_eq!(rt; write_all(&mut still, b"ab"), Err(WriteFault::Failed(0)));
    assert!(rt; source.faults == 1 && sink.faults == 1 && still.faults == 1);
    Ok(())
}

fn pass<G: Gate + Sync>(gate: &G) {
    gate.enter(0);
    gate.turned(0, &[0, 1]);
}

#[test]
fn the_open_gate_lets_all_pass() {
    pass(&OpenGate);
}
