//! The program over ends that fail.

use crate::ends::{sink_of, source_of};
use crate::program::words;
use fst_command::top;
use fst_io::{OpenGate, OutputSink, SteadySource};
use fst_tables::{each_line, each_pair};
use std::alloc::Global;
use std::io;
use std::io::Write;
use std::test::Fail;
use std::thread::Threads;

/// What passes between a run and ends of which one call fails: its status, what is written, and how many calls there were.
#[derive(Drop)]
struct Between {
    status: u8,
    written: Vec<u8>,
    reads: u64,
    writes: u64,
}

/// Runs the command over a source and a sink that give and take so many bytes in a call, of which one fails.
fn run_between<R: Threads + Sync>(
    rt: &R,
    alloc: Global,
    (command, input): (&str, &str),
    reads: (usize, u64),
    writes: (usize, u64),
) -> Result<Between, Fail> {
    let mut source = source_of(alloc, input.as_bytes(), reads.0, reads.1)?;
    let mut sink = sink_of(alloc, writes.0, writes.1)?;
    let words = words(alloc, command)?;
    let status = top(rt, alloc, &words, &mut source, &mut sink, &OpenGate);
    Ok(Between {
        status: status.number(),
        written: sink.bytes,
        reads: source.calls,
        writes: sink.calls,
    })
}

/// The number of bytes in front of ` ¦ `, and the command and its input behind it.
fn ends_row(given: &str) -> Result<(usize, (&str, &str)), Fail> {
    let (piece, rest) = given.split_once(" ¦ ").ok_or("no number")?;
    let command = rest.split_once(" ¦ ").ok_or("no input")?;
    Ok((piece.parse::<usize>()?, command))
}

/// The status, and how many calls on the source there are. Each of them that fails is a read fault, and nothing is written.
fn reads_row<R: Threads + Sync>(rt: &R, alloc: Global, given: &str) -> Result<String, Fail> {
    let (piece, command) = ends_row(given)?;
    let whole = run_between(rt, alloc, command, (piece, 0), (99, 0))?;
    for fail in 1..=whole.reads {
        let cut = run_between(rt, alloc, command, (piece, fail), (99, 0))?;
        if cut.status != 6 || cut.reads != fail || cut.writes != 0 {
            return Err(Fail::new("no read fault, or more is read, or something is written"));
        }
    }
    Ok(format!(in alloc; "{} {}", whole.status, whole.reads)?)
}

/// The status, and how many calls on the sink there are. Each of them that fails is a write fault, and what the calls before it
/// took stands there.
fn writes_row<R: Threads + Sync>(rt: &R, alloc: Global, given: &str) -> Result<String, Fail> {
    let (piece, command) = ends_row(given)?;
    let whole = run_between(rt, alloc, command, (99, 0), (piece, 0))?;
    for fail in 1..=whole.writes {
        let cut = run_between(rt, alloc, command, (99, 0), (piece, fail))?;
        let taken = u64::try_from(cut.written.len())?;
        let wanted = u64::try_from(piece)?.saturating_mul(fail.saturating_sub(1));
        if cut.status != 7 || taken != wanted || !whole.written.starts_with(&cut.written) {
            return Err(Fail::new("no write fault, or something else is written"));
        }
    }
    Ok(format!(in alloc; "{} {}", whole.status, whole.writes)?)
}

// How many bytes a call gives, the command and its input; the status, and how many calls read the input and its end.
const READS: [(&str, &str); 8] = [
    // source-fails
    (
        "1 ¦ run ¦ main : Int\nmain = let (a, b) = new !Int in fork (send 5 a); let (x, d) = receive b in x\n",
        "0 89",
    ),
    ("4 ¦ equiv ¦ Skip;!Int ~ !Int;Skip", "0 7"),
    (
        "7 ¦ equiv --budget 1 ¦ rec x.!Int;x ~ rec x.!Int;!Int;x",
        "5 6",
    ),
    ("2 ¦ show ¦ f = (x)\n", "0 5"),
    ("3 ¦ check ¦ main : Int\nmain = x\n", "1 8"),
    ("99 ¦ check ¦ ", "1 1"),
    (
        "6 ¦ audit ¦ Skip;!Int ~ !Int;Skip\npairs 0\nchains 1\nchain\n",
        "0 9",
    ),
    ("1 ¦ make 2 ¦ main", "0 0"),
];

#[test]
fn failing_reads_write_nothing(rt: HostRuntime) -> Result<(), Fail> {
    each_pair(
        rt.alloc(),
        &READS,
        |alloc, given| reads_row(&rt, alloc, given),
    )
}

// How many bytes a call takes, the command and its input; the status, and how many calls write the text.
const WRITES: [(&str, &str); 14] = [
    // sink-fails
    (
        "7 ¦ run ¦ main : Int\nmain = let (a, b) = new !Int in fork (send 5 a); let (x, d) = receive b in x\n",
        "0 7",
    ),
    ("1 ¦ equiv ¦ Skip;!Int ~ !Int;Skip", "0 4"),
    ("3 ¦ equiv ¦ !Int ~ ?Int", "0 5"),
    (
        "2 ¦ equiv --budget 1 ¦ rec x.!Int;x ~ rec x.!Int;!Int;x",
        "5 6",
    ),
    ("4 ¦ show ¦ f = (x)\n", "0 2"),
    ("9 ¦ show ¦ ", "0 0"),
    ("5 ¦ check ¦ main : Int\nmain = x\n", "1 5"),
    ("8 ¦ check ¦ main : Int\nmain = 5\n", "0 2"),
    (
        "3 ¦ run --steps 0 ¦ main : Int\nmain = f 5\nf : Int -> Int\nf x = x\n",
        "4 5",
    ),
    (
        "9 ¦ run ¦ main : Int\nmain = let (a, b) = new !Int in let (c, d) = new !Int in fork (let (x, e) = receive d in send x a); let (y, e) = receive b in send y c; 5",
        "3 14",
    ),
    ("16 ¦ make 2 ¦ ", "0 3"),
    ("10 ¦ help ¦ ", "2 5"),
    ("8 ¦ equiv --proof ¦ Skip;!Int ~ !Int;Skip", "0 6"),
    (
        "5 ¦ audit ¦ Skip;!Int ~ !Int;Skip\npairs 0\nchains 1\nchain\n",
        "0 2",
    ),
];

#[test]
fn failing_writes_leave_a_prefix(rt: HostRuntime) -> Result<(), Fail> {
    each_pair(
        rt.alloc(),
        &WRITES,
        |alloc, given| writes_row(&rt, alloc, given),
    )
}

/// A writer whose every call answers an error.
#[derive(Drop)]
struct Broken;

impl Write for Broken {
    fn write(&mut self, _buf: &[u8]) -> io::Result<usize> {
        Err(io::ErrorKind::Other.into())
    }

    fn flush(&mut self) -> io::Result<()> {
        Ok(())
    }
}

fn broken_row<R: Threads + Sync>(rt: &R, alloc: Global, given: &str) -> Result<String, Fail> {
    let mut source = SteadySource {
        bytes: b"Skip ~ Skip".to_vec(alloc)?,
        next: 0,
    };
    let mut sink = OutputSink::new(Broken);
    let words = words(alloc, given)?;
    let status = top(rt, alloc, &words, &mut source, &mut sink, &OpenGate);
    Ok(format!(in alloc; "{status:?} {}", sink.faults)?)
}

#[test]
fn a_broken_output_is_a_write_fault(rt: HostRuntime) -> Result<(), Fail> {
    each_line(
        rt.alloc(),
        "equiv = WriteFault 1",
        |alloc, given| broken_row(&rt, alloc, given),
    )
}
