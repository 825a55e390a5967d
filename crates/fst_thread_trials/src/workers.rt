//! A run on two workers, which a gate watches and holds.

use fst_command::{Status, top};
use fst_io::{Gate, SteadySink, SteadySource};
use std::alloc::{AllocError, Global};
use std::sync::atomic::{AtomicU32, Ordering};
use std::test::Fail;
use std::thread;
use std::thread::Threads;

// How often a worker looks at most whether it may go on.
const MOST_LOOKS: u32 = 100_000_000;

/// A gate that holds each of the shares 0 and 1 until the other is there too; and then share 0, until share 1 has made a
/// turn of task 0.1.
#[derive(Drop)]
struct Watch {
    // how often the shares have entered
    entries: [AtomicU32; 2],
    // how many turns the tasks 0 and 0.1 have made
    turns: [AtomicU32; 2],
    // 1 and the number of the share that made the first turn of task 0.1
    first: AtomicU32,
    // how many turns of task 0.1 share 1 has made
    apart: AtomicU32,
    // how often a share waited in vain
    failures: AtomicU32,
}

impl Watch {
    fn new() -> Watch {
        Watch {
            entries: [AtomicU32::new(0), AtomicU32::new(0)],
            turns: [AtomicU32::new(0), AtomicU32::new(0)],
            first: AtomicU32::new(0),
            apart: AtomicU32::new(0),
            failures: AtomicU32::new(0),
        }
    }

    // Waits until the number is no longer 0.
    fn wait(&self, number: &AtomicU32) {
        for _look in 0..MOST_LOOKS {
            if number.load(Ordering::SeqCst) > 0 {
                return;
            }
            thread::yield_now();
        }
        self.failures.fetch_add(1, Ordering::SeqCst);
    }
}

impl Gate for Watch {
    fn enter(&self, share: u32) {
        match share {
            0 => match self.entries[0].fetch_add(1, Ordering::SeqCst) {
                0 => self.wait(&self.entries[1]),
                1 => self.wait(&self.apart),
                _ => return,
            },
            1 => {
                self.entries[1].fetch_add(1, Ordering::SeqCst);
                self.wait(&self.entries[0]);
            }
            _ => return,
        }
    }

    fn turned(&self, share: u32, task: &[u32]) {
        match task {
            [0] => {
                self.turns[0].fetch_add(1, Ordering::SeqCst);
            }
            [0, 1] => {
                let before = self.turns[1].fetch_add(1, Ordering::SeqCst);
                if before == 0 {
                    self.first.store(share.saturating_add(1), Ordering::SeqCst);
                }
                if share == 1 {
                    self.apart.fetch_add(1, Ordering::SeqCst);
                }
            }
            _ => return,
        }
    }
}

fn words(alloc: Global, list: &[&str]) -> Result<Vec<String>, AllocError> {
    let mut words = Vec::new(alloc);
    for word in list {
        words.push(String::from_str(alloc, word)?)?;
    }
    Ok(words)
}

const SOURCE: &[u8] =
    b"main : Int\nmain = let (a, b) = new !Int in fork (send 42 a); let (x, c) = receive b in x\n";

// What a run writes of it, and what stands behind that where its events are asked for.
const REPORT: &[u8] = b"result 42\nchannel 0#1 : !Int\nhistory 0#1 : !42\n";

const EVENTS: &[u8] = b"event 1 new 0 0#1\nevent 2 fork 0 0.1\nevent 3 meet 0#1 0.1 0\n";

// Runs the source on two workers that a gate watches: what is written is the report with these lines behind it, no share has
// waited in vain, and the forked task made its first turn on the second share.
fn run_watched<R: Threads + Sync>(
    rt: &R,
    alloc: Global,
    list: &[&str],
    behind: &[u8],
) -> Result<(), Fail> {
    let watch = Watch::new();
    let mut source = SteadySource {
        bytes: SOURCE.to_vec(alloc)?,
        next: 0,
    };
    let mut sink = SteadySink {
        bytes: Vec::new(alloc),
    };
    let words = words(alloc, list)?;
    let status = top(rt, alloc, &words, &mut source, &mut sink, &watch);
    let mut wanted = REPORT.to_vec(alloc)?;
    wanted.extend_from_slice(behind)?;
    if status != Status::Done || sink.bytes.as_slice() != wanted.as_slice() {
        return Err(Fail::new("something else is written"));
    }
    if watch.failures.load(Ordering::SeqCst) != 0 || watch.first.load(Ordering::SeqCst) != 2 {
        return Err(Fail::new("the forked task wasn't moved by the second share"));
    }
    if watch.turns[0].load(Ordering::SeqCst) != 3 || watch.turns[1].load(Ordering::SeqCst) != 2 {
        return Err(Fail::new("the gate was told of other turns"));
    }
    Ok(())
}

#[test]
fn workers_run_at_one_time(rt: HostRuntime) -> Result<(), Fail> {
    let alloc = rt.alloc();
    run_watched(&rt, alloc, &["run", "--workers", "2"], b"")?;
    run_watched(&rt, alloc, &["run", "--workers", "2", "--events"], EVENTS)
}
