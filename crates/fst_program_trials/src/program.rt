//! The program over ends in memory.

use crate::ends::shown;
use fst_command::{Status, top};
use fst_io::{OpenGate, SteadySink, SteadySource};
use fst_make::make;
use fst_tables::{each_line, each_pair};
use std::alloc::{AllocError, Global};
use std::test::Fail;
use std::thread::Threads;

pub(crate) fn words(alloc: Global, text: &str) -> Result<Vec<String>, AllocError> {
    let mut list = Vec::new(alloc);
    for word in text.split_whitespace() {
        list.push(String::from_str(alloc, word)?)?;
    }
    Ok(list)
}

/// The status that a text is written with.
fn number_of(text: &str) -> u8 {
    if text.starts_with("refused") {
        1
    } else if text.starts_with("usage") {
        2
    } else if text.contains("\nwaiting ") {
        3
    } else if text.starts_with("out of") {
        4
    } else if text.starts_with("undecided") {
        5
    } else if text.starts_with("limit") {
        8
    } else {
        0
    }
}

/// How much of an input of so many bytes is read for words with this answer.
fn read_for(command: &str, status: Status, input: usize) -> usize {
    if status == Status::Words || command.starts_with("make ") {
        0
    } else {
        input
    }
}

/// What is written for words and an input, which is read as far as the words want it.
pub(crate) fn answer<R: Threads + Sync>(
    rt: &R,
    alloc: Global,
    command: &str,
    input: &[u8],
) -> Result<String, Fail> {
    let mut source = SteadySource {
        bytes: input.to_vec(alloc)?,
        next: 0,
    };
    let mut sink = SteadySink {
        bytes: Vec::new(alloc),
    };
    let words = words(alloc, command)?;
    let status = top(rt, alloc, &words, &mut source, &mut sink, &OpenGate);
    let text = shown(&sink.bytes)?;
    let wanted = read_for(command, status, input.len());
    if status.number() != number_of(text) || source.next != wanted {
        return Err(Fail::new("another status, or not all is read"));
    }
    Ok(String::from_str(alloc, text)?)
}

/// What is written for the words in front of ` ¦ ` and the input behind it; a module's text is written again.
fn program_row<R: Threads + Sync>(rt: &R, alloc: Global, given: &str) -> Result<String, Fail> {
    let (command, input) = given.split_once(" ¦ ").ok_or("no input")?;
    let text = answer(rt, alloc, command, input.as_bytes())?;
    if command == "show" && number_of(&text) == 0 {
        return answer(rt, alloc, command, text.as_str().as_bytes());
    }
    Ok(text)
}

/// What a run writes in which one number passes.
const FIRST_RUN: &str = "result 42\nchannel 0#1 : !Int\nhistory 0#1 : !42\n";

// The words and the input, and what is written.
const ROWS: [(&str, &str); 14] = [
    // swap-skip
    ("equiv ¦ Skip;!Int ~ !Int;Skip", "yes\n"),
    (
        "equiv --budget=3 ¦ rec x.+{A:x;!Int,B:Skip} ~ rec x.+{A:x;!Bool,B:Skip}",
        "undecided 3\n",
    ),
    ("equiv ¦ Int ~ Int", "refused 1:1 kind *T wanted 1S\n"),
    // empty-and-long
    ("equiv ¦ ", "refused 1:1 syntax\n"),
    ("show ¦ ", ""),
    // canonical-show
    (
        "show ¦ f:(!Int;(?Bool;Skip))->((Skip))\nf c=(f) (c)\n",
        "f : !Int;?Bool;Skip -> Skip\nf c = f c\n",
    ),
    ("show ¦ data T=A Int|B -- two\n", "data T = A Int | B\n"),
    // places behind line feeds
    ("equiv ¦ !Int ~\n rec x.y", "refused 2:8 unbound y\n"),
    (
        "show ¦ main : Int\nmain = 9223372036854775808",
        "refused 2:8 number too wide\n",
    ),
    ("check ¦ main : Int\nmain = 5\n", "accepted\n"),
    // first-run
    (
        "run ¦ main : Int\nmain = let (a, b) = new !Int in fork (send 42 a); let (x, c) = receive b in x",
        FIRST_RUN,
    ),
    // two-waiting
    (
        "run ¦ main : Int\nmain = let (a, b) = new !Int in let (c, d) = new !Int in fork (let (x, e) = receive d in send x a); let (y, e) = receive b in send y c; 5",
        "result none\nwaiting 0 at 0#1 right\nwaiting 0.1 at 0#2 right\nchannel 0#1 : !Int\nhistory 0#1 :\nchannel 0#2 : !Int\nhistory 0#2 :\n",
    ),
    // step-counts
    (
        "run --steps 100 ¦ main : Int\nmain = count 49\ncount : Int -> Int\ncount n = if n == 0 then 0 else count (n - 1)",
        "result 0\n",
    ),
    (
        "run --steps=99 ¦ main : Int\nmain = count 49\ncount : Int -> Int\ncount n = if n == 0 then 0 else count (n - 1)",
        "out of steps\n",
    ),
];

#[test]
fn inputs_are_answered(rt: HostRuntime) -> Result<(), Fail> {
    each_pair(
        rt.alloc(),
        &ROWS,
        |alloc, given| program_row(&rt, alloc, given),
    )
}

// The words of made modules; nothing is read, and the summary of their run is written.
const MADE: [(&str, &str); 5] = [
    // made-modules
    ("make 0", "bytes 48\nevents 2\nchannels 0\nresult 0\n"),
    ("make 2", "bytes 312\nevents 16\nchannels 2\nresult 3\n"),
    (
        "make 1000",
        "bytes 145308\nevents 7002\nchannels 1000\nresult 500500\n",
    ),
    // the most channels
    (
        "make 5000",
        "bytes 757308\nevents 35002\nchannels 5000\nresult 12502500\n",
    ),
    // leading zeros
    (
        "make 000000002",
        "bytes 312\nevents 16\nchannels 2\nresult 3\n",
    ),
];

#[test]
fn modules_are_made_and_nothing_is_read(rt: HostRuntime) -> Result<(), Fail> {
    each_pair(
        rt.alloc(),
        &MADE,
        |alloc, given| words_row(&rt, alloc, given),
    )
}

/// The module of one channel.
const ONE_CHANNEL: &str = "\
main : Int
main = r1 0
p1 : !Int -> Skip
p1 c = send 1 c
r1 : Int -> Int
r1 s = let (a, b) = new !Int in fork (p1 a); let (x, d) = receive b in r2 (s + x)
r2 : Int -> Int
r2 s = s
";

#[test]
fn a_made_module_is_its_text(rt: HostRuntime) -> Result<(), Fail> {
    if make(rt.alloc(), 1)?.as_str() == ONE_CHANNEL {
        Ok(())
    } else {
        Err(Fail::new("another text"))
    }
}

// Words of no command; the usage is written.
const OTHER_WORDS: &str = "\
help = usage: freest equiv|show|check|run|make|audit
 = usage: freest equiv|show|check|run|make|audit
--version = usage: freest equiv|show|check|run|make|audit
make = usage: freest equiv|show|check|run|make|audit
make 5001 = usage: freest equiv|show|check|run|make|audit
make 0000000002 = usage: freest equiv|show|check|run|make|audit
make +2 = usage: freest equiv|show|check|run|make|audit
make 2 2 = usage: freest equiv|show|check|run|make|audit
make 2 --steps 5 = usage: freest equiv|show|check|run|make|audit
make --budget=2 2 = usage: freest equiv|show|check|run|make|audit
make --steps 2 = usage: freest equiv|show|check|run|make|audit
make=2 = usage: freest equiv|show|check|run|make|audit
2 make = usage: freest equiv|show|check|run|make|audit
run 5 = usage: freest equiv|show|check|run|make|audit
run --workers 9 = usage: freest equiv|show|check|run|make|audit
run --steps 5 --steps 5 = usage: freest equiv|show|check|run|make|audit
run --steps=2000001 = usage: freest equiv|show|check|run|make|audit
Equiv = usage: freest equiv|show|check|run|make|audit
equiv equiv = usage: freest equiv|show|check|run|make|audit
equiv 5 = usage: freest equiv|show|check|run|make|audit
equiv --budget = usage: freest equiv|show|check|run|make|audit
equiv --budget= = usage: freest equiv|show|check|run|make|audit
equiv --budget 0 = usage: freest equiv|show|check|run|make|audit
equiv --budget=000000000 = usage: freest equiv|show|check|run|make|audit
equiv --budget=10001 = usage: freest equiv|show|check|run|make|audit
equiv --budget 0000010000 = usage: freest equiv|show|check|run|make|audit
equiv --budget +5 = usage: freest equiv|show|check|run|make|audit
equiv --budget -5 = usage: freest equiv|show|check|run|make|audit
equiv --budget=5x = usage: freest equiv|show|check|run|make|audit
equiv --budget=5 --budget=5 = usage: freest equiv|show|check|run|make|audit
equiv --budget 5 5 = usage: freest equiv|show|check|run|make|audit
--budget=5 equiv = usage: freest equiv|show|check|run|make|audit
equiv --steps=5 = usage: freest equiv|show|check|run|make|audit
equiv --Budget=5 = usage: freest equiv|show|check|run|make|audit
Show = usage: freest equiv|show|check|run|make|audit
show show = usage: freest equiv|show|check|run|make|audit
show --budget=5 = usage: freest equiv|show|check|run|make|audit
equiv show = usage: freest equiv|show|check|run|make|audit
equiv --proof --proof = usage: freest equiv|show|check|run|make|audit
equiv --proof=1 = usage: freest equiv|show|check|run|make|audit
equiv --proof 5 = usage: freest equiv|show|check|run|make|audit
equiv --Proof = usage: freest equiv|show|check|run|make|audit
check --proof = usage: freest equiv|show|check|run|make|audit
run --proof = usage: freest equiv|show|check|run|make|audit
show --proof = usage: freest equiv|show|check|run|make|audit
audit 5 = usage: freest equiv|show|check|run|make|audit
audit --budget 5 = usage: freest equiv|show|check|run|make|audit
audit --proof = usage: freest equiv|show|check|run|make|audit
audit audit = usage: freest equiv|show|check|run|make|audit
Audit = usage: freest equiv|show|check|run|make|audit";

fn words_row<R: Threads + Sync>(rt: &R, alloc: Global, given: &str) -> Result<String, Fail> {
    answer(rt, alloc, given, b"Skip ~ Skip")
}

#[test]
fn other_words_are_refused_and_nothing_is_read(rt: HostRuntime) -> Result<(), Fail> {
    each_line(
        rt.alloc(),
        OTHER_WORDS,
        |alloc, given| words_row(&rt, alloc, given),
    )
}

#[test]
fn statuses_have_their_numbers(rt: HostRuntime) {
    let (done, refused, words) = (Status::Done, Status::Refused, Status::Words);
    let (read, write) = (Status::ReadFault, Status::WriteFault);
    let (undecided, limit, memory) = (Status::Undecided, Status::Limit, Status::Memory);
    let all = [done, refused, words, undecided, read, write, limit, memory];
    assert_eq!(rt; all.map(|status| status.number()), [0, 1, 2, 5, 6, 7, 8, 9]);
}
