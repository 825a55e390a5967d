ghost use Rattle.std.specs.Prelude.{◌≡◌, None, IfOk};
ghost use Rattle.std.specs.Option.{option_copied};
ghost use Rattle.fst_safety.specs.KeptEntries.{told_or_go};
ghost use Rattle.fst_safety.specs.Tasks.{IsBegun};

use fst_cell::End;
use fst_machine::{Answer, Code, Request};
use fst_runs::LogEntry;
use fst_types::EndName;
use fst_vm::Task;
use std::alloc::{AllocError, Global};
use std::marker::Model;

// What a task asked for, and what it was told.
#[derive(Drop)]
pub(crate) struct Exchange {
    asked: Request,
    answer: Answer,
}

impl Exchange {
    /// Memory for one.
    pub(crate) fn room(alloc: Global) -> Result<Box<Exchange>, AllocError> {
        let none = Exchange {
            asked: Request::Step,
            answer: Answer::Go,
        };
        Ok(Box::new(alloc, none)?)
    }
}

/// An entry of a log as it is kept, seen by contracts as the entry: of a step it takes no more than the stamp.
#[derive(Drop)]
pub struct KeptEntry {
    stamp: u64,
    // none where the task asked for a step and went on
    exchange: Option<Box<Exchange>>,
}

impl Model for KeptEntry {
    ghost use Rattle.fst_runs.specs.declared.log.LogEntry.{LogEntry};
    ghost use Rattle.fst_safety.specs.KeptEntries.{entry_of};

    ghost Value = { LogEntry };

    ghost view = { λ e. entry_of e.stamp e.exchange };
}

impl KeptEntry {
    /// The entry, in memory that was taken before, of which a step needs none.
    pub(crate) fn of(
        room: Option<Box<Exchange>>,
        asked: Request,
        answer: Answer,
        stamp: u64,
    ) -> KeptEntry
        requires { room ≡ None → (asked ≡ Request.Step) × (answer ≡ Answer.Go) }
        ensures { result ≡ record { asked = asked; answer = answer; stamp = stamp } }
    {
        match room {
            None => KeptEntry {
                stamp,
                exchange: None,
            },
            Some(mut room) => {
                *room = Exchange { asked, answer };
                KeptEntry {
                    stamp,
                    exchange: Some(room),
                }
            }
        }
    }

    /// The entry, in memory of its own.
    pub fn new(
        alloc: Global,
        asked: Request,
        answer: Answer,
        stamp: u64,
    ) -> Result<KeptEntry, AllocError>
        ensures { IfOk result (λ e. e ≡ record { asked = asked; answer = answer; stamp = stamp }) }
    {
        let exchange = Box::new(alloc, Exchange { asked, answer })?;
        Ok(KeptEntry {
            stamp,
            exchange: Some(exchange),
        })
    }

    /// The entry itself.
    pub fn entry(self) -> LogEntry
        ensures { result ≡ self }
    {
        let KeptEntry { stamp, exchange } = self;
        match exchange {
            None => LogEntry {
                asked: Request::Step,
                answer: Answer::Go,
                stamp,
            },
            Some(exchange) => {
                let both = Box::into_inner(exchange);
                let Exchange { asked, answer } = both;
                LogEntry {
                    asked,
                    answer,
                    stamp,
                }
            }
        }
    }

    /// What the task was told, where it did more than a step.
    pub fn told(&self) -> Option<&Answer>
        ensures { told_or_go (option_copied result) ≡ self.now.answer }
    {
        match &self.exchange {
            Some(exchange) => Some(&exchange.answer),
            None => None,
        }
    }
}

/// A task that knows its own ends alone: its machine, the ends with something left to do, the spent ones, its clock, and its
/// log.
#[derive(Drop)]
pub struct TypedTask {
    pub(crate) alloc: Global,
    pub task: Task,
    pub bag: Vec<End>,
    pub retired: Vec<End>,
    pub clock: u64,
    pub log: Vec<KeptEntry>,
    // how many channels it has made
    pub(crate) made: u32,
}

/// What a turn of a task comes to.
#[derive(Drop)]
pub enum Turned {
    /// It has gone on by one event.
    Moved,
    /// It has made this task, which hasn't moved yet.
    Forked(TypedTask),
    /// What it asks to send stands offered.
    Offered,
    /// At this end there was no way to go on.
    Left(EndName),
    /// Its value is there.
    Ended,
}

impl TypedTask {
    /// The task of `main`, at the beginning of its body, with no end and nothing in its log.
    pub fn start(alloc: Global, code: &Code) -> Result<TypedTask, AllocError>
        ensures { IfOk result (IsBegun code.now) }
    {
        let task = Task::start(alloc, code)?;
        Ok(TypedTask {
            alloc,
            task,
            bag: Vec::new(alloc),
            retired: Vec::new(alloc),
            clock: 0,
            log: Vec::new(alloc),
            made: 0,
        })
    }
}
