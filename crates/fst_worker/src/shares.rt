//! A worker's share of the tasks, and how it moves them.

ghost use Rattle.std.specs.Prelude.{◌≡◌, ◌+◌, ◌-◌, ◌≤◌, ◌<◌, List, [], ◌∷◌, ◌++◌, Bool, Ok, OnOk, slice_index_or, vec_len, vec_capacity};
ghost use Rattle.fst_runs.specs.Wrong.{once};
ghost use Rattle.fst_runs.specs.declared.log.LogEntry.{LogEntry};
ghost use Rattle.fst_safety.specs.declared.tasks.TypedTask.{TypedTask as Tasked};
ghost use Rattle.fst_worker.specs.declared.shares.Move.TheVariants.{Gained as Has_gained};
ghost use Rattle.fst_worker.specs.declared.shares.Stop.TheVariants.{Ends as Has_ended};
ghost use Rattle.fst_worker.specs.Passes.{CanRun, StepsAt, StopsAt, TurnsAt, clock_at, noted};
ghost use Rattle.fst_worker.specs.Shares.{counts_one};

use fst_io::Gate;
use fst_machine::{Answer, Code};
use fst_safety::{KeptEntry, Turned, TypedTask};
use std::alloc::AllocError;

/// The tasks that one worker moves.
#[derive(Drop)]
pub struct Share {
    /// Those that haven't come to their end, in the order of their paths.
    pub tasks: Vec<TypedTask>,
    /// Those that were forked in the last call of `round`, which hasn't moved them.
    pub forked: Vec<TypedTask>,
    /// Those whose value is there.
    pub ended: Vec<TypedTask>,
    /// How many events the share's tasks have made. What was received is counted with the one that received it.
    pub events: u64,
    /// Whether the share made an event, an offer or a notice in the last call of `round`.
    pub moved: bool,
    /// Whether the share gave up for want of memory in that call.
    pub refused: bool,
}

// What a turn comes to.
pub(crate) enum Move {
    // the log has one entry more; whether this is an event that counts here
    Gained(bool),
    Offered,
    Left,
    Over,
}

// Where the turns of a task have led to.
pub(crate) enum Stop {
    // it waits at an end
    Waits,
    // its value is there
    Ends,
    // there is no memory, or there were too many steps
    Halts,
}

// Whether the last event of a log counts here: what was received is counted with the one that received it.
fn is_counted(log: &[KeptEntry]) -> bool
    ensures { (es : List LogEntry) (e : LogEntry) → log.now ≡ es ++ e ∷ [] →
        once result ≡ counts_one e.answer }
{
    match log.last() {
        Some(entry) => !matches!(entry.told(), Some(Answer::Sent)),
        None => false,
    }
}

impl Share {
    // One turn of the task at this place, after room was taken for a forked task, and for one that ends beside others.
    fn turn_at(&mut self, code: &Code, i: usize, over: usize) -> Result<Move, AllocError>
        requires at { i < vec_len self.old.tasks }
        requires beside { over ≤ i }
        requires fit { CanRun code.now self.old }
        requires clock { (d : Tasked) → (slice_index_or self.old.tasks.items i d).clock
            < 4294967295 }
        ensures turns { TurnsAt code.now i result self.old self.new }
        ensures same { (self.new.events ≡ self.old.events) × (self.new.moved ≡ self.old.moved) ×
            (self.new.refused ≡ self.old.refused) }
        ensures len { (vec_len self.new.tasks ≡ vec_len self.old.tasks) ×
            (vec_len self.new.ended ≡ vec_len self.old.ended) }
        ensures room { vec_capacity self.old.ended ≤ vec_capacity self.new.ended }
        ensures more { OnOk result (vec_len self.new.ended + over + 1 ≤ vec_capacity
            self.new.ended) }
    {
        let Ok(()) = self.forked.reserve(1) else {
            return Err(AllocError);
        };
        let Ok(()) = self.ended.reserve(over + 1) else {
            return Err(AllocError);
        };
        match self.tasks[i].turn(code) {
            Ok(Turned::Moved) => Ok(Move::Gained(is_counted(self.tasks[i].log.as_slice()))),
            Ok(Turned::Forked(task)) => {
                self.forked.push_reserved(task);
                Ok(Move::Gained(is_counted(self.tasks[i].log.as_slice())))
            }
            Ok(Turned::Offered) => Ok(Move::Offered),
            Ok(Turned::Left(_)) => Ok(Move::Left),
            Ok(Turned::Ended) => Ok(Move::Over),
            Err(e) => Err(e),
        }
    }

    // Counts a turn of the task at this place, and tells of it.
    fn note<G: Gate>(&mut self, i: usize, told: &Move, number: u32, gate: &G)
        requires at { i < vec_len self.old.tasks }
        requires few { self.old.events < 4294967295 }
        ensures { self.new ≡ noted told.now self.old }
    {
        match told {
            Move::Gained(counts) => {
                self.moved = true;
                if *counts {
                    self.events += 1;
                }
            }
            Move::Offered => self.moved = true,
            Move::Left | Move::Over => return,
        }
        gate.turned(number, self.tasks[i].task.path().as_slice());
    }

    // One turn of the task at this place, counted and told.
    fn step_at<G: Gate>(
        &mut self,
        code: &Code,
        i: usize,
        over: usize,
        number: u32,
        gate: &G,
    ) -> Result<Move, AllocError>
        requires at { i < vec_len self.old.tasks }
        requires beside { over ≤ i }
        requires fit { CanRun code.now self.old }
        requires clock { (d : Tasked) → (slice_index_or self.old.tasks.items i d).clock
            < 4294967295 }
        requires few { self.old.events < 4294967295 }
        ensures steps { StepsAt code.now i result self.old self.new }
        ensures later { (b : Bool) → result ≡ Ok (Has_gained b) →
            clock_at self.old.tasks.items i < clock_at self.new.tasks.items i }
        ensures len { (vec_len self.new.tasks ≡ vec_len self.old.tasks) ×
            (vec_len self.new.ended ≡ vec_len self.old.ended) }
        ensures room { vec_capacity self.old.ended ≤ vec_capacity self.new.ended }
        ensures more { OnOk result (vec_len self.new.ended + over + 1 ≤ vec_capacity
            self.new.ended) }
    {
        let Ok(told) = self.turn_at(code, i, over) else {
            return Err(AllocError);
        };
        self.note(i, &told, number, gate);
        Ok(told)
    }

    // Moves the task at this place as far as it can. The second answer is whether it has moved.
    pub(crate) fn run_at<G: Gate>(
        &mut self,
        code: &Code,
        i: usize,
        over: usize,
        steps: u64,
        number: u32,
        gate: &G,
    ) -> (Stop, bool)
        requires at { i < vec_len self.old.tasks }
        requires beside { over ≤ i }
        requires fit { CanRun code.now self.old }
        requires steps { steps < 4294967295 }
        ensures stops { StopsAt code.now i steps result.0 self.old self.new }
        ensures len { (vec_len self.new.tasks ≡ vec_len self.old.tasks) ×
            (vec_len self.new.ended ≡ vec_len self.old.ended) }
        ensures room { vec_capacity self.old.ended ≤ vec_capacity self.new.ended }
        ensures more { result.0 ≡ Has_ended →
            vec_len self.new.ended + over + 1 ≤ vec_capacity self.new.ended }
    {
        let mut moved = false;
        while self.events <= steps && self.tasks[i].clock <= steps {
            let Ok(told) = self.step_at(code, i, over, number, gate) else {
                self.refused = true;
                return (Stop::Halts, moved);
            };
            match told {
                Move::Gained(_) => moved = true,
                Move::Offered => return (Stop::Waits, true),
                Move::Left => return (Stop::Waits, moved),
                Move::Over => return (Stop::Ends, moved),
            }
        }
        (Stop::Halts, moved)
    }
}
