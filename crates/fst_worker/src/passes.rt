//! Passes over a share's tasks.

ghost use Rattle.std.specs.Prelude.{◌≡◌, ◌+◌, ◌-◌, ◌≤◌, ◌<◌, vec_len, vec_capacity};
ghost use Rattle.fst_worker.specs.declared.shares.Share.{Share as Shared};
ghost use Rattle.fst_worker.specs.Passes.{CanRun, HasSameMarks, IsPutBefore, Passes, PassesTo, RetiresTo};

use crate::shares::{Share, Stop};
use crate::tries::Tries;
use fst_io::Gate;
use fst_machine::Code;

// How far a pass has come.
#[derive(Clone, Copy)]
struct Walk {
    // how many tasks are kept
    kept: usize,
    // whether one has moved
    moved: bool,
    // how often one was tried in vain
    vain: usize,
    // whether the others are to stay as they are
    halted: bool,
}

impl Share {
    // How many passes in vain there were, one after the other, after one more pass, or none where the share ends: the pass has
    // halted or moved no task, and the share doesn't look again; or too much was tried in vain.
    fn goes_on(&self, passed: Walk, passes: u32, tries: &Tries) -> Option<u32> {
        tries.count(passed.vain);
        if passed.halted || tries.are_too_many(self.events) {
            return None;
        }
        if passed.moved {
            tries.move_on(passes);
            return Some(0);
        }
        if self.tasks.is_empty() || !self.forked.is_empty() {
            return None;
        }
        tries.look_again(passes)
    }

    // Puts the task at this place behind those that are kept.
    fn keep(&mut self, i: usize, walk: Walk) -> Walk
        requires at { i < vec_len self.old.tasks }
        requires kept { walk.kept ≤ i }
        ensures put { IsPutBefore walk.kept i self.old self.new }
        ensures more { (result.kept ≡ walk.kept + 1) × (result.halted ≡ walk.halted) }
        ensures len { (vec_len self.new.tasks ≡ vec_len self.old.tasks) ×
            (vec_len self.new.ended ≡ vec_len self.old.ended) }
        ensures room { vec_capacity self.new.ended ≡ vec_capacity self.old.ended }
    {
        self.tasks.swap(walk.kept, i);
        Walk {
            kept: walk.kept + 1,
            moved: walk.moved,
            vain: walk.vain,
            halted: walk.halted,
        }
    }

    // Moves the task at this place as far as it can, unless it is to stay, and keeps it unless it has come to its end.
    fn visit<G: Gate>(
        &mut self,
        code: &Code,
        i: usize,
        walk: Walk,
        steps: u64,
        number: u32,
        gate: &G,
    ) -> Walk
        requires at { i < vec_len self.old.tasks }
        requires kept { walk.kept ≤ i }
        requires fit { CanRun code.now self.old }
        requires steps { steps < 4294967295 }
        requires room { vec_len self.old.ended + (i - walk.kept) ≤ vec_capacity self.old.ended }
        ensures visits { (s : Shared) → PassesTo code.now steps walk.kept i walk.halted s self.old →
            PassesTo code.now steps result.kept (i + 1) result.halted s self.new }
        ensures kept { result.kept ≤ i + 1 }
        ensures len { vec_len self.new.tasks ≡ vec_len self.old.tasks }
        ensures room { vec_len self.new.ended + (i + 1 - result.kept) ≤ vec_capacity
            self.new.ended }
    {
        if walk.halted {
            let walk = Walk {
                vain: walk.vain.saturating_add(1),
                ..walk
            };
            return self.keep(i, walk);
        }
        let (stop, moved) = self.run_at(code, i, i - walk.kept, steps, number, gate);
        let walk = Walk {
            moved: walk.moved || moved,
            vain: walk.vain.saturating_add(usize::from(!moved)),
            ..walk
        };
        match stop {
            Stop::Waits => self.keep(i, walk),
            Stop::Ends => walk,
            Stop::Halts => self.keep(
                i,
                Walk {
                    halted: true,
                    ..walk
                },
            ),
        }
    }

    // Puts the tasks from this place on, which have come to their end, to those that have.
    fn retire(&mut self, kept: usize)
        requires kept { kept ≤ vec_len self.old.tasks }
        requires room { vec_len self.old.ended + (vec_len self.old.tasks - kept) ≤ vec_capacity
            self.old.ended }
        ensures retires { RetiresTo kept kept self.old self.new }
        ensures same { HasSameMarks self.old self.new }
    {
        while kept < self.tasks.len() {
            let Some(task) = self.tasks.pop() else {
                unreachable!()
            };
            self.ended.push_reserved(task);
        }
    }

    // Moves each task as far as it can, one after the other.
    fn pass<G: Gate>(&mut self, code: &Code, steps: u64, number: u32, gate: &G) -> Walk
        requires fit { CanRun code.now self.old }
        requires steps { steps < 4294967295 }
        ensures { Passes code.now steps self.old self.new }
    {
        let mut walk = Walk {
            kept: 0,
            moved: false,
            vain: 0,
            halted: false,
        };
        for i in 0..self.tasks.len() {
            walk = self.visit(code, i, walk, steps, number, gate);
        }
        self.retire(walk.kept);
        walk
    }

    // Passes over the tasks until none of them moves. While other shares are busy it looks again a few times before it ends,
    // since a message may come from them: so tasks of two shares can exchange many messages in one round. How long it looks hangs
    // on `tries`, and nothing that is proved does.
    pub(crate) fn run<G: Gate>(
        &mut self,
        code: &Code,
        steps: u64,
        number: u32,
        tries: &Tries,
        gate: &G,
    )
        requires fit { CanRun code.now self.old }
        requires steps { steps < 4294967295 }
        ensures { Passes code.now steps self.old self.new }
    {
        let mut passed = self.pass(code, steps, number, gate);
        let mut passes = 0;
        for _pass in 0..u64::MAX {
            let Some(more) = self.goes_on(passed, passes, tries) else {
                tries.leave(passes);
                return;
            };
            passes = more;
            passed = self.pass(code, steps, number, gate);
        }
    }
}
