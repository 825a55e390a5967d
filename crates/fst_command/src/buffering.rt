//! What `run` makes of an input where channels hold events.

ghost use Rattle.std.specs.Prelude.{◌≡◌, ◌≤◌, ◌<◌, IfOk, length};
ghost use Rattle.fst_base.specs.Limits.{most_bytes};
ghost use Rattle.fst_buffered.specs.Answers.{IsSoundOutcome};
ghost use Rattle.fst_execution.specs.Execution.{IsDerived};
ghost use Rattle.fst_options.specs.Words.{buffer, buffered};
ghost use Rattle.fst_command.specs.Output.{IsBufferedOf, IsFoundOf, SaysBuffered, Writes};
ghost use Rattle.fst_command.specs.Top.{IsAnswer};

use crate::answer::{Answer, answer_fault, fixed};
use crate::checks::find_resolved;
use crate::refusals::answer_refusal;
use crate::running::waiting_status;
use crate::status::Status;
use fst_buffered::{BufferedOutcome, run_buffered, safety_law, sound_law};
use fst_execution::prepare;
use fst_options::BufferOptions;
use fst_report::buffered_text;
use fst_terms::Module;
use fst_typing::{accepted_law, check};
use std::alloc::{AllocError, Global};

// What so many steps of a module come to, with a report that is sound.
fn run_module(
    alloc: Global,
    m: &Module,
    options: BufferOptions,
) -> Result<BufferedOutcome, AllocError>
    requires derived { IsDerived m.now }
    requires few { options.steps < 4294967295 }
    requires some { 1 ≤ options.capacity }
    requires most { options.capacity ≤ buffer.most }
    ensures is { IfOk result (IsBufferedOf options.capacity options.steps m.now) }
    ensures sound { IfOk result (IsSoundOutcome m.now) }
{
    safety_law();
    sound_law();
    let code = prepare(alloc, m)?;
    run_buffered(alloc, &code, options.steps as u64, options.capacity)
}

// The answer to a module of which so many steps are run.
fn answer_outcome(alloc: Global, m: &Module, options: BufferOptions) -> Result<Answer, AllocError>
    requires derived { IsDerived m.now }
    requires few { options.steps < 4294967295 }
    requires some { 1 ≤ options.capacity }
    requires most { options.capacity ≤ buffer.most }
    ensures outcome { IfOk result (λ a. SaysBuffered options.capacity options.steps m.now
        a.text.items a.status) }
    ensures whole { IfOk result (λ a. IsAnswer a.status) }
{
    let outcome = run_module(alloc, m, options)?;
    match outcome {
        BufferedOutcome::Done(report, unread) => Ok(Answer {
            status: waiting_status(&report.waiting),
            text: buffered_text(alloc, &report, &unread, &m.families)?.into_bytes(),
        }),
        BufferedOutcome::OutOfSteps => fixed(alloc, Status::OutOfSteps, b"out of steps\n"),
    }
}

// What is found of a module within a budget of pairs, and what so many steps of it come to.
fn answer_steps(
    alloc: Global,
    bytes: &[u8],
    m: &Module,
    options: BufferOptions,
) -> Result<Answer, AllocError>
    requires few { options.steps < 4294967295 }
    requires some { 1 ≤ options.capacity }
    requires most { options.capacity ≤ buffer.most }
    requires budget { 1 ≤ options.budget }
    requires short { length bytes.now ≤ most_bytes }
    ensures found { IfOk result (λ a. IsFoundOf
        (SaysBuffered options.capacity options.steps m.now) bytes.now m.now options.budget
        a.text.items a.status) }
    ensures whole { IfOk result (λ a. IsAnswer a.status) }
{
    accepted_law();
    match check(alloc, m, options.budget) {
        Ok(accepted) => {
            drop(accepted);
            answer_outcome(alloc, m, options)
        }
        Err(fault) => answer_refusal(alloc, bytes, &m.families, options.budget, fault),
    }
}

/// The answer to an input of the command `run` with channels that hold events, as these options say.
pub(crate) fn answer_buffered(
    alloc: Global,
    bytes: &[u8],
    options: BufferOptions,
) -> Result<Answer, AllocError>
    requires few { options.steps < 4294967295 }
    requires some { 1 ≤ options.capacity }
    requires most { options.capacity ≤ buffer.most }
    requires budget { 1 ≤ options.budget }
    requires short { length bytes.now ≤ most_bytes }
    ensures text { IfOk result (λ a. Writes
        (buffered options.steps options.capacity options.budget) bytes.now a.text.items a.status) }
    ensures whole { IfOk result (λ a. IsAnswer a.status) }
{
    match find_resolved(alloc, bytes) {
        Ok(m) => answer_steps(alloc, bytes, &m, options),
        Err(fault) => answer_fault(alloc, bytes, fault),
    }
}
