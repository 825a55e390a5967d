ghost use Rattle.std.specs.Prelude.{◌≡◌, ◌≤◌, ◌<◌, [], IfOk, false, length, true};
ghost use Rattle.std.specs.String.{string_bytes};
ghost use Rattle.fst_base.specs.Limits.{most_bytes, most_made};
ghost use Rattle.fst_execution.specs.Execution.{IsDerived};
ghost use Rattle.fst_options.specs.Words.{run};
ghost use Rattle.fst_report.specs.DeclaredTypes.{AreNamedWithin, AreScoped};
ghost use Rattle.fst_command.specs.Finding.{AreUnresolved};
ghost use Rattle.fst_command.specs.Meanings.{IsSoundOutcome};
ghost use Rattle.fst_command.specs.Output.{FindsModule, IsFoundOf, IsOutcomeOf, SaysOutcome, Writes, WritesMade, WritesOf, waiting_status};
ghost use Rattle.fst_command.specs.Top.{IsAnswer};
ghost use Rattle.fst_command.specs.Views.{HasLines, shown_as};

use crate::answer::{Answer, answer_fault, fixed};
use crate::checks::find_resolved;
use crate::refusals::answer_refusal;
use crate::status::Status;
use fst_execution::{execute, prepare, sound_law};
use fst_io::Gate;
use fst_machine::Code;
use fst_make::make;
use fst_merge::{events_text, merge, sorted_law};
use fst_options::{DEFAULT_BUDGET, DEFAULT_STEPS, DEFAULT_WORKERS, RunOptions};
use fst_process::{Outcome, Report, Waiting};
use fst_report::{report_text, summary_text};
use fst_safety::safety_law;
use fst_terms::Module;
use fst_types::Family;
use fst_typing::{accepted_law, check};
use fst_worker::{Logged, run_logged, run_workers};
use std::alloc::{AllocError, Global};
use std::thread::Threads;

// What so many steps of a module come to, and the lines behind its report.
#[derive(Drop)]
struct Ran {
    outcome: Outcome,
    lines: String,
}

// What so many steps of a module come to on several workers.
fn outcome_of_workers<R: Threads + Sync, G: Gate + Sync>(
    rt: &R,
    alloc: Global,
    m: &Module,
    options: RunOptions,
    gate: &G,
) -> Result<Outcome, AllocError>
    requires derived { IsDerived m.now }
    requires few { options.steps < 4294967295 }
    requires some { 1 ≤ options.workers }
    ensures { IfOk result (λ o. IsOutcomeOf false options.steps m.now o []) }
{
    let code = prepare(alloc, m)?;
    run_workers(
        rt,
        alloc,
        &code,
        options.steps as u64,
        options.workers,
        gate,
    )
}

// What so many steps of a module come to, without its events.
fn outcome<R: Threads + Sync, G: Gate + Sync>(
    rt: &R,
    alloc: Global,
    m: &Module,
    options: RunOptions,
    gate: &G,
) -> Result<Outcome, AllocError>
    requires derived { IsDerived m.now }
    requires few { options.steps < 4294967295 }
    requires some { 1 ≤ options.workers }
    ensures { IfOk result (λ o. IsOutcomeOf false options.steps m.now o []) }
{
    if options.workers == 1 {
        return execute(alloc, m, options.steps as u64);
    }
    outcome_of_workers(rt, alloc, m, options, gate)
}

// What the steps came to of which these are the marks, with a line for each event.
fn write_logged(alloc: Global, code: &Code, logged: Logged) -> Result<Ran, AllocError>
    ensures { IfOk result (λ r. HasLines logged r.outcome (string_bytes r.lines)) }
{
    match logged {
        Logged::Done(report, marks) => {
            let events = merge(alloc, &marks)?;
            Ok(Ran {
                outcome: Outcome::Done(report),
                lines: events_text(alloc, code, &events)?,
            })
        }
        Logged::OutOfSteps => Ok(Ran {
            outcome: Outcome::OutOfSteps,
            lines: String::new(alloc),
        }),
    }
}

// What so many steps of a module come to, where its events are asked for.
fn run_with_events<R: Threads + Sync, G: Gate + Sync>(
    rt: &R,
    alloc: Global,
    m: &Module,
    options: RunOptions,
    gate: &G,
) -> Result<Ran, AllocError>
    requires asked { options.events ≡ true }
    requires derived { IsDerived m.now }
    requires few { options.steps < 4294967295 }
    requires some { 1 ≤ options.workers }
    ensures { IfOk result (λ r. IsOutcomeOf options.events options.steps m.now r.outcome
        (string_bytes r.lines)) }
{
    sorted_law();
    let code = prepare(alloc, m)?;
    let logged = run_logged(
        rt,
        alloc,
        &code,
        options.steps as u64,
        options.workers,
        gate,
    )?;
    write_logged(alloc, &code, logged)
}

// What so many steps of a module come to, where its events aren't asked for.
fn run_without_events<R: Threads + Sync, G: Gate + Sync>(
    rt: &R,
    alloc: Global,
    m: &Module,
    options: RunOptions,
    gate: &G,
) -> Result<Ran, AllocError>
    requires unasked { options.events ≡ false }
    requires derived { IsDerived m.now }
    requires few { options.steps < 4294967295 }
    requires some { 1 ≤ options.workers }
    ensures { IfOk result (λ r. IsOutcomeOf options.events options.steps m.now r.outcome
        (string_bytes r.lines)) }
{
    let found = outcome(rt, alloc, m, options, gate)?;
    let lines = String::new(alloc);
    Ok(Ran {
        outcome: found,
        lines,
    })
}

// What so many steps of a module come to.
fn run_module<R: Threads + Sync, G: Gate + Sync>(
    rt: &R,
    alloc: Global,
    m: &Module,
    options: RunOptions,
    gate: &G,
) -> Result<Ran, AllocError>
    requires derived { IsDerived m.now }
    requires few { options.steps < 4294967295 }
    requires some { 1 ≤ options.workers }
    ensures { IfOk result (λ r. IsOutcomeOf options.events options.steps m.now r.outcome
        (string_bytes r.lines)) }
{
    if options.events {
        return run_with_events(rt, alloc, m, options, gate);
    }
    run_without_events(rt, alloc, m, options, gate)
}

// The same, with a report that is sound.
fn run_soundly<R: Threads + Sync, G: Gate + Sync>(
    rt: &R,
    alloc: Global,
    m: &Module,
    options: RunOptions,
    gate: &G,
) -> Result<Ran, AllocError>
    requires derived { IsDerived m.now }
    requires few { options.steps < 4294967295 }
    requires some { 1 ≤ options.workers }
    ensures is { IfOk result (λ r. IsOutcomeOf options.events options.steps m.now r.outcome
        (string_bytes r.lines)) }
    ensures sound { IfOk result (λ r. IsSoundOutcome m.now r.outcome) }
{
    safety_law();
    sound_law();
    run_module(rt, alloc, m, options, gate)
}

/// The status of a report in which these tasks wait.
pub(crate) fn waiting_status(tasks: &[Waiting]) -> Status
    ensures status { result ≡ waiting_status tasks.now }
    ensures whole { IsAnswer result }
{
    if tasks.is_empty() {
        Status::Done
    } else {
        Status::Waiting
    }
}

/// How a report is written.
#[derive(Clone, Copy, Debug)]
pub(crate) enum Form {
    /// The whole report.
    Report,
    /// Its summary, with the number of bytes of the module.
    Summary(u64),
}

// A report of a module of these data types as text.
fn shown_as(
    alloc: Global,
    form: Form,
    report: &Report,
    families: &[Family],
) -> Result<String, AllocError>
    requires scoped { AreScoped report.now.channels.items }
    requires named { AreNamedWithin (length families.now) report.now.channels.items }
    ensures { IfOk result (λ text. string_bytes text ≡ shown_as form families.now report.now) }
{
    match form {
        Form::Report => report_text(alloc, report, families),
        Form::Summary(bytes) => summary_text(alloc, bytes, report),
    }
}

// The answer to a module of which so many steps are run.
fn answer_outcome<R: Threads + Sync, G: Gate + Sync>(
    rt: &R,
    alloc: Global,
    form: Form,
    m: &Module,
    options: RunOptions,
    gate: &G,
) -> Result<Answer, AllocError>
    requires derived { IsDerived m.now }
    requires few { options.steps < 4294967295 }
    requires some { 1 ≤ options.workers }
    ensures outcome { IfOk result (λ a. SaysOutcome
        (shown_as form) options.events options.steps m.now a.text.items a.status) }
    ensures whole { IfOk result (λ a. IsAnswer a.status) }
{
    let Ran { outcome, lines } = run_soundly(rt, alloc, m, options, gate)?;
    match outcome {
        Outcome::Done(report) => {
            let mut text = shown_as(alloc, form, &report, &m.families)?;
            text.push_str(&lines)?;
            Ok(Answer {
                status: waiting_status(&report.waiting),
                text: text.into_bytes(),
            })
        }
        Outcome::OutOfSteps => fixed(alloc, Status::OutOfSteps, b"out of steps\n"),
    }
}

// What is found of a module within a budget of pairs, and what so many steps of it come to.
fn answer_steps<R: Threads + Sync, G: Gate + Sync>(
    rt: &R,
    alloc: Global,
    form: Form,
    bytes: &[u8],
    m: &Module,
    options: RunOptions,
    gate: &G,
) -> Result<Answer, AllocError>
    requires few { options.steps < 4294967295 }
    requires some { 1 ≤ options.workers }
    requires budget { 1 ≤ options.budget }
    requires short { length bytes.now ≤ most_bytes }
    ensures found { IfOk result (λ a. IsFoundOf
        (SaysOutcome (shown_as form) options.events options.steps m.now) bytes.now m.now
        options.budget a.text.items a.status) }
    ensures whole { IfOk result (λ a. IsAnswer a.status) }
{
    accepted_law();
    match check(alloc, m, options.budget) {
        Ok(accepted) => {
            drop(accepted);
            answer_outcome(rt, alloc, form, m, options, gate)
        }
        Err(fault) => answer_refusal(alloc, bytes, &m.families, options.budget, fault),
    }
}

// The answer to the bytes of a module that is run as the options say.
fn answer_source<R: Threads + Sync, G: Gate + Sync>(
    rt: &R,
    alloc: Global,
    form: Form,
    bytes: &[u8],
    options: RunOptions,
    gate: &G,
) -> Result<Answer, AllocError>
    requires few { options.steps < 4294967295 }
    requires some { 1 ≤ options.workers }
    requires budget { 1 ≤ options.budget }
    requires short { length bytes.now ≤ most_bytes }
    ensures text { IfOk result (λ a. WritesOf AreUnresolved
        (FindsModule (SaysOutcome (shown_as form) options.events options.steps) options.budget)
        bytes.now a.text.items a.status) }
    ensures whole { IfOk result (λ a. IsAnswer a.status) }
{
    match find_resolved(alloc, bytes) {
        Ok(m) => answer_steps(rt, alloc, form, bytes, &m, options, gate),
        Err(fault) => answer_fault(alloc, bytes, fault),
    }
}

/// The answer to an input of the command `run` with these options.
pub(crate) fn answer_run<R: Threads + Sync, G: Gate + Sync>(
    rt: &R,
    alloc: Global,
    bytes: &[u8],
    options: RunOptions,
    gate: &G,
) -> Result<Answer, AllocError>
    requires few { options.steps < 4294967295 }
    requires some { 1 ≤ options.workers }
    requires budget { 1 ≤ options.budget }
    requires short { length bytes.now ≤ most_bytes }
    ensures text { IfOk result (λ a. Writes
        (run options.steps options.workers options.budget options.events) bytes.now a.text.items
        a.status) }
    ensures whole { IfOk result (λ a. IsAnswer a.status) }
{
    answer_source(rt, alloc, Form::Report, bytes, options, gate)
}

/// The answer to the command `make` for a module of `n` channels. It needs no input.
pub(crate) fn answer_make<R: Threads + Sync, G: Gate + Sync>(
    rt: &R,
    alloc: Global,
    n: u32,
    gate: &G,
) -> Result<Answer, AllocError>
    requires { n ≤ most_made }
    ensures text { IfOk result (λ a. WritesMade n [] a.text.items a.status) }
    ensures whole { IfOk result (λ a. IsAnswer a.status) }
{
    let source = make(alloc, n)?;
    let bytes = source.as_bytes();
    let form = Form::Summary(bytes.len() as u64);
    let options = RunOptions {
        steps: DEFAULT_STEPS,
        workers: DEFAULT_WORKERS,
        budget: DEFAULT_BUDGET,
        events: false,
    };
    answer_source(rt, alloc, form, bytes, options, gate)
}
