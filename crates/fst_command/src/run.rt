ghost use Rattle.std.specs.Prelude.{◌≡◌, ◌≤◌, ◌⊎◌, ℕ, [], length, map, IfOk, IfErr, IsTrue, OnErr, string_bytes};
ghost use Rattle.std.specs.Io.KnownBytes.{Appends};
ghost use Rattle.fst_base.specs.Limits.{most_bytes};
ghost use Rattle.fst_io.specs.Faults.{Rose};
ghost use Rattle.fst_io.specs.GivingUp.{ReadGaveUp};
ghost use Rattle.fst_options.specs.Views.{command_of};
ghost use Rattle.fst_options.specs.Words.{IsWithin};
ghost use Rattle.fst_command.specs.Complete.{AreComplete, IsComplete};
ghost use Rattle.fst_command.specs.Meanings.{Meanings};
ghost use Rattle.fst_command.specs.Output.{AnyWorkers, AuditedAgain, OneOutput, ShownAgain, Writes};
ghost use Rattle.fst_command.specs.Top.{IsAnswer, IsAnswered, ReadsFor, WantInput, WasCut, WasWritten, reads_input};

use crate::answer::{Answer, answer_equiv, answer_show, fixed};
use crate::auditing::answer_audit;
use crate::buffering::answer_buffered;
use crate::checks::answer_check;
use crate::running::{answer_make, answer_run};
use crate::status::Status;
use fst_base::MOST_BYTES;
use fst_buffered::{
    least_law, one_end_law as buffered_one_end_law, safety_law as buffered_safety_law,
    sound_law as buffered_sound_law,
};
use fst_equiv::one_answer;
use fst_execution::sound_law;
use fst_io::{Gate, ReadFault, Sink, Source, WriteFault, read_all, write_all};
use fst_lexer::one_lexing;
use fst_merge::one_list_law;
use fst_module_grammar::one_module;
use fst_names::one_module_law;
use fst_options::{Command, parse};
use fst_roundtrip::{asked_again, read_again};
use fst_safety::{one_end_law, safety_law};
use fst_type_syntax::one_reading;
use fst_typing::{accepted_law, complete_law, one_refusal_law, refusal_law};
use std::alloc::{AllocError, Global};
use std::thread::Threads;

const USAGE: &[u8] = b"usage: freest equiv|show|check|run|make|audit\n";

// Whether the command reads an input.
fn reads_input(command: Command) -> bool
    ensures { result ≡ reads_input (command_of command) }
{
    match command {
        Command::Equiv(_) => true,
        Command::Show => true,
        Command::Check(_) => true,
        Command::Run(_) => true,
        Command::Buffered(_) => true,
        Command::Make(_) => false,
        Command::Audit => true,
    }
}

// Reads what the command wants.
fn read_for<S: Source>(
    alloc: Global,
    command: Command,
    source: &mut S,
) -> Result<Vec<u8>, ReadFault>
    ensures read { IfOk result (λ bytes. ReadsFor (command_of command)
        (S.left source.old) (S.left source.new) bytes.items) }
    ensures short { IfOk result (λ bytes. length bytes.items ≤ most_bytes) }
    ensures wanted { OnErr result (IsTrue (reads_input (command_of command))) }
    ensures fault { IfErr result (λ e. ReadGaveUp e most_bytes
        (S.left source.old) (S.left source.new)
        (S.faults source.old) (S.faults source.new)) }
    ensures unread { ¬ IsTrue (reads_input (command_of command)) → source.new ≡ source.old }
{
    if !reads_input(command) {
        return Ok(Vec::new(alloc));
    }
    read_all(alloc, source, MOST_BYTES)
}

// What a command makes of the bytes that were read for it.
fn answer_command<R: Threads + Sync, G: Gate + Sync>(
    rt: &R,
    alloc: Global,
    command: Command,
    bytes: &[u8],
    gate: &G,
) -> Result<Answer, AllocError>
    requires within { IsWithin (command_of command) }
    requires short { length bytes.now ≤ most_bytes }
    ensures text { IfOk result (λ a. Writes (command_of command) bytes.now a.text.items a.status) }
    ensures whole { IfOk result (λ a. IsAnswer a.status) }
{
    match command {
        Command::Equiv(options) => answer_equiv(alloc, bytes, options),
        Command::Show => answer_show(alloc, bytes),
        Command::Check(budget) => answer_check(alloc, bytes, budget),
        Command::Run(options) => answer_run(rt, alloc, bytes, options, gate),
        Command::Buffered(options) => answer_buffered(alloc, bytes, options),
        Command::Make(n) => answer_make(rt, alloc, n, gate),
        Command::Audit => answer_audit(alloc, bytes),
    }
}

// Reads what the words want, and finds the answer.
fn answer<R: Threads + Sync, S: Source, G: Gate + Sync>(
    rt: &R,
    alloc: Global,
    words: &[String],
    source: &mut S,
    gate: &G,
) -> Result<Answer, Status>
    ensures answered { IfOk result (λ a. IsAnswered (map string_bytes words.now)
        (S.left source.old) (S.left source.new) a.text.items a.status) }
    ensures whole { IfOk result (λ a. IsAnswer a.status) }
    ensures no_answer { IfErr result (λ s. (s ≡ Status.ReadFault) ⊎ (s ≡ Status.Memory)) }
    ensures read_fault { IfErr result (λ s. s ≡ Status.ReadFault →
        WantInput (map string_bytes words.now) × Rose (S.faults source.old) (S.faults source.new)) }
    ensures unread { ¬ WantInput (map string_bytes words.now) → source.new ≡ source.old }
{
    meanings();
    let Some(command) = parse(words) else {
        return Ok(fixed(alloc, Status::Words, USAGE)?);
    };
    match read_for(alloc, command, source) {
        Ok(bytes) => Ok(answer_command(rt, alloc, command, &bytes, gate)?),
        Err(ReadFault::TooLong) => Ok(fixed(alloc, Status::Limit, b"limit length\n")?),
        Err(ReadFault::Failed) => Err(Status::ReadFault),
        Err(ReadFault::Memory) => Err(Status::Memory),
    }
}

/// Runs the program on its words, its input and its output: it reads the source where the words
/// want it, writes one text to the sink, and answers how it ended.
pub fn top<R: Threads + Sync, S: Source, K: Sink, G: Gate + Sync>(
    rt: &R,
    alloc: Global,
    words: &[String],
    source: &mut S,
    sink: &mut K,
    gate: &G,
) -> Status
    // With the status of an answer, an output of the words and of what was read is written whole, and means what it says. A yes of
    // `equiv`, a question with a certificate, and what `audit` calls valid are agreement at every depth, and a no is the least trace that
    // just one side performs. Where `check` accepts, what was
    // read is a module that has derivations; and whatever happens in a run of it, in any order, no task meets a wrong message, a
    // wrong label or a spent end. So it is where `run` or `make` wrote a report or ran out of steps; and in a report each history
    // is a trace of its channel's declared type, and the value of `main` is one of its type. So it is too where channels hold events,
    // and then what is taken at an end is what was put in at the other one, in its order and each once. Where one of these refuses
    // its input, this stands for no module that has derivations.
    ensures answered { IsAnswer result → WasWritten (map string_bytes words.now)
        (S.left source.old) (S.left source.new) (K.taken sink.old) (K.taken sink.new) result }

    // Where what is left of the source is known, and is a question of two session types within the limits that isn't spent, an answer of
    // `equiv` is a yes or a no; where it is a module as the grammar has it, one of `show` is its text; and where it stands for a module
    // that has plain derivations within the limits, one of `check` is that this is accepted, and one of `run` is what its steps come to,
    // where channels hold events too.
    ensures complete { IsAnswer result →
        IsComplete (map string_bytes words.now) (S.left source.old) result }

    // A read fault comes only where the source's count rose, for words that want the source, and
    // nothing is written.
    ensures read_fault { result ≡ Status.ReadFault →
        Rose (S.faults source.old) (S.faults source.new) }
    ensures read_for { result ≡ Status.ReadFault → WantInput (map string_bytes words.now) }
    ensures silent { result ≡ Status.ReadFault → Appends (K.taken sink.old) (K.taken sink.new) [] }

    // A write fault comes only where the sink's count rose, and then a proper prefix of an output
    // is written.
    ensures write_fault { result ≡ Status.WriteFault →
        Rose (K.faults sink.old) (K.faults sink.new) }
    ensures cut { result ≡ Status.WriteFault → WasCut (map string_bytes words.now)
        (S.left source.old) (S.left source.new) (K.taken sink.old) (K.taken sink.new) }

    // Want of memory is free: nothing is written then, or a proper prefix of an output.
    ensures memory { result ≡ Status.Memory → Appends (K.taken sink.old) (K.taken sink.new) []
        ⊎ WasCut (map string_bytes words.now)
        (S.left source.old) (S.left source.new) (K.taken sink.old) (K.taken sink.new) }

    // Words that aren't those of `equiv`, `show`, `check`, `run` or `audit` leave the source as it is.
    ensures unread { ¬ WantInput (map string_bytes words.now) → source.new ≡ source.old }
{
    completeness();
    match answer(rt, alloc, words, source, gate) {
        Err(status) => status,
        Ok(answer) => match write_all(sink, &answer.text) {
            Ok(()) => answer.status,
            Err(WriteFault::Failed(_)) => Status::WriteFault,
            Err(WriteFault::Memory(_)) => Status::Memory,
        },
    }
}

/// Words and bytes have at most one output, whatever the number of workers and how much channels hold: what is written is a function
/// of what was read. The one choice that the definitions leave is which certificate `equiv` writes; this program's may depend on the
/// memory that there is.
pub fn one_output()
    ensures { OneOutput }
{
    one_answer();
    one_lexing();
    one_reading();
    one_module();
    one_module_law();
    one_refusal_law();
    accepted_law();
    one_end_law();
    one_list_law();
    least_law();
}

/// Any number of workers writes the same.
pub fn any_workers()
    ensures { AnyWorkers }
{
    one_output();
}

/// What `show` writes of a module it writes again, as far as its limits go.
pub fn shown_again()
    ensures { ShownAgain }
{
    read_again();
    one_module();
}

/// What `equiv` writes of a yes with a proof `audit` finds valid, as far as its limit on length goes.
pub fn audited_again()
    ensures { AuditedAgain }
{
    asked_again();
    one_answer();
}

/// Whatever a command writes means what it says (`Means`).
pub fn meanings()
    ensures { Meanings }
{
    accepted_law();
    refusal_law();
    one_module_law();
    one_lexing();
    one_module();
    safety_law();
    complete_law();
    sound_law();
    one_end_law();
    buffered_safety_law();
    buffered_sound_law();
    buffered_one_end_law();
}

/// Of bytes within the limits `equiv` answers a question that isn't spent, `show` writes a module's text, `check` says that a module
/// which has plain derivations is accepted, and `run` what its steps come to, where channels hold events too.
pub fn completeness()
    ensures { AreComplete }
{
    one_lexing();
    one_reading();
    one_module();
    one_module_law();
    complete_law();
}
