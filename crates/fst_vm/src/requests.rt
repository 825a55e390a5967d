//! What code asks for where it runs.

ghost use Rattle.std.specs.Prelude.{◌≡◌, List, IfOk, option_copied};
ghost use Rattle.fst_types.specs.declared.family.Family.{Family};
ghost use Rattle.fst_machine.specs.Spots.{asked_at, asks};
ghost use Rattle.fst_machine.specs.Values.{sent};
ghost use Rattle.fst_vm.specs.Moves.{closing, end_on, function_below, getting, selecting, sending};
ghost use Rattle.fst_vm.specs.Running.{code_of};
ghost use Rattle.fst_vm.specs.Scalars.{scalar_at};

use crate::places::instr_at;
use crate::running::Running;
use fst_machine::{Code, Instr, Request};
use fst_types::{EndName, Event, Name};
use fst_value::{Form, Stack};
use std::alloc::{AllocError, Global};

// What is sent where the value is one of a base type.
fn sent(form: Form) -> Option<Event>
    ensures { result ≡ sent (scalar_at form) }
{
    match form {
        Form::Int(number) => Some(Event::Int(number)),
        Form::Bool(truth) => Some(Event::Bool(truth)),
        Form::Char(character) => Some(Event::Char(character)),
        Form::Unit => Some(Event::Unit),
        _ => None,
    }
}

// The end that the last value is.
fn end_at(stack: &Stack) -> Option<&EndName>
    ensures { option_copied result ≡ end_on stack.now }
{
    stack.get(0)?.as_end()
}

// The same in memory of its own.
fn last_end(alloc: Global, stack: &Stack) -> Result<Option<EndName>, AllocError>
    ensures { IfOk result (λ o. o ≡ end_on stack.now) }
{
    match end_at(stack) {
        Some(end) => Ok(Some(end.copy(alloc)?)),
        None => Ok(None),
    }
}

// To send the value before the last one on the last one, an end.
fn to_send(alloc: Global, stack: &Stack) -> Result<Option<Request>, AllocError>
    ensures { IfOk result (λ o. o ≡ sending stack.now) }
{
    let event = match stack.get(1) {
        Some(value) => sent(value.form()),
        None => None,
    };
    match (last_end(alloc, stack)?, event) {
        (Some(end), Some(event)) => Ok(Some(Request::Put(end, event))),
        _ => Ok(None),
    }
}

fn to_select(alloc: Global, label: &Name, stack: &Stack) -> Result<Option<Request>, AllocError>
    ensures { IfOk result (λ o. o ≡ selecting label.now stack.now) }
{
    match last_end(alloc, stack)? {
        Some(end) => Ok(Some(Request::Put(end, Event::Label(label.copy(alloc)?)))),
        None => Ok(None),
    }
}

fn to_close(alloc: Global, stack: &Stack) -> Result<Option<Request>, AllocError>
    ensures { IfOk result (λ o. o ≡ closing stack.now) }
{
    match last_end(alloc, stack)? {
        Some(end) => Ok(Some(Request::Put(end, Event::Closed))),
        None => Ok(None),
    }
}

fn to_get(alloc: Global, stack: &Stack) -> Result<Option<Request>, AllocError>
    ensures { IfOk result (λ o. o ≡ getting stack.now) }
{
    match last_end(alloc, stack)? {
        Some(end) => Ok(Some(Request::Get(end))),
        None => Ok(None),
    }
}

// Whether the value before the last one is a function.
fn has_function(stack: &Stack) -> bool
    ensures { result ≡ function_below stack.now }
{
    match stack.get(1) {
        Some(value) => match value.form() {
            Form::Function(_) => true,
            _ => false,
        },
        None => false,
    }
}

fn asked(alloc: Global, instr: &Instr, at: &Running) -> Result<Option<Request>, AllocError>
    ensures { IfOk result (λ o. o ≡ asks instr.now at.now.calls at.now.operands) }
{
    match instr {
        Instr::Call => Ok(if has_function(&at.stack) {
            Some(Request::Step)
        } else {
            None
        }),
        Instr::Global(_) => Ok(Some(Request::Step)),
        Instr::New(t) => Ok(Some(Request::New(*t))),
        Instr::Fork(_) => Ok(Some(Request::Fork)),
        Instr::Send => to_send(alloc, &at.stack),
        Instr::Receive => to_get(alloc, &at.stack),
        Instr::Close => to_close(alloc, &at.stack),
        Instr::Wait => to_get(alloc, &at.stack),
        Instr::Select(label) => to_select(alloc, label, &at.stack),
        Instr::Match(_) => to_get(alloc, &at.stack),
        Instr::Return => {
            let ended = at.calls.is_empty() && 0 < at.stack.len();
            Ok(if ended { Some(Request::Ended) } else { None })
        }
        _ => Ok(None),
    }
}

/// What the code asks for where it runs.
pub(crate) fn request_at(
    alloc: Global,
    code: &Code,
    at: &Running,
) -> Result<Option<Request>, AllocError>
    ensures { IfOk result (λ o. (fs : List Family) → o ≡ asked_at (code_of fs code.now) at.now) }
{
    match instr_at(code, at.place) {
        Some(instr) => asked(alloc, instr, at),
        None => Ok(None),
    }
}
