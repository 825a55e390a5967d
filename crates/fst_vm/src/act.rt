//! What single instructions do that ask for nothing.

ghost use Rattle.std.specs.Prelude.{◌≡◌, List, IfOk, option_map, slice_get};
ghost use Rattle.fst_types.specs.declared.family.Family.{Family};
ghost use Rattle.fst_value.specs.Parts.{form_of};
ghost use Rattle.fst_value.specs.Stacks.{Makes};
ghost use Rattle.fst_machine.specs.Spots.{captured_count, of_scalar};
ghost use Rattle.fst_vm.specs.Acts.{Acts, Goes, armed, branched, gone_on, parts, returned, shorter};
ghost use Rattle.fst_vm.specs.Moves.{computed, negated, truth_on, with_one};
ghost use Rattle.fst_vm.specs.Running.{code_of};
ghost use Rattle.fst_vm.specs.Scalars.{scalar_at};

use crate::operators::operated;
use crate::places::entry_at;
use crate::running::Caller;
use crate::slots::Slots;
use fst_machine::{Code, Instr};
use fst_terms::Op;
use fst_value::{Form, Stack, Value};
use std::alloc::{AllocError, Global};

// Where the code goes on, if the step was made.
fn to(place: u64, done: Result<bool, AllocError>) -> Result<Option<u64>, AllocError>
    ensures { result ≡ gone_on place done }
{
    Ok(if done? { Some(place) } else { None })
}

// The value of a base type that this is the form of.
fn value_of(alloc: Global, form: Form) -> Result<Value, AllocError>
    ensures { IfOk result (λ v. v ≡ of_scalar (scalar_at form)) }
{
    match form {
        Form::Int(number) => Value::int(alloc, number),
        Form::Bool(truth) => Value::bool(alloc, truth),
        Form::Char(character) => Value::char(alloc, character),
        _ => Value::unit(alloc),
    }
}

// Puts the value of a base type that this is the form of onto the stack.
fn push(alloc: Global, form: Form, stack: &mut Stack) -> Result<bool, AllocError>
    ensures { Makes (with_one (of_scalar (scalar_at form))) stack.old result stack.new }
{
    stack.replace(0, value_of(alloc, form)?)?;
    Ok(true)
}

// The form of the value before the last `k` ones.
fn form_at(stack: &Stack, k: usize) -> Option<Form>
    ensures { result ≡ option_map form_of (slice_get stack.now k) }
{
    match stack.get(k) {
        Some(value) => Some(value.form()),
        None => None,
    }
}

fn operate(alloc: Global, op: Op, stack: &mut Stack) -> Result<bool, AllocError>
    ensures { Makes (computed op) stack.old result stack.new }
{
    let (left, right) = match (form_at(stack, 1), form_at(stack, 0)) {
        (Some(left), Some(right)) => (left, right),
        _ => return Ok(false),
    };
    match operated(op, left, right) {
        Some(form) => {
            stack.replace(2, value_of(alloc, form)?)?;
            Ok(true)
        }
        None => Ok(false),
    }
}

// The truth value that the last value is.
fn last_truth(stack: &Stack) -> Option<bool>
    ensures { result ≡ truth_on stack.now }
{
    match form_at(stack, 0) {
        Some(Form::Bool(truth)) => Some(truth),
        _ => None,
    }
}

fn negate(alloc: Global, stack: &mut Stack) -> Result<bool, AllocError>
    ensures { Makes negated stack.old result stack.new }
{
    match last_truth(stack) {
        Some(truth) => {
            stack.replace(1, Value::bool(alloc, !truth)?)?;
            Ok(true)
        }
        None => Ok(false),
    }
}

// Where the code goes on behind a branch.
fn branch(stack: &mut Stack, place: u64, behind: u64) -> Option<u64>
    ensures { Goes (branched place behind) stack.old (Ok result) stack.new }
{
    let truth = last_truth(stack)?;
    stack.pop();
    if truth { Some(behind) } else { Some(place) }
}

// Where the code goes on without the last value.
fn drop_last(stack: &mut Stack, behind: u64) -> Option<u64>
    ensures { Goes (shorter behind) stack.old (Ok result) stack.new }
{
    stack.pop()?;
    Some(behind)
}

// Where the code goes on in the arm of a constructor, whose fields are put on the stack.
fn enter_arm(alloc: Global, places: &[u64], stack: &mut Stack) -> Result<Option<u64>, AllocError>
    ensures { Goes (armed places.now) stack.old result stack.new }
{
    let maker = match form_at(stack, 0) {
        Some(Form::Make(_, maker)) => maker as usize,
        _ => return Ok(None),
    };
    if places.len() <= maker {
        return Ok(None);
    }
    stack.split_make(alloc)?;
    Ok(Some(places[maker]))
}

/// How many values a function or a task captures.
pub(crate) fn captured_count(code: &Code, lambda: u32) -> u32
    ensures { result ≡ captured_count (slice_get code.now.lambdas.items lambda) }
{
    match entry_at(code, lambda) {
        Some(entry) => entry.captured.len() as u32,
        None => 0,
    }
}

// Goes back to where the function was applied or the global used.
fn go_back(slots: &mut Slots, calls: &mut Vec<Caller>) -> Option<u64>
    ensures { Goes returned (slots.old, calls.old.items) (Ok result) (slots.new, calls.new.items) }
{
    let caller = calls.pop()?;
    *slots = caller.slots;
    Some(caller.place)
}

/// Does what an instruction does that is followed by a place, and says where the code goes on, if it asks for nothing. Where
/// there is no room, nothing changes.
pub(crate) fn act(
    alloc: Global,
    code: &Code,
    instr: &Instr,
    behind: u64,
    slots: &mut Slots,
    stack: &mut Stack,
    calls: &mut Vec<Caller>,
) -> Result<Option<u64>, AllocError>
    ensures { (fs : List Family) → Acts (code_of fs code.now) instr.now behind
        (parts slots.old stack.old calls.old.items) result
        (parts slots.new stack.new calls.new.items) }
{
    match instr {
        Instr::Int(number) => to(behind, push(alloc, Form::Int(*number), stack)),
        Instr::Bool(truth) => to(behind, push(alloc, Form::Bool(*truth), stack)),
        Instr::Char(character) => to(behind, push(alloc, Form::Char(*character), stack)),
        Instr::Unit => to(behind, push(alloc, Form::Unit, stack)),
        Instr::Load(k) => to(behind, slots.load(alloc, *k, stack)),
        Instr::Take(k) => to(behind, slots.take(*k, stack)),
        Instr::Bind => to(behind, slots.bind(stack)),
        Instr::Unbind(count) => {
            slots.leave(*count);
            Ok(Some(behind))
        }
        Instr::Pair => to(behind, stack.join_pair()),
        Instr::Split => to(behind, stack.split_pair(alloc)),
        Instr::Make(n, maker, count) => to(behind, stack.join_make(alloc, *n, *maker, *count)),
        Instr::Function(lambda) => {
            to(
                behind,
                stack.join_function(alloc, *lambda, captured_count(code, *lambda)),
            )
        }
        Instr::Operate(op) => to(behind, operate(alloc, *op, stack)),
        Instr::Not => to(behind, negate(alloc, stack)),
        Instr::Branch(place) => Ok(branch(stack, *place, behind)),
        Instr::Jump(place) => Ok(Some(*place)),
        Instr::Case(places) => enter_arm(alloc, places, stack),
        Instr::Drop => Ok(drop_last(stack, behind)),
        Instr::Return => Ok(go_back(slots, calls)),
        Instr::Call
        | Instr::Global(_)
        | Instr::New(_)
        | Instr::Send
        | Instr::Receive
        | Instr::Close
        | Instr::Wait
        | Instr::Select(_)
        | Instr::Match(_)
        | Instr::Fork(_) => Ok(None),
    }
}
