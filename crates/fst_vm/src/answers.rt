//! How code goes on after an answer.

ghost use Rattle.std.specs.Prelude.{◌≡◌, ◌<◌, ◌++◌, ◌∷◌, [], ℕ, List, IfOk, IsOk, OnErr, true, option_copied, reverse, slice_get, take};
ghost use Rattle.std.specs.Vec.{vec_len, vec_capacity};
ghost use Rattle.std.specs.declared.result.Result.TheVariants.{Ok};
ghost use Rattle.fst_types.specs.declared.family.Family.{Family};
ghost use Rattle.fst_machine.specs.declared.code.Instr.TheVariants as does;
ghost use Rattle.fst_machine.specs.declared.request.Answer.TheVariants.{Go, Got, Sent};
ghost use Rattle.fst_machine.specs.Code.{Compiled, place_of};
ghost use Rattle.fst_machine.specs.Spots.{around, child_at, told, told_at};
ghost use Rattle.fst_value.specs.Stacks.{Makes};
ghost use Rattle.fst_vm.specs.Moves.{entry_below, forked_entry, given_for, matched, spare_for};
ghost use Rattle.fst_vm.specs.Tasks.{is_exchange};
ghost use Rattle.fst_vm.specs.Running.{code_of};

use crate::act::captured_count;
use crate::places::{entry_at, instr_at, leads_back, start_at};
use crate::running::{Caller, Running};
use crate::slots::{Slots, room_for, spread};
use crate::values::{brought, ends_of, last_end, pair, received};
use fst_machine::{Answer, Code, Instr, LambdaEntry};
use fst_types::{ChannelName, Event, Name};
use fst_value::{Form, Stack, Value, copy};
use std::alloc::{AllocError, Global};
use std::mem;

// Goes on with other variables in the code of a function or a global. The place behind it is kept among the calls, where there
// is room, unless it only leads back.
fn call(calls: &mut Vec<Caller>, slots: &mut Slots, leads_back: bool, behind: u64, own: Slots)
    requires { vec_len calls.old < vec_capacity calls.old }
    ensures calls { reverse calls.new.items ≡ around leads_back
        (record { place = behind; slots = slots.old }) (reverse calls.old.items) }
    ensures slots { slots.new ≡ own }
{
    let slots = mem::replace(slots, own);
    if !leads_back {
        calls.push_reserved(Caller {
            place: behind,
            slots,
        });
    }
}

// The entry of the function that the value before the last one is.
fn function_entry<'a>(code: &'a Code, stack: &Stack) -> Option<&'a LambdaEntry>
    ensures { (fs : List Family) → option_copied result ≡ entry_below
        (code_of fs code.now) stack.now }
{
    let value = stack.get(1)?;
    match value.form() {
        Form::Function(lambda) => entry_at(code, lambda),
        _ => None,
    }
}

// Goes on in the code of the function that the value before the last one is.
fn go_into_function(
    alloc: Global,
    code: &Code,
    behind: u64,
    running: &mut Running,
) -> Result<bool, AllocError>
    ensures { (fs : List Family) → Makes
        (λ s. told (code_of fs code.now) does.Call behind s s.operands Go) running.old result
        running.new }
{
    let entry = match function_entry(code, &running.stack) {
        Some(entry) => entry,
        None => return Ok(false),
    };
    let room = room_for(alloc, &entry.captured)?;
    running.calls.reserve(1)?;
    match running.stack.take_function(alloc)? {
        Some(captured) => {
            let own = spread(room, &entry.captured, captured);
            call(
                &mut running.calls,
                &mut running.slots,
                leads_back(code, behind),
                behind,
                own,
            );
            running.place = entry.start;
            Ok(true)
        }
        None => Ok(false),
    }
}

// Goes on in the code of a global.
fn go_into_global(
    alloc: Global,
    code: &Code,
    global: u32,
    behind: u64,
    running: &mut Running,
) -> Result<bool, AllocError>
    ensures { (fs : List Family) → Makes
        (λ s. told (code_of fs code.now) (does.Global global) behind s s.operands Go) running.old
        result running.new }
{
    match start_at(code, global) {
        Some(start) => {
            running.calls.reserve(1)?;
            call(
                &mut running.calls,
                &mut running.slots,
                leads_back(code, behind),
                behind,
                Slots::new(alloc),
            );
            running.place = start;
            Ok(true)
        }
        None => Ok(false),
    }
}

// Goes on with a value in place of the last `count` ones.
fn go_on_with(
    running: &mut Running,
    behind: u64,
    count: usize,
    value: Value,
) -> Result<bool, AllocError>
    ensures { Makes (given_for behind count value) running.old result running.new }
{
    if running.stack.len() < count {
        return Ok(false);
    }
    running.stack.replace(count, value)?;
    running.place = behind;
    Ok(true)
}

// The value was received, of which the end is left.
fn go_on_with_end(running: &mut Running, behind: u64) -> bool
    ensures { (c : Compiled) → Makes (λ s. told c does.Send behind s s.operands Sent) running.old
        (Ok result) running.new }
{
    if running.stack.len() < 2 || last_end(&running.stack).is_none() {
        return false;
    }
    running.stack.drop_second();
    running.place = behind;
    true
}

// The branch was selected on the end, which is left.
fn go_on_selected(running: &mut Running, behind: u64) -> bool
    ensures { (c : Compiled) (l : List ℕ) → Makes
        (λ s. told c (does.Select l) behind s s.operands Sent) running.old (Ok result) running.new }
{
    if last_end(&running.stack).is_none() {
        return false;
    }
    running.place = behind;
    true
}

// What was received goes into a pair with the end.
fn go_on_received(
    alloc: Global,
    behind: u64,
    event: &Event,
    running: &mut Running,
) -> Result<bool, AllocError>
    ensures { (c : Compiled) → Makes (λ s. told c does.Receive behind s s.operands (Got event.now))
        running.old result running.new }
{
    let end = match last_end(&running.stack) {
        Some(end) => copy(alloc, end)?,
        None => return Ok(false),
    };
    match received(alloc, event)? {
        Some(value) => {
            let both = pair(alloc, value, end)?;
            go_on_with(running, behind, 1, both)
        }
        None => Ok(false),
    }
}

// The channel was closed: the unit value stands in place of the end.
fn go_on_closed(alloc: Global, running: &mut Running, behind: u64) -> bool
    ensures { (c : Compiled) → Makes (λ s. told c does.Close behind s s.operands Sent) running.old
        (Ok result) running.new }
{
    if last_end(&running.stack).is_none() {
        return false;
    }
    running.stack.put_unit(alloc);
    running.place = behind;
    true
}

// So it is where the closing was waited for.
fn go_on_awaited(alloc: Global, behind: u64, event: &Event, running: &mut Running) -> bool
    ensures { (c : Compiled) → Makes (λ s. told c does.Wait behind s s.operands (Got event.now))
        running.old (Ok result) running.new }
{
    match event {
        Event::Closed => go_on_closed(alloc, running, behind),
        _ => false,
    }
}

// The place of a label in a table.
fn place_of(places: &[(Name, u64)], label: &Name) -> Option<u64>
    ensures { result ≡ place_of places.now label.now }
{
    for (name, place) in places {
        if name.as_slice() == label.as_slice() {
            return Some(*place);
        }
    }
    None
}

// Goes on at the place of the label that was received, with the end.
fn go_on_in_arm(places: &[(Name, u64)], event: &Event, running: &mut Running) -> bool
    ensures { Makes (λ s. matched places.now event.now s s.operands) running.old
        (Ok result) running.new }
{
    if last_end(&running.stack).is_none() {
        return false;
    }
    match event {
        Event::Label(label) => match place_of(places, label) {
            Some(place) => {
                running.place = place;
                true
            }
            None => false,
        },
        _ => false,
    }
}

// Goes on after an answer to what an instruction asks for that is followed by a place.
fn tell_instr(
    alloc: Global,
    code: &Code,
    instr: &Instr,
    behind: u64,
    answer: &Answer,
    running: &mut Running,
) -> Result<bool, AllocError>
    ensures { (fs : List Family) → Makes
        (λ s. told (code_of fs code.now) instr.now behind s s.operands answer.now) running.old
        result running.new }
{
    match (instr, answer) {
        (Instr::Call, Answer::Go) => go_into_function(alloc, code, behind, running),
        (Instr::Global(global), Answer::Go) => go_into_global(
            alloc, code, *global, behind, running,
        ),
        (Instr::New(_), Answer::Made(name)) => {
            go_on_with(running, behind, 0, ends_of(alloc, name)?)
        }
        (Instr::Fork(lambda), Answer::Forked) => {
            go_on_with(
                running,
                behind,
                captured_count(code, *lambda) as usize,
                Value::unit(alloc)?,
            )
        }
        (Instr::Send, Answer::Sent) => Ok(go_on_with_end(running, behind)),
        (Instr::Close, Answer::Sent) => Ok(go_on_closed(alloc, running, behind)),
        (Instr::Select(_), Answer::Sent) => Ok(go_on_selected(running, behind)),
        (Instr::Receive, Answer::Got(event)) => go_on_received(alloc, behind, event, running),
        (Instr::Wait, Answer::Got(event)) => Ok(go_on_awaited(alloc, behind, event, running)),
        (Instr::Match(places), Answer::Got(event)) => Ok(go_on_in_arm(places, event, running)),
        _ => Ok(false),
    }
}

// Goes on after an answer, and says whether the code asks for one of its kind and goes on after it. Where there is no room,
// nothing changes.
fn tell(
    alloc: Global,
    code: &Code,
    answer: &Answer,
    running: &mut Running,
) -> Result<bool, AllocError>
    ensures { (fs : List Family) → Makes
        (λ s. told_at (code_of fs code.now) s answer.now) running.old result running.new }
{
    match instr_at(code, running.place) {
        Some(instr) => tell_instr(alloc, code, instr, running.place - 1, answer, running),
        None => Ok(false),
    }
}

// Goes on after what was sent on the last value.
fn sent_instr(alloc: Global, instr: &Instr, behind: u64, running: &mut Running) -> bool
    ensures { (c : Compiled) → Makes (λ s. told c instr.now behind s s.operands Sent) running.old
        (Ok result) running.new }
{
    match instr {
        Instr::Send => go_on_with_end(running, behind),
        Instr::Close => go_on_closed(alloc, running, behind),
        Instr::Select(_) => go_on_selected(running, behind),
        _ => false,
    }
}

// What was received goes into the spare pair, in place of the end.
fn go_on_with_spare(running: &mut Running, behind: u64, event: &Event, spare: Option<Value>) -> bool
    requires { spare ≡ spare_for running.old.operands }
    ensures { (c : Compiled) → Makes (λ s. told c does.Receive behind s s.operands (Got event.now))
        running.old (Ok result) running.new }
{
    let mut both = match spare {
        Some(both) => both,
        None => return false,
    };
    let form = match brought(event) {
        Some(form) => form,
        None => return false,
    };
    both.set_first(form);
    match running.stack.replace(1, both) {
        Ok(()) => {}
        Err(_) => return false,
    }
    running.place = behind;
    true
}

// Goes on after what was received on the last value.
fn got_instr(
    alloc: Global,
    instr: &Instr,
    behind: u64,
    event: &Event,
    spare: Option<Value>,
    running: &mut Running,
) -> bool
    requires { spare ≡ spare_for running.old.operands }
    ensures { (c : Compiled) → Makes (λ s. told c instr.now behind s s.operands (Got event.now))
        running.old (Ok result) running.new }
{
    match instr {
        Instr::Receive => go_on_with_spare(running, behind, event, spare),
        Instr::Wait => go_on_awaited(alloc, behind, event, running),
        Instr::Match(places) => go_on_in_arm(places, event, running),
        _ => false,
    }
}

// Goes on after what was sent, and says whether the code sends.
fn tell_sent(alloc: Global, code: &Code, running: &mut Running) -> bool
    ensures { (fs : List Family) → Makes
        (λ s. told_at (code_of fs code.now) s Sent) running.old (Ok result) running.new }
{
    match instr_at(code, running.place) {
        Some(instr) => sent_instr(alloc, instr, running.place - 1, running),
        None => false,
    }
}

// Goes on after what was received, and says whether the code receives it.
fn tell_got(
    alloc: Global,
    code: &Code,
    event: &Event,
    spare: Option<Value>,
    running: &mut Running,
) -> bool
    requires { spare ≡ spare_for running.old.operands }
    ensures { (fs : List Family) → Makes
        (λ s. told_at (code_of fs code.now) s (Got event.now)) running.old (Ok result) running.new }
{
    match instr_at(code, running.place) {
        Some(instr) => got_instr(alloc, instr, running.place - 1, event, spare, running),
        None => false,
    }
}

/// Goes on after an answer, and says whether the code asks for one of its kind and goes on after it. With the spare pair no
/// memory is wanting after what was sent or received. Where there is no room, nothing changes.
pub(crate) fn tell_ready(
    alloc: Global,
    code: &Code,
    answer: &Answer,
    ready: bool,
    spare: &mut Option<Value>,
    running: &mut Running,
) -> Result<bool, AllocError>
    requires { ready ≡ true → spare.old ≡ spare_for running.old.operands }
    ensures goes { (fs : List Family) → Makes
        (λ s. told_at (code_of fs code.now) s answer.now) running.old result running.new }
    ensures sure { ready ≡ true → is_exchange answer.now ≡ true → IsOk result }
    ensures kept { OnErr result (spare.new ≡ spare.old) }
{
    if ready {
        match answer {
            Answer::Sent => return Ok(tell_sent(alloc, code, running)),
            Answer::Got(event) => return Ok(tell_got(alloc, code, event, spare.take(), running)),
            _ => {}
        }
    }
    tell(alloc, code, answer, running)
}

// Copies of the last values, in order.
fn last_values(alloc: Global, stack: &Stack, count: usize) -> Result<Vec<Value>, AllocError>
    ensures { IfOk result (λ values. values.items ≡ reverse (take count stack.now)) }
{
    let mut values = Vec::new(alloc);
    let mut i = count;
    while 0 < i {
        i -= 1;
        if let Some(value) = stack.get(i) {
            values.push(copy(alloc, value)?)?;
        }
    }
    Ok(values)
}

// The entry of the task that is made at a place.
fn forked_entry(code: &Code, place: u64) -> Option<&LambdaEntry>
    ensures { (fs : List Family) → option_copied result ≡ forked_entry (code_of fs code.now) place }
{
    match instr_at(code, place)? {
        Instr::Fork(lambda) => entry_at(code, *lambda),
        _ => None,
    }
}

/// Where the task begins that is forked, if a fork is asked for.
pub(crate) fn child_at(
    alloc: Global,
    code: &Code,
    running: &Running,
) -> Result<Option<Running>, AllocError>
    ensures { IfOk result (λ o. (fs : List Family) →
        o ≡ child_at (code_of fs code.now) running.now) }
{
    let entry = match forked_entry(code, running.place) {
        Some(entry) => entry,
        None => return Ok(None),
    };
    let count = entry.captured.len();
    if running.stack.len() < count {
        return Ok(None);
    }
    let values = last_values(alloc, &running.stack, count)?;
    let room = room_for(alloc, &entry.captured)?;
    let slots = spread(room, &entry.captured, values);
    Ok(Some(Running::at(alloc, entry.start, slots)))
}
