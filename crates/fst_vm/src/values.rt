//! Values that a task is given.

ghost use Rattle.std.specs.Prelude.{◌≡◌, IfOk, option_copied, option_map};
ghost use Rattle.fst_value.specs.ValueTree.{end, pair};
ghost use Rattle.fst_vm.specs.Moves.{end_on, spare_for};
ghost use Rattle.fst_vm.specs.Scalars.{brought};
ghost use Rattle.fst_machine.specs.Spots.{ends_of, of_scalar};
ghost use Rattle.fst_machine.specs.Values.{received};

use fst_types::{ChannelName, EndName, Event, Side};
use fst_value::{Form, Stack, Value, copy};
use std::alloc::{AllocError, Global};

// A pair of two values.
pub(crate) fn pair(alloc: Global, first: Value, second: Value) -> Result<Value, AllocError>
    ensures { IfOk result (λ v. v ≡ pair first second) }
{
    let mut stack = Stack::new(alloc);
    stack.replace(0, first)?;
    stack.replace(0, second)?;
    stack.join_pair()?;
    Ok(stack.pop().unwrap())
}

fn end(alloc: Global, channel: &ChannelName, side: Side) -> Result<Value, AllocError>
    ensures { IfOk result (λ v. v ≡ end (record { channel = channel.now; side = side })) }
{
    let channel = channel.copy(alloc)?;
    let value = Value::end(alloc, EndName { channel, side })?;
    Ok(value)
}

/// The two ends of a channel as a pair.
pub(crate) fn ends_of(alloc: Global, channel: &ChannelName) -> Result<Value, AllocError>
    ensures { IfOk result (λ v. v ≡ ends_of channel.now) }
{
    let left = end(alloc, channel, Side::Left)?;
    let right = end(alloc, channel, Side::Right)?;
    let both = pair(alloc, left, right)?;
    Ok(both)
}

/// The value that an event brings, if it brings one.
pub(crate) fn received(alloc: Global, event: &Event) -> Result<Option<Value>, AllocError>
    ensures { IfOk result (λ o. o ≡ option_map of_scalar (received event.now)) }
{
    let value = match event {
        Event::Int(number) => Value::int(alloc, *number)?,
        Event::Bool(truth) => Value::bool(alloc, *truth)?,
        Event::Char(character) => Value::char(alloc, *character)?,
        Event::Unit => Value::unit(alloc)?,
        Event::Label(_) => return Ok(None),
        Event::Closed => return Ok(None),
    };
    Ok(Some(value))
}

/// The last value, if it is an end.
pub(crate) fn last_end(stack: &Stack) -> Option<&Value>
    ensures { option_copied result ≡ option_map end (end_on stack.now) }
{
    let value = stack.get(0)?;
    match value.form() {
        Form::End => Some(value),
        _ => None,
    }
}

/// The pair of the unit value and the last value, if this is an end.
pub(crate) fn spare_for(alloc: Global, stack: &Stack) -> Result<Option<Value>, AllocError>
    ensures { IfOk result (λ o. o ≡ spare_for stack.now) }
{
    match last_end(stack) {
        Some(end) => {
            let both = pair(alloc, Value::unit(alloc)?, copy(alloc, end)?)?;
            Ok(Some(both))
        }
        None => Ok(None),
    }
}

/// The form of the value that an event brings, if it brings one.
pub(crate) fn brought(event: &Event) -> Option<Form>
    ensures { result ≡ brought event.now }
{
    match event {
        Event::Int(number) => Some(Form::Int(*number)),
        Event::Bool(truth) => Some(Form::Bool(*truth)),
        Event::Char(character) => Some(Form::Char(*character)),
        Event::Unit => Some(Form::Unit),
        Event::Label(_) => None,
        Event::Closed => None,
    }
}
