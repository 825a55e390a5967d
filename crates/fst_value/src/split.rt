//! Values that are replaced by their parts. The largest stays where it is in memory, and the nodes of the others are moved.

ghost use Rattle.std.specs.Prelude.{◌≡◌, ◌+◌, ◌<◌, ◌≤◌, ◌++◌, [], reverse, length, take, drop, is_some, IfOk, OnOk, OnErr};
ghost use Rattle.std.specs.List.{flat_map};
ghost use Rattle.std.specs.Vec.{vec_len, vec_capacity};
ghost use Rattle.std.specs.VecDeque.{deque_capacity};
ghost use Rattle.fst_value.specs.Cells.{first_or_unit};
ghost use Rattle.fst_value.specs.Nodes.{AreNodes, nodes_of, values_in};
ghost use Rattle.fst_value.specs.Stacks.{Makes, Takes, applied, halved, opened};
ghost use Rattle.fst_value.specs.Parts.{unjoined, pair_form, make_form, function_form};

use crate::join::{move_values, turn};
use crate::nodes::{Node, move_first, up_to_largest};
use crate::value::{Form, Value};
use std::alloc::{AllocError, Global};
use std::collections::VecDeque;
use std::mem;

// Takes the first value off the nodes. Where there is no room, nothing changes.
fn take_first(alloc: Global, nodes: &mut VecDeque<Node>) -> Result<Value, AllocError>
    requires some { 0 < length nodes.old.items }
    requires nodes { AreNodes nodes.old.items }
    ensures first { IfOk result (λ v. nodes.old.items ≡ nodes_of v ++ nodes.new.items) }
    ensures unchanged { OnErr result (nodes.new.items ≡ nodes.old.items) }
    ensures capacity { deque_capacity nodes.new ≡ deque_capacity nodes.old }
{
    let size = nodes[0].size;
    let mut body = VecDeque::with_capacity(alloc, size - 1)?;
    let first = nodes.pop_front().unwrap();
    move_first(nodes, &mut body, size - 1);
    Ok(Value {
        root: first.cell,
        body,
    })
}

// Takes so many first values off the nodes and puts them behind others, for which there is room. Where there is no room for
// their nodes, nothing changes.
fn take_off(
    alloc: Global,
    nodes: &mut VecDeque<Node>,
    count: usize,
    values: &mut Vec<Value>,
) -> Result<(), AllocError>
    requires nodes { AreNodes nodes.old.items }
    requires count { count ≤ length (values_in nodes.old.items) }
    requires room { vec_len values.old + count ≤ vec_capacity values.old }
    ensures values { OnOk result (values.new.items ≡ values.old.items ++ take count
        (values_in nodes.old.items)) }
    ensures nodes { OnOk result (nodes.new.items ≡ flat_map nodes_of
        (drop count (values_in nodes.old.items))) }
    ensures nodes_stay { OnErr result (nodes.new.items ≡ nodes.old.items) }
    ensures values_stay { OnErr result (values.new.items ≡ values.old.items) }
    ensures capacity { vec_capacity values.new ≡ vec_capacity values.old }
{
    let at = values.len();
    for _ in 0..count {
        match take_first(alloc, nodes) {
            Ok(value) => values.push_reserved(value),
            Err(error) => {
                move_values(values, at, nodes);
                return Err(error);
            }
        }
    }
    Ok(())
}

// The value of which these are the nodes. It keeps their memory.
fn take_whole(alloc: Global, nodes: &mut VecDeque<Node>) -> Value
    requires { nodes.old.items ≡ nodes_of (first_or_unit (values_in nodes.old.items)) }
    ensures value { result ≡ first_or_unit (values_in nodes.old.items) }
    ensures none { nodes.new.items ≡ [] }
{
    let mut body = mem::replace(nodes, VecDeque::new(alloc));
    let first = body.pop_front().unwrap();
    Value {
        root: first.cell,
        body,
    }
}

/// Takes the values off their nodes and puts them behind others, in order. The largest one keeps its place in memory: those
/// behind it go to the front, and the others are taken off there. Where there is no room, nothing changes.
pub(crate) fn take_apart(
    alloc: Global,
    nodes: &mut VecDeque<Node>,
    count: usize,
    values: &mut Vec<Value>,
) -> Result<(), AllocError>
    requires nodes { AreNodes nodes.old.items }
    requires count { count ≡ length (values_in nodes.old.items) }
    ensures values { OnOk result (values.new.items ≡ values.old.items
        ++ values_in nodes.old.items) }
    ensures none { OnOk result (nodes.new.items ≡ []) }
    ensures nodes_stay { OnErr result (nodes.new.items ≡ nodes.old.items) }
    ensures values_stay { OnErr result (values.new.items ≡ values.old.items) }
    ensures capacity { vec_capacity values.old ≤ vec_capacity values.new }
{
    if count == 0 {
        return Ok(());
    }
    values.reserve(count)?;
    let at = values.len();
    let (up_to, end) = up_to_largest(nodes, count);
    nodes.rotate_left(end);
    match take_off(alloc, nodes, count - 1, values) {
        Err(error) => {
            nodes.rotate_right(end);
            Err(error)
        }
        Ok(()) => {
            values.push_reserved(take_whole(alloc, nodes));
            turn(values, at, count - up_to);
            Ok(())
        }
    }
}

// Turns the values from a place on round.
fn turn_round(values: &mut Vec<Value>, at: usize)
    requires { at ≤ length values.old.items }
    ensures { values.new.items ≡ take at values.old.items ++ reverse
        (drop at values.old.items) }
{
    values[at..].reverse();
}

/// Replaces the last value by its parts, the first one last. Where there is no room, the values stay as they were.
pub(crate) fn split_last(alloc: Global, values: &mut Vec<Value>) -> Result<(), AllocError>
    requires { 0 < length values.old.items }
    ensures parts { OnOk result (reverse values.new.items ≡ unjoined (reverse values.old.items)) }
    ensures unchanged { OnErr result (values.new.items ≡ values.old.items) }
{
    let mut value = values.pop().unwrap();
    let at = values.len();
    match value.move_parts(alloc, values) {
        Err(error) => {
            values.push_reserved(value);
            Err(error)
        }
        Ok(()) => {
            turn_round(values, at);
            Ok(())
        }
    }
}

/// Replaces the last value, where it is a pair, by its parts, and says whether it is one. Where there is no room, nothing changes.
pub(crate) fn split_pair(alloc: Global, values: &mut Vec<Value>) -> Result<bool, AllocError>
    ensures { Makes halved (reverse values.old.items) result (reverse values.new.items) }
{
    if !ends_in_pair(values) {
        return Ok(false);
    }
    split_last(alloc, values)?;
    Ok(true)
}

/// Replaces the last value, where it is a constructor, by its fields, and says whether it is one. Where there is no room,
/// nothing changes.
pub(crate) fn split_make(alloc: Global, values: &mut Vec<Value>) -> Result<bool, AllocError>
    ensures { Makes opened (reverse values.old.items) result (reverse values.new.items) }
{
    if !ends_in_make(values) {
        return Ok(false);
    }
    split_last(alloc, values)?;
    Ok(true)
}

/// Takes the value before the last one, where it is a function, and gives the values that it captured in order, if it is one.
/// Where there is no room, nothing changes.
pub(crate) fn take_function(
    alloc: Global,
    values: &mut Vec<Value>,
) -> Result<Option<Vec<Value>>, AllocError>
    ensures { Takes applied (reverse values.old.items) result (reverse values.new.items) }
{
    if !is_call(values) {
        return Ok(None);
    }
    let at = values.len() - 2;
    let mut parts = Vec::new(alloc);
    values[at].move_parts(alloc, &mut parts)?;
    values.remove(at);
    Ok(Some(parts))
}

fn is_call(values: &[Value]) -> bool
    ensures { result ≡ is_some (applied (reverse values.now)) }
{
    if values.len() < 2 {
        return false;
    }
    is_function(values[values.len() - 2].form())
}

fn ends_in_pair(values: &[Value]) -> bool
    ensures { result ≡ is_some (halved (reverse values.now)) }
{
    if values.len() == 0 {
        return false;
    }
    is_pair(values[values.len() - 1].form())
}

fn ends_in_make(values: &[Value]) -> bool
    ensures { result ≡ is_some (opened (reverse values.now)) }
{
    if values.len() == 0 {
        return false;
    }
    is_make(values[values.len() - 1].form())
}

pub(crate) fn is_pair(form: Form) -> bool
    ensures { result ≡ pair_form form }
{
    match form {
        Form::Int(_) => false,
        Form::Bool(_) => false,
        Form::Char(_) => false,
        Form::Unit => false,
        Form::Pair => true,
        Form::Make(_, _) => false,
        Form::Function(_) => false,
        Form::End => false,
    }
}

fn is_make(form: Form) -> bool
    ensures { result ≡ make_form form }
{
    match form {
        Form::Int(_) => false,
        Form::Bool(_) => false,
        Form::Char(_) => false,
        Form::Unit => false,
        Form::Pair => false,
        Form::Make(_, _) => true,
        Form::Function(_) => false,
        Form::End => false,
    }
}

fn is_function(form: Form) -> bool
    ensures { result ≡ function_form form }
{
    match form {
        Form::Int(_) => false,
        Form::Bool(_) => false,
        Form::Char(_) => false,
        Form::Unit => false,
        Form::Pair => false,
        Form::Make(_, _) => false,
        Form::Function(_) => true,
        Form::End => false,
    }
}
