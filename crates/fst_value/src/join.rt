//! Values that become the parts of one. The largest stays where it is in memory, and the nodes of the others are moved to it.

ghost use Rattle.std.specs.Prelude.{◌≡◌, ◌-◌, ◌<◌, ◌≤◌, ◌+◌, ◌∷◌, ◌++◌, [], length, take, drop, reverse, IfOk, IfErr, IsOk, OnOk, OnErr};
ghost use Rattle.std.specs.List.{flat_map};
ghost use Rattle.std.specs.Vec.{vec_len, vec_capacity};
ghost use Rattle.std.specs.VecDeque.{deque_len, deque_capacity};
ghost use Rattle.fst_value.specs.Cells.{rooted};
ghost use Rattle.fst_value.specs.Nodes.{nodes_of};
ghost use Rattle.fst_value.specs.OneCell.{arity};
ghost use Rattle.fst_value.specs.Stacks.{Makes, paired, gathered};
ghost use Rattle.fst_value.specs.Parts.{listed};

use crate::cells::Cell;
use crate::nodes::{Node, move_before};
use crate::value::{Value, alone};
use std::alloc::{AllocError, Global};
use std::collections::VecDeque;

/// Turns the values from a place on: so many first ones of them go behind the others.
pub(crate) fn turn(values: &mut Vec<Value>, at: usize, count: usize)
    requires at { at ≤ length values.old.items }
    requires count { count ≤ length (drop at values.old.items) }
    ensures items { values.new.items ≡ take at values.old.items
        ++ (drop count (drop at values.old.items) ++ take count (drop at values.old.items)) }
    ensures len { vec_len values.new ≡ vec_len values.old }
    ensures capacity { vec_capacity values.new ≡ vec_capacity values.old }
{
    values[at..].rotate_left(count);
}

// How many nodes the values have, where the number fits.
fn nodes_among(values: &[Value]) -> Result<usize, AllocError>
    ensures { IfOk result (λ n. n ≡ length (flat_map nodes_of values.now)) }
{
    let mut sum: usize = 0;
    for value in values {
        match sum.checked_add(1 + value.body.len()) {
            None => return Err(AllocError),
            Some(more) => sum = more,
        }
    }
    Ok(sum)
}

// The place behind the largest of the values from a place on.
fn behind_largest(values: &[Value], at: usize) -> usize
    requires { at ≤ length values.now }
    ensures from { at ≤ result }
    ensures within { result ≤ length values.now }
{
    let mut largest = 0;
    let mut behind = values.len();
    for i in at..values.len() {
        let value = &values[i];
        if largest < value.body.len() {
            largest = value.body.len();
            behind = i + 1;
        }
    }
    behind
}

// Moves the nodes of a value in front of others, where there is room.
fn move_value(value: Value, nodes: &mut VecDeque<Node>)
    requires { deque_len nodes.old + length (nodes_of value) ≤ deque_capacity nodes.old }
    ensures nodes { nodes.new.items ≡ nodes_of value ++ nodes.old.items }
    ensures len { deque_len nodes.new ≡ deque_len nodes.old + length (nodes_of value) }
    ensures capacity { deque_capacity nodes.new ≡ deque_capacity nodes.old }
{
    let Value { root, body } = value;
    let size = 1 + body.len();
    move_before(body, nodes);
    nodes.push_front_reserved(Node { cell: root, size });
}

/// Moves the nodes of the values from a place on in front of others, where there is room.
pub(crate) fn move_values(values: &mut Vec<Value>, at: usize, nodes: &mut VecDeque<Node>)
    requires at { at ≤ length values.old.items }
    requires room { deque_len nodes.old + length (flat_map nodes_of
        (drop at values.old.items)) ≤ deque_capacity nodes.old }
    ensures nodes { nodes.new.items ≡ flat_map nodes_of (drop at values.old.items)
        ++ nodes.old.items }
    ensures values { values.new.items ≡ take at values.old.items }
    ensures len { vec_len values.new ≡ at }
    ensures capacity { vec_capacity values.new ≡ vec_capacity values.old }
{
    while at < values.len() {
        if let Some(value) = values.pop() {
            move_value(value, nodes);
        }
    }
}

// Moves the nodes of the values from a place on to those of a value behind them, for which there is room for so many nodes in
// all. Where there is no room, nothing changes.
fn move_to(
    values: &mut Vec<Value>,
    at: usize,
    last: Value,
    room: usize,
) -> Result<VecDeque<Node>, Value>
    requires at { at ≤ length values.old.items }
    requires room { room ≡ length (flat_map nodes_of (drop at values.old.items))
        + length (nodes_of last) }
    ensures nodes { IfOk result (λ nodes. nodes.items ≡ flat_map nodes_of
        (drop at values.old.items) ++ nodes_of last) }
    ensures values { OnOk result (values.new.items ≡ take at values.old.items) }
    ensures value { IfErr result (λ v. v ≡ last) }
    ensures values_stay { OnErr result (values.new.items ≡ values.old.items) }
    ensures fewer { vec_len values.new ≤ vec_len values.old }
    ensures capacity { vec_capacity values.new ≡ vec_capacity values.old }
{
    let Value { root, mut body } = last;
    match body.reserve(room - body.len()) {
        Err(_) => Err(Value { root, body }),
        Ok(()) => {
            let size = 1 + body.len();
            body.push_front_reserved(Node { cell: root, size });
            move_values(values, at, &mut body);
            Ok(body)
        }
    }
}

// Makes the values from a place on the parts of one with this root, in order but for so many first ones, which are its last
// parts. Where there is no room, nothing changes.
fn join_turned(
    values: &mut Vec<Value>,
    root: Cell,
    at: usize,
    count: usize,
) -> Result<(), AllocError>
    requires some { at < length values.old.items }
    requires count { count ≤ length (drop at values.old.items) }
    requires root { arity root ≡ length (drop at values.old.items) }
    ensures joined { OnOk result (values.new.items ≡ take at values.old.items ++ rooted root
        (drop count (drop at values.old.items) ++ take count (drop at values.old.items)) ∷ []) }
    ensures unchanged { OnErr result (values.new.items ≡ values.old.items) }
{
    let room = nodes_among(&values[at..])?;
    let behind = nodes_among(&values[at..at + count])?;
    match values.pop() {
        None => Err(AllocError),
        Some(last) => match move_to(values, at, last, room) {
            Err(last) => {
                values.push_reserved(last);
                Err(AllocError)
            }
            Ok(mut body) => {
                body.rotate_left(behind);
                values.push_reserved(Value { root, body });
                Ok(())
            }
        },
    }
}

/// Makes the values from a place on the parts of one with this root. Where there is no room, nothing changes.
pub(crate) fn join(values: &mut Vec<Value>, root: Cell, at: usize) -> Result<(), AllocError>
    requires some { at < length values.old.items }
    requires root { arity root ≡ length (drop at values.old.items) }
    ensures joined { OnOk result (values.new.items ≡ take at values.old.items ++ rooted root
        (drop at values.old.items) ∷ []) }
    ensures unchanged { OnErr result (values.new.items ≡ values.old.items) }
{
    let largest = behind_largest(values, at);
    let behind = values.len() - largest;
    turn(values, at, largest - at);
    match join_turned(values, root, at, behind) {
        Ok(()) => Ok(()),
        Err(error) => {
            turn(values, at, behind);
            Err(error)
        }
    }
}

/// Makes a pair of the last two values, and says whether there are two. Where there is no room, nothing changes.
pub(crate) fn join_two(values: &mut Vec<Value>) -> Result<bool, AllocError>
    ensures { Makes paired (reverse values.old.items) result (reverse values.new.items) }
{
    if values.len() < 2 {
        return Ok(false);
    }
    let at = values.len() - 2;
    join(values, Cell::Pair, at)?;
    Ok(true)
}

/// Makes one value of so many last ones as the root has parts, and says whether there are so many. Where there is no room,
/// nothing changes.
pub(crate) fn gather(
    alloc: Global,
    values: &mut Vec<Value>,
    root: Cell,
    count: u32,
) -> Result<bool, AllocError>
    requires { arity root ≡ count }
    ensures { Makes (gathered (λ vs. rooted root (listed vs)) count) (reverse values.old.items)
        result (reverse values.new.items) }
{
    if values.len() < count as usize {
        return Ok(false);
    }
    if count == 0 {
        values.push(alone(alloc, root))?;
        return Ok(true);
    }
    let at = values.len() - count as usize;
    join(values, root, at)?;
    Ok(true)
}
