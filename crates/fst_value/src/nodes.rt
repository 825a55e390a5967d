//! The cells among the parts of values.

ghost use Rattle.std.specs.Prelude.{◌≡◌, ◌≤◌, ◌+◌, ◌++◌, length, take, drop, IfOk, OnOk};
ghost use Rattle.std.specs.List.{flat_map};
ghost use Rattle.std.specs.VecDeque.{deque_len, deque_capacity};
ghost use Rattle.fst_value.specs.Nodes.{AreNodes, cells_in, nodes_of, values_in};
ghost use Rattle.fst_value.specs.OneCell.{ends_at};

use crate::cells::{Cell, end_at};
use fst_types::EndName;
use std::alloc::{AllocError, Global};
use std::collections::VecDeque;

/// A cell among the parts of a value, and how many cells the value has that begins with it.
#[derive(Drop)]
pub(crate) struct Node {
    pub(crate) cell: Cell,
    pub(crate) size: usize,
}

impl Node {
    /// The same node in memory of its own.
    pub(crate) fn copy(&self, alloc: Global) -> Result<Node, AllocError>
        ensures { IfOk result (λ n. n ≡ self.now) }
    {
        let cell = self.cell.copy(alloc)?;
        Ok(Node {
            cell,
            size: self.size,
        })
    }
}

/// The same nodes in memory of their own.
pub(crate) fn copies_of(alloc: Global, nodes: &VecDeque<Node>) -> Result<VecDeque<Node>, AllocError>
    ensures { IfOk result (λ copies. copies.items ≡ nodes.now.items) }
{
    let mut copies = VecDeque::with_capacity(alloc, nodes.len())?;
    for i in 0..nodes.len() {
        copies.push_back(nodes[i].copy(alloc)?)?;
    }
    Ok(copies)
}

/// Puts the end at a cell behind others, if it is one.
pub(crate) fn push_end(
    alloc: Global,
    names: &mut Vec<EndName>,
    cell: &Cell,
) -> Result<(), AllocError>
    ensures { OnOk result (names.new.items ≡ names.old.items ++ ends_at cell.now) }
{
    if let Some(name) = end_at(cell) {
        names.push(name.copy(alloc)?)?;
    }
    Ok(())
}

/// Puts the ends among the cells behind others, in order.
pub(crate) fn push_ends(
    alloc: Global,
    names: &mut Vec<EndName>,
    nodes: &VecDeque<Node>,
) -> Result<(), AllocError>
    ensures { OnOk result (names.new.items ≡ names.old.items ++ flat_map ends_at
        (cells_in nodes.now.items)) }
{
    for i in 0..nodes.len() {
        push_end(alloc, names, &nodes[i].cell)?;
    }
    Ok(())
}

/// Moves the first nodes behind others, where there is room.
pub(crate) fn move_first(from: &mut VecDeque<Node>, to: &mut VecDeque<Node>, count: usize)
    requires nodes { count ≤ deque_len from.old }
    requires room { deque_len to.old + count ≤ deque_capacity to.old }
    ensures to { to.new.items ≡ to.old.items ++ take count from.old.items }
    ensures from { from.new.items ≡ drop count from.old.items }
    ensures capacity { deque_capacity from.new ≡ deque_capacity from.old }
{
    for _ in 0..count {
        if let Some(node) = from.pop_front() {
            to.push_back_reserved(node);
        }
    }
}

/// Moves all nodes in front of others, where there is room.
pub(crate) fn move_before(mut from: VecDeque<Node>, to: &mut VecDeque<Node>)
    requires { deque_len to.old + length from.items ≤ deque_capacity to.old }
    ensures nodes { to.new.items ≡ from.items ++ to.old.items }
    ensures len { deque_len to.new ≡ deque_len to.old + length from.items }
    ensures capacity { deque_capacity to.new ≡ deque_capacity to.old }
{
    while let Some(node) = from.pop_back() {
        to.push_front_reserved(node);
    }
}

/// How many values there are up to the largest one of the first ones, and how many nodes they have.
pub(crate) fn up_to_largest(nodes: &VecDeque<Node>, count: usize) -> (usize, usize)
    requires nodes { AreNodes nodes.now.items }
    requires count { count ≤ length (values_in nodes.now.items) }
    ensures values { result.0 ≤ count }
    ensures nodes { result.1 ≡ length (flat_map nodes_of
        (take result.0 (values_in nodes.now.items))) }
{
    let mut largest = 0;
    let mut up_to = (0, 0);
    let mut at = 0;
    for i in 0..count {
        let size = nodes[at].size;
        at += size;
        if largest < size {
            largest = size;
            up_to = (i + 1, at);
        }
    }
    up_to
}
