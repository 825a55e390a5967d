//! Values as text.

ghost use Rattle.std.specs.Prelude.{◌≡◌, ◌+◌, ◌<◌, ◌≤◌, ◌++◌, ◌∷◌, [], true, length, drop, reverse, if◌then◌else◌, is_some, slice_get, codes, IfOk, OnOk, MatchOption};
ghost use Rattle.std.specs.Option.{option_copied};
ghost use Rattle.std.specs.String.{string_bytes};
ghost use Rattle.fst_value.specs.declared.printing.Piece.TheVariants as piece_is;
ghost use Rattle.fst_value.specs.Nodes.{AreNodes};
ghost use Rattle.fst_value.specs.Texts.{maker_in, value_text};
ghost use Rattle.fst_base.specs.Gains.{Gains};
ghost use Rattle.fst_value.specs.Pieces.{Unfolds, behind_root, is_shown, made_pieces, maker_name, root_enclosed, root_pieces, root_text, weight};

use crate::cells::Cell;
use crate::letters::{push_quoted, truth_text};
use crate::nodes::Node;
use crate::value::Value;
use fst_base::push_number;
use fst_types::{Family, Maker};
use std::alloc::{AllocError, Global};
use std::collections::VecDeque;

/// A part of a value that is still to be written.
#[derive(Clone, Copy)]
pub(crate) enum Piece {
    /// The end of parentheses.
    Close,
    /// The next value.
    Next,
    /// The next value, which is the second one of a pair.
    Second,
    /// So many next values, which are fields.
    Fields(u32),
}

fn push(stack: &mut Vec<Piece>, piece: Piece) -> Result<(), AllocError>
    ensures { OnOk result (reverse stack.new.items ≡ piece ∷ reverse stack.old.items) }
{
    stack.push(piece)?;
    Ok(())
}

fn pop(stack: &mut Vec<Piece>) -> Option<Piece>
    ensures { MatchOption result (stack.old.items ≡ [])
        (λ p. reverse stack.old.items ≡ p ∷ reverse stack.new.items) }
{
    stack.pop()
}

// The constructor that these numbers name.
fn maker_at(families: &[Family], family: u32, maker: u32) -> Option<&Maker>
    ensures { option_copied result ≡ maker_in (slice_get families.now family) maker }
{
    match families.get(family as usize) {
        Some(found) => found.makers.get(maker as usize),
        None => None,
    }
}

// The beginning of a pair.
fn push_pair(text: &mut String, stack: &mut Vec<Piece>) -> Result<bool, AllocError>
    ensures text { Gains result text.old text.new (codes "(") }
    ensures pieces { OnOk result (reverse stack.new.items ≡ piece_is.Next ∷ piece_is.Second
        ∷ piece_is.Close ∷ reverse stack.old.items) }
    ensures shown { IfOk result (λ shown. shown ≡ true) }
{
    text.push_str("(")?;
    push(stack, Piece::Close)?;
    push(stack, Piece::Second)?;
    push(stack, Piece::Next)?;
    Ok(true)
}

// The beginning of a constructor with so many fields, where there is one.
fn push_maker(
    text: &mut String,
    stack: &mut Vec<Piece>,
    maker: Option<&Maker>,
    count: u32,
) -> Result<bool, AllocError>
    ensures text { Gains result text.old text.new (maker_name (option_copied maker.entry)) }
    ensures pieces { OnOk result (reverse stack.new.items ≡ made_pieces
        (option_copied maker.entry) count ++ reverse stack.old.items) }
    ensures shown { IfOk result (λ shown. shown ≡ is_some (option_copied maker.entry)) }
{
    match maker {
        Some(made) => {
            text.push_str(made.name.as_str())?;
            push(stack, Piece::Fields(count))?;
            Ok(true)
        }
        None => {
            text.push_str("?")?;
            Ok(false)
        }
    }
}

// Writes how the value with this root begins, and says whether its parts are to be written too.
fn push_root(
    text: &mut String,
    stack: &mut Vec<Piece>,
    families: &[Family],
    root: &Cell,
) -> Result<bool, AllocError>
    ensures text { Gains result text.old text.new (root_text families.now root.now) }
    ensures pieces { OnOk result (reverse stack.new.items ≡ root_pieces families.now root.now
        ++ reverse stack.old.items) }
    ensures shown { IfOk result (λ shown. shown ≡ is_shown families.now root.now) }
{
    match root {
        Cell::Int(number) => push_number(text, *number)?,
        Cell::Bool(truth) => text.push_str(truth_text(*truth))?,
        Cell::Char(character) => push_quoted(text, *character)?,
        Cell::Unit => text.push_str("()")?,
        Cell::Pair => return push_pair(text, stack),
        Cell::Make(family, maker, count) => {
            return push_maker(text, stack, maker_at(families, *family, *maker), *count)
        }
        Cell::Function(_, _) | Cell::End(_) => {
            text.push_str("?")?;
            return Ok(false);
        }
    }
    Ok(true)
}

// The place of what is to be written behind the root at a place: its parts, or what stands behind the value.
fn place_behind(nodes: &VecDeque<Node>, at: usize, shown: bool) -> usize
    requires some { at < length nodes.now.items }
    requires nodes { AreNodes (drop at nodes.now.items) }
    ensures rest { drop result nodes.now.items ≡ behind_root shown (drop at nodes.now.items) }
    ensures nodes { AreNodes (drop result nodes.now.items) }
    ensures fewer { at < result }
{
    if shown { at + 1 } else { at + nodes[at].size }
}

// Writes how the value at a place begins, and gives the place of what comes behind that.
fn push_first(
    text: &mut String,
    stack: &mut Vec<Piece>,
    families: &[Family],
    nodes: &VecDeque<Node>,
    at: usize,
) -> Result<usize, AllocError>
    requires some { at < length nodes.now.items }
    requires nodes { AreNodes (drop at nodes.now.items) }
    ensures nodes { IfOk result (λ behind. AreNodes (drop behind nodes.now.items)) }
    ensures same { Unfolds result families.now text.old text.new
        (piece_is.Next ∷ reverse stack.old.items) stack.new nodes.now.items at }
    ensures less { IfOk result (λ behind.
        4 + weight stack.new.items (drop behind nodes.now.items) ≤ weight stack.old.items
        (drop at nodes.now.items)) }
{
    let shown = push_root(text, stack, families, &nodes[at].cell)?;
    Ok(place_behind(nodes, at, shown))
}

// The next value, if there is one.
fn push_next(
    text: &mut String,
    stack: &mut Vec<Piece>,
    families: &[Family],
    nodes: &VecDeque<Node>,
    at: usize,
) -> Result<usize, AllocError>
    requires { AreNodes (drop at nodes.now.items) }
    ensures nodes { IfOk result (λ behind. AreNodes (drop behind nodes.now.items)) }
    ensures same { Unfolds result families.now text.old text.new
        (piece_is.Next ∷ reverse stack.old.items) stack.new nodes.now.items at }
    ensures less { IfOk result (λ behind.
        weight stack.new.items (drop behind nodes.now.items) ≤ weight stack.old.items
        (drop at nodes.now.items)) }
{
    if nodes.len() <= at {
        return Ok(at);
    }
    push_first(text, stack, families, nodes, at)
}

// Whether the value with this root stands in parentheses as a field.
fn is_enclosed(families: &[Family], root: &Cell) -> bool
    ensures { result ≡ root_enclosed families.now root.now }
{
    match root {
        Cell::Int(number) => number.is_negative(),
        Cell::Make(family, maker, count) => {
            0 < *count && maker_at(families, *family, *maker).is_some()
        }
        _ => false,
    }
}

// Opens parentheses where they are asked for.
fn push_open(text: &mut String, stack: &mut Vec<Piece>, enclosed: bool) -> Result<(), AllocError>
    ensures text { Gains result text.old text.new (if enclosed then codes "(" else []) }
    ensures pieces { OnOk result (reverse
        stack.new.items ≡ (if enclosed then piece_is.Close ∷ [] else []) ++ reverse
        stack.old.items) }
{
    if !enclosed {
        return Ok(());
    }
    text.push_str("(")?;
    push(stack, Piece::Close)
}

// The first of so many fields, with a space before it, and the others after it.
fn push_fields(
    text: &mut String,
    stack: &mut Vec<Piece>,
    families: &[Family],
    count: u32,
    nodes: &VecDeque<Node>,
    at: usize,
) -> Result<usize, AllocError>
    requires { AreNodes (drop at nodes.now.items) }
    ensures nodes { IfOk result (λ behind. AreNodes (drop behind nodes.now.items)) }
    ensures same { Unfolds result families.now text.old text.new
        (piece_is.Fields count ∷ reverse stack.old.items) stack.new nodes.now.items at }
    ensures less { IfOk result (λ behind.
        weight stack.new.items (drop behind nodes.now.items) ≤ weight stack.old.items
        (drop at nodes.now.items)) }
{
    if count == 0 || nodes.len() <= at {
        return Ok(at);
    }
    text.push_str(" ")?;
    push(stack, Piece::Fields(count - 1))?;
    push_open(text, stack, is_enclosed(families, &nodes[at].cell))?;
    push_first(text, stack, families, nodes, at)
}

fn push_piece(
    text: &mut String,
    stack: &mut Vec<Piece>,
    families: &[Family],
    piece: Piece,
    nodes: &VecDeque<Node>,
    at: usize,
) -> Result<usize, AllocError>
    requires { AreNodes (drop at nodes.now.items) }
    ensures nodes { IfOk result (λ behind. AreNodes (drop behind nodes.now.items)) }
    ensures same { Unfolds result families.now text.old text.new
        (piece ∷ reverse stack.old.items) stack.new nodes.now.items at }
    ensures less { IfOk result (λ behind.
        weight stack.new.items (drop behind nodes.now.items) ≤ weight stack.old.items
        (drop at nodes.now.items)) }
{
    match piece {
        Piece::Close => {
            text.push_str(")")?;
            Ok(at)
        }
        Piece::Next => push_next(text, stack, families, nodes, at),
        Piece::Second => {
            text.push_str(", ")?;
            push_next(text, stack, families, nodes, at)
        }
        Piece::Fields(count) => push_fields(text, stack, families, count, nodes, at),
    }
}

/// The text of a value, where these are the data types. What is still to be written stands on a stack in memory, so a value
/// may be very deep.
pub fn print(alloc: Global, v: &Value, families: &[Family]) -> Result<String, AllocError>
    ensures { IfOk result (λ text. string_bytes text ≡ value_text families.now v.now) }
{
    let mut text = String::new(alloc);
    let mut stack = Vec::new(alloc);
    let shown = push_root(&mut text, &mut stack, families, &v.root)?;
    let mut at = if shown { 0 } else { v.body.len() };
    while let Some(piece) = pop(&mut stack) {
        at = push_piece(&mut text, &mut stack, families, piece, &v.body, at)?;
    }
    Ok(text)
}
