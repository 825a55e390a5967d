ghost use Rattle.std.specs.Prelude.{◌≡◌, ◌<◌, ℕ, List, IfOk, IfSome, MatchOption, OnOk, length};
ghost use Rattle.fst_types.specs.declared.family.Family.{Family};
ghost use Rattle.fst_terms.specs.CoreTree.{core_height, local};
ghost use Rattle.fst_code.specs.Writable.{IsWritable};
ghost use Rattle.fst_code.specs.Written.{Leaves, Writes, compiled};

use crate::branches::{write_case, write_if, write_match};
use crate::built::{Built, push};
use crate::given::Given;
use crate::marks::mark;
use crate::parts::{
    write_function, write_let, write_make, write_second, write_split, write_task, write_then,
};
use crate::pieces::push_load;
use fst_machine::Instr;
use fst_terms::{Form, Term};
use std::alloc::AllocError;

// The code of terms, from its end. Of a term is written what comes behind its first part, and then that part; so chains of
// operators and applications are written in a loop.

fn write_local(out: &mut Built, later: &mut Vec<bool>, k: u32) -> Result<(), AllocError>
    requires { k < length later.old.items }
    ensures { OnOk result ((fs : List Family) (at : ℕ) →
        Writes (compiled fs out.old) later.old.items (compiled fs out.new) later.new.items
        (local at k)) }
{
    push_load(out, later, k)?;
    mark(later, k as usize);
    Ok(())
}

// What comes behind the first part of a term, which is given back, or the whole term if it has none.
#[cycle(write)]
fn write_behind<'a>(
    given: &Given<'_>,
    out: &mut Built,
    later: &mut Vec<bool>,
    term: &'a Term,
) -> Result<Option<&'a Term>, AllocError>
    requires { IsWritable (length later.old.items) (length out.old.lambdas.items) term.now }
    ensures written { IfOk result (λ o. MatchOption o
        (Writes (compiled given.now.families.now out.old) later.old.items
        (compiled given.now.families.now out.new) later.new.items term.now)
        (λ e. Leaves (compiled given.now.families.now out.old) later.old.items
        (compiled given.now.families.now out.new) later.new.items term.now e.now)) }
    ensures low { IfOk result (λ o. IfSome o (λ e. core_height e.now < core_height term.now)) }
{
    match &term.form {
        Form::Local(k) => {
            write_local(out, later, *k)?;
            Ok(None)
        }
        Form::GlobalUse(k, _) => {
            push(out, Instr::Global(*k))?;
            Ok(None)
        }
        Form::Int(n) => {
            push(out, Instr::Int(*n))?;
            Ok(None)
        }
        Form::Bool(b) => {
            push(out, Instr::Bool(*b))?;
            Ok(None)
        }
        Form::Char(c) => {
            push(out, Instr::Char(*c))?;
            Ok(None)
        }
        Form::Unit => {
            push(out, Instr::Unit)?;
            Ok(None)
        }
        Form::Pair(first, second) => {
            write_second(given, out, later, Instr::Pair, second)?;
            Ok(Some(first))
        }
        Form::Make(family, maker, arguments) => {
            write_make(given, out, later, *family, *maker, arguments)?;
            Ok(None)
        }
        Form::Lambda(_, _, _, body) => {
            write_function(given, out, later, body)?;
            Ok(None)
        }
        Form::Apply(first, second) => {
            write_second(given, out, later, Instr::Call, second)?;
            Ok(Some(first))
        }
        Form::Let(_, value, body) => {
            write_let(given, out, later, body)?;
            Ok(Some(value))
        }
        Form::Split(_, _, value, body) => {
            write_split(given, out, later, body)?;
            Ok(Some(value))
        }
        Form::If(test, yes, no) => {
            write_if(given, out, later, yes, no)?;
            Ok(Some(test))
        }
        Form::Case(value, arms) => {
            write_case(given, out, later, arms)?;
            Ok(Some(value))
        }
        Form::Operate(op, first, second) => {
            write_second(given, out, later, Instr::Operate(*op), second)?;
            Ok(Some(first))
        }
        Form::Not(part) => {
            push(out, Instr::Not)?;
            Ok(Some(part))
        }
        Form::New(k) => {
            push(out, Instr::New(*k))?;
            Ok(None)
        }
        Form::Send(value, channel) => {
            write_second(given, out, later, Instr::Send, channel)?;
            Ok(Some(value))
        }
        Form::Receive(channel) => {
            push(out, Instr::Receive)?;
            Ok(Some(channel))
        }
        Form::Close(channel) => {
            push(out, Instr::Close)?;
            Ok(Some(channel))
        }
        Form::Wait(channel) => {
            push(out, Instr::Wait)?;
            Ok(Some(channel))
        }
        Form::Select(label, channel) => {
            push(out, Instr::Select(label.copy(given.alloc)?))?;
            Ok(Some(channel))
        }
        Form::Match(channel, arms) => {
            write_match(given, out, later, arms)?;
            Ok(Some(channel))
        }
        Form::Fork(body) => {
            write_task(given, out, later, body)?;
            Ok(None)
        }
        Form::Then(first, second) => {
            write_then(given, out, later, second)?;
            Ok(Some(first))
        }
    }
}

/// Writes the code of a term.
#[cycle(write)]
pub(crate) fn write(
    given: &Given<'_>,
    out: &mut Built,
    later: &mut Vec<bool>,
    term: &Term,
) -> Result<(), AllocError>
    requires { IsWritable (length later.old.items) (length out.old.lambdas.items) term.now }
    ensures { OnOk result (Writes (compiled given.now.families.now out.old) later.old.items
        (compiled given.now.families.now out.new) later.new.items term.now) }
{
    let mut rest = term;
    while let Some(first) = write_behind(given, out, later, rest)? {
        rest = first;
    }
    Ok(())
}
