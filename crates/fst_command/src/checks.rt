ghost use Rattle.std.specs.Prelude.{◌≤◌, IfErr, IfOk, length};
ghost use Rattle.fst_base.specs.Limits.{most_bytes};
ghost use Rattle.fst_options.specs.Words.{check};
ghost use Rattle.fst_command.specs.Finding.{AreResolved, AreUnresolved};
ghost use Rattle.fst_command.specs.Output.{IsFoundOf, SaysAccepted, Writes};
ghost use Rattle.fst_command.specs.Top.{IsAnswer};
ghost use Rattle.fst_command.specs.Views.{IfFound};

use crate::answer::{Answer, answer_fault, fixed};
use crate::finding::{Fault, find_module};
use crate::refusals::answer_refusal;
use crate::status::Status;
use fst_names::resolve;
use fst_terms::Module;
use fst_typing::check;
use std::alloc::{AllocError, Global};

/// The module that the bytes stand for, or why they stand for none.
pub(crate) fn find_resolved(alloc: Global, bytes: &[u8]) -> Result<Module, Fault>
    requires { length bytes.now ≤ most_bytes }
    ensures module { IfOk result (AreResolved bytes.now) }
    ensures fault { IfErr result (λ f. IfFound f (AreUnresolved bytes.now)) }
{
    let source = find_module(alloc, bytes)?;
    Ok(resolve(alloc, &source)?)
}

// What is found of a module within a budget of pairs.
fn answer_module(alloc: Global, bytes: &[u8], m: &Module, budget: u32) -> Result<Answer, AllocError>
    requires budget { 1 ≤ budget }
    requires short { length bytes.now ≤ most_bytes }
    ensures found { IfOk result (λ a. IsFoundOf
        (SaysAccepted m.now) bytes.now m.now budget a.text.items a.status) }
    ensures whole { IfOk result (λ a. IsAnswer a.status) }
{
    match check(alloc, m, budget) {
        Ok(_) => fixed(alloc, Status::Done, b"accepted\n"),
        Err(fault) => answer_refusal(alloc, bytes, &m.families, budget, fault),
    }
}

/// The answer to an input of the command `check` within a budget of pairs.
pub(crate) fn answer_check(alloc: Global, bytes: &[u8], budget: u32) -> Result<Answer, AllocError>
    requires budget { 1 ≤ budget }
    requires short { length bytes.now ≤ most_bytes }
    ensures text { IfOk result (λ a. Writes (check budget) bytes.now a.text.items a.status) }
    ensures whole { IfOk result (λ a. IsAnswer a.status) }
{
    match find_resolved(alloc, bytes) {
        Ok(m) => answer_module(alloc, bytes, &m, budget),
        Err(fault) => answer_fault(alloc, bytes, fault),
    }
}
