ghost use Rattle.std.specs.Prelude.{◌≡◌, ◌≤◌, ◌<◌, ◌^◌, IfOk, length};
ghost use Rattle.fst_base.specs.Limits.{most_bytes};
ghost use Rattle.fst_kinds.specs.WellFormed.{IsSession};
ghost use Rattle.fst_options.specs.Words.{equiv, show};
ghost use Rattle.fst_equiv.specs.Verdicts.{Certifies};
ghost use Rattle.fst_command.specs.Output.{IsAnswerText, IsAnswerTo, IsCertified, Writes, finding_status, finding_text};
ghost use Rattle.fst_command.specs.Top.{IsAnswer};
ghost use Rattle.fst_command.specs.Views.{Found};

use crate::finding::{Fault, find, find_module};
use crate::status::Status;
use crate::texts::{no_text, refused_text, too_deep_text, too_large_text, undecided_text};
use fst_cert::{cert_text, proof_of};
use fst_equiv::{Certificate, EquivFault, Verdict, ask};
use fst_names::Question;
use fst_options::EquivOptions;
use fst_print::{module_text, question_text};
use std::alloc::{AllocError, Global};

/// What is written, and the status it is written with.
#[derive(Drop)]
pub(crate) struct Answer {
    pub(crate) status: Status,
    pub(crate) text: Vec<u8>,
}

/// A question of session types with the proof that a certificate of its Yes gives.
fn answer_proved(
    alloc: Global,
    question: &Question,
    budget: u32,
    certificate: Certificate,
) -> Result<Answer, AllocError>
    requires left { IsSession question.now.kinds.items question.now.left }
    requires right { IsSession question.now.kinds.items question.now.right }
    requires certifies { Certifies question.now.left question.now.right budget certificate }
    ensures certified { IfOk result (λ a. IsCertified question.now a.text.items) }
    ensures done { IfOk result (λ a. a.status ≡ Status.Done) }
{
    let proof = proof_of(alloc, certificate)?;
    let mut text = question_text(alloc, &question.kinds, &question.left, &question.right)?;
    text.push_str("\n")?;
    text.push_str(&cert_text(alloc, &proof)?)?;
    Ok(Answer {
        status: Status::Done,
        text: text.into_bytes(),
    })
}

/// The answer to a question of session types.
fn answer_session(
    alloc: Global,
    bytes: &[u8],
    question: &Question,
    options: EquivOptions,
) -> Result<Answer, AllocError>
    requires budget { 1 ≤ options.budget }
    requires short { length bytes.now ≤ most_bytes }
    requires left { IsSession question.now.kinds.items question.now.left }
    requires right { IsSession question.now.kinds.items question.now.right }
    ensures says { IfOk result (λ a. IsAnswerTo options.proof bytes.now question.now options.budget
        a.text.items a.status) }
    ensures whole { IfOk result (λ a. IsAnswer a.status) }
{
    match ask(alloc, &question.left, &question.right, options.budget) {
        Ok(Verdict::Yes(certificate)) => {
            if options.proof {
                answer_proved(alloc, question, options.budget, certificate)
            } else {
                fixed(alloc, Status::Done, b"yes\n")
            }
        }
        Ok(Verdict::No(word, side)) => Ok(Answer {
            status: Status::Done,
            text: no_text(alloc, &word, side)?.into_bytes(),
        }),
        Ok(Verdict::Undecided(_, _)) => Ok(Answer {
            status: Status::Undecided,
            text: undecided_text(alloc, options.budget)?.into_bytes(),
        }),
        Err(EquivFault::TooLarge) => Ok(Answer {
            status: Status::Limit,
            text: too_large_text(alloc, bytes, question.left_at)?.into_bytes(),
        }),
        Err(EquivFault::Memory) => Err(AllocError),
    }
}

/// The answer to an input that isn't what its command is for.
pub(crate) fn answer_fault(alloc: Global, bytes: &[u8], fault: Fault) -> Result<Answer, AllocError>
    requires { length bytes.now ≤ most_bytes }
    ensures says { IfOk result (λ a. Found fault (λ f.
        (a.text.items ≡ finding_text bytes.now f) × (a.status ≡ finding_status f))) }
    ensures whole { IfOk result (λ a. IsAnswer a.status) }
{
    match fault {
        Fault::Refused(at, phrase) => Ok(Answer {
            status: Status::Refused,
            text: refused_text(alloc, bytes, at, phrase)?.into_bytes(),
        }),
        Fault::TooDeep(at) => Ok(Answer {
            status: Status::Limit,
            text: too_deep_text(alloc, bytes, at)?.into_bytes(),
        }),
        Fault::TooLarge(at) => Ok(Answer {
            status: Status::Limit,
            text: too_large_text(alloc, bytes, at)?.into_bytes(),
        }),
        Fault::Memory => Err(AllocError),
    }
}

/// The answer to an input of the command `equiv`.
pub(crate) fn answer_equiv(
    alloc: Global,
    bytes: &[u8],
    options: EquivOptions,
) -> Result<Answer, AllocError>
    requires budget { 1 ≤ options.budget }
    requires short { length bytes.now ≤ most_bytes }
    ensures text { IfOk result (λ a. Writes (equiv options.budget options.proof) bytes.now
        a.text.items a.status) }
    ensures whole { IfOk result (λ a. IsAnswer a.status) }
{
    match find(alloc, bytes) {
        Ok(question) => answer_session(alloc, bytes, &question, options),
        Err(fault) => answer_fault(alloc, bytes, fault),
    }
}

/// The answer to an input of the command `show`.
pub(crate) fn answer_show(alloc: Global, bytes: &[u8]) -> Result<Answer, AllocError>
    requires { length bytes.now ≤ most_bytes }
    ensures text { IfOk result (λ a. Writes show bytes.now a.text.items a.status) }
    ensures whole { IfOk result (λ a. IsAnswer a.status) }
{
    match find_module(alloc, bytes) {
        Ok(module) => Ok(Answer {
            status: Status::Done,
            text: module_text(alloc, &module)?.into_bytes(),
        }),
        Err(fault) => answer_fault(alloc, bytes, fault),
    }
}

/// An answer with this text.
pub(crate) fn fixed(alloc: Global, status: Status, text: &[u8]) -> Result<Answer, AllocError>
    ensures status { IfOk result (λ a. a.status ≡ status) }
    ensures text { IfOk result (λ a. a.text.items ≡ text.now) }
{
    Ok(Answer {
        status,
        text: Vec::from_slice(alloc, text)?,
    })
}
