//! What `audit` makes of an input.

ghost use Rattle.std.specs.Prelude.{◌≡◌, ◌≢◌, ◌≤◌, ◌+◌, ◌++◌, ◌∷◌, All, IfErr, IfNone, IfOk, IfSome, length};
ghost use Rattle.std.specs.String.{string_bytes};
ghost use Rattle.std.specs.Str.{IsUtf8};
ghost use Rattle.fst_base.specs.Limits.{most_bytes};
ghost use Rattle.fst_kinds.specs.WellFormed.{IsSession};
ghost use Rattle.fst_grammar.specs.Translation.{IsTooLarge};
ghost use Rattle.fst_cert.specs.declared.fault.AuditFault.TheVariants.{TooLarge};
ghost use Rattle.fst_cert.specs.Certificates.{IsCertOf, IsFirstBad};
ghost use Rattle.fst_cert.specs.Texts.{line_feed, steps_of};
ghost use Rattle.fst_options.specs.Words.{audit};
ghost use Rattle.fst_command.specs.Audited.{IsAuditOf, IsNoAudit, first_line, other_lines};
ghost use Rattle.fst_command.specs.Finding.{AreAsked};
ghost use Rattle.fst_command.specs.Output.{Writes};
ghost use Rattle.fst_command.specs.Texts.{bad_line_text};
ghost use Rattle.fst_command.specs.Top.{IsAnswer};
ghost use Rattle.fst_command.specs.Views.{IfFound};

use crate::answer::{Answer, answer_fault, fixed};
use crate::finding::{Fault, find};
use crate::status::Status;
use crate::texts::too_large_text;
use fst_basis::Proof;
use fst_cert::{AuditFault, CertFault, audit, read_cert};
use fst_names::Question;
use fst_print::{Phrase, Refusal, refusal_text};
use memchr::memchr;
use std::alloc::{AllocError, Global};

// What stands in front of the first line feed of a text, and behind it.
fn parts(text: &[u8]) -> Option<(&[u8], &[u8])>
    ensures some { IfSome result (λ p. (text.now ≡ p.0.now ++ line_feed ∷ p.1.now) ×
        All (λ b. b ≢ line_feed) p.0.now) }
    ensures none { IfNone result (All (λ b. b ≢ line_feed) text.now) }
{
    let at = memchr(b'\n', text)?;
    Some((&text[..at], &text[at + 1..]))
}

// The first line of a text, and the lines behind it.
fn cut(text: &[u8]) -> (&[u8], &[u8])
    ensures first { result.0.now ≡ first_line text.now }
    ensures others { result.1.now ≡ other_lines text.now }
    ensures short { length result.0.now ≤ length text.now }
    ensures shorter { length result.1.now ≤ length text.now }
{
    match parts(text) {
        Some((first, others)) => (first, others),
        None => (text, &[]),
    }
}

// The question that a text's first line is, or why the text is no input of `audit`.
fn find_first(alloc: Global, text: &[u8], first: &[u8]) -> Result<Question, Fault>
    requires short { length text.now ≤ most_bytes }
    requires shorter { length first.now ≤ length text.now }
    requires first { first.now ≡ first_line text.now }
    ensures is_text { IfOk result (λ _. IsUtf8 text.now) }
    ensures question { IfOk result (AreAsked (first_line text.now)) }
    ensures fault { IfErr result (λ f. IfFound f (IsNoAudit text.now)) }
{
    match str::from_utf8(text) {
        Ok(_) => find(alloc, first),
        Err(fault) => Err(Fault::Refused(fault.valid_up_to() as u32, Phrase::NotUtf8)),
    }
}

// The line that says that line k of a certificate is none's.
fn bad_line_text(alloc: Global, k: u64) -> Result<String, AllocError>
    requires { k ≤ most_bytes + 1 }
    ensures { IfOk result (λ text. string_bytes text ≡ bad_line_text k) }
{
    let refusal = Refusal {
        line: k as u32 + 1,
        column: 1,
        phrase: Phrase::Certificate,
    };
    let mut text = refusal_text(alloc, &refusal)?;
    text.push_str("\n")?;
    Ok(text)
}

// The answer where the audit of a question's types has a fault.
fn answer_untried(
    alloc: Global,
    bytes: &[u8],
    question: &Question,
    fault: AuditFault,
) -> Result<Answer, AllocError>
    requires short { length bytes.now ≤ most_bytes }
    requires large { fault ≡ TooLarge → IsTooLarge question.now.left question.now.right }
    ensures says { IfOk result (λ a. IsAuditOf bytes.now question.now a.text.items a.status) }
    ensures whole { IfOk result (λ a. IsAnswer a.status) }
{
    match fault {
        AuditFault::TooLarge => Ok(Answer {
            status: Status::Limit,
            text: too_large_text(alloc, bytes, question.left_at)?.into_bytes(),
        }),
        AuditFault::Memory => Err(AllocError),
    }
}

// The answer to a question with this certificate behind its line.
fn answer_proof(
    alloc: Global,
    bytes: &[u8],
    question: &Question,
    proof: &Proof,
) -> Result<Answer, AllocError>
    requires short { length bytes.now ≤ most_bytes }
    requires left { IsSession question.now.kinds.items question.now.left }
    requires right { IsSession question.now.kinds.items question.now.right }
    requires cert { IsCertOf (other_lines bytes.now) proof.now.basis.items
        (steps_of proof.now.chains.items) }
    ensures says { IfOk result (λ a. IsAuditOf bytes.now question.now a.text.items a.status) }
    ensures whole { IfOk result (λ a. IsAnswer a.status) }
{
    match audit(alloc, &question.left, &question.right, proof) {
        Ok(valid) => {
            if valid {
                fixed(alloc, Status::Done, b"valid\n")
            } else {
                fixed(alloc, Status::Refused, b"refused 1:1 no basis\n")
            }
        }
        Err(fault) => answer_untried(alloc, bytes, question, fault),
    }
}

// The answer to a question where line k behind its own is the first that no certificate has there. That its types are too large comes
// first, so an audit is tried, of no pairs.
fn answer_bad_line(
    alloc: Global,
    bytes: &[u8],
    question: &Question,
    k: u64,
) -> Result<Answer, AllocError>
    requires short { length bytes.now ≤ most_bytes }
    requires left { IsSession question.now.kinds.items question.now.left }
    requires right { IsSession question.now.kinds.items question.now.right }
    requires bad { IsFirstBad (other_lines bytes.now) k }
    requires few { k ≤ most_bytes + 1 }
    ensures says { IfOk result (λ a. IsAuditOf bytes.now question.now a.text.items a.status) }
    ensures whole { IfOk result (λ a. IsAnswer a.status) }
{
    let none = Proof {
        basis: Vec::new(alloc),
        chains: Vec::new(alloc),
    };
    match audit(alloc, &question.left, &question.right, &none) {
        Ok(_) => Ok(Answer {
            status: Status::Refused,
            text: bad_line_text(alloc, k)?.into_bytes(),
        }),
        Err(untried) => answer_untried(alloc, bytes, question, untried),
    }
}

// The answer to a question with these bytes behind its line.
fn answer_lines(
    alloc: Global,
    bytes: &[u8],
    question: &Question,
    others: &[u8],
) -> Result<Answer, AllocError>
    requires short { length bytes.now ≤ most_bytes }
    requires shorter { length others.now ≤ length bytes.now }
    requires others { others.now ≡ other_lines bytes.now }
    requires left { IsSession question.now.kinds.items question.now.left }
    requires right { IsSession question.now.kinds.items question.now.right }
    ensures says { IfOk result (λ a. IsAuditOf bytes.now question.now a.text.items a.status) }
    ensures whole { IfOk result (λ a. IsAnswer a.status) }
{
    match read_cert(alloc, others) {
        Ok(proof) => answer_proof(alloc, bytes, question, &proof),
        Err(CertFault::BadLine(k)) => answer_bad_line(alloc, bytes, question, k),
        Err(CertFault::Memory) => Err(AllocError),
    }
}

/// The answer to an input of the command `audit`.
pub(crate) fn answer_audit(alloc: Global, bytes: &[u8]) -> Result<Answer, AllocError>
    requires { length bytes.now ≤ most_bytes }
    ensures text { IfOk result (λ a. Writes audit bytes.now a.text.items a.status) }
    ensures whole { IfOk result (λ a. IsAnswer a.status) }
{
    let (first, others) = cut(bytes);
    match find_first(alloc, bytes, first) {
        Ok(question) => answer_lines(alloc, bytes, &question, others),
        Err(fault) => answer_fault(alloc, bytes, fault),
    }
}
