ghost use Rattle.std.specs.Prelude.{◌≡◌, ◌≢◌, ◌≤◌, IfOk, length};
ghost use Rattle.std.specs.String.{string_bytes};
ghost use Rattle.fst_base.specs.Limits.{most_bytes};
ghost use Rattle.fst_type_print.specs.Texts.{difference_text, family_names};
ghost use Rattle.fst_typing.specs.Texts.{HaveTexts};
ghost use Rattle.fst_premises.specs.declared.fault.CheckFault.TheVariants.{Memory};
ghost use Rattle.fst_command.specs.declared.refusals.Cause.TheVariants.{Refused};
ghost use Rattle.fst_command.specs.CheckTexts.{cause, cause_status, cause_text, kind_cause, kind_phrase, undecided, word_behind};
ghost use Rattle.fst_command.specs.Top.{IsAnswer};
ghost use Rattle.fst_command.specs.Views.{cause_of};

use crate::answer::Answer;
use crate::status::Status;
use crate::texts::{push_place, refused_text, too_large_text};
use fst_base::push_number;
use fst_kinds::KindFault;
use fst_print::{Phrase, move_text, type_text, word_text};
use fst_types::{Family, Side};
use fst_typing::{CheckFault, Difference};
use std::alloc::{AllocError, Global};

/// Why a module is refused, with texts in place of types.
#[derive(Drop)]
pub(crate) enum Cause {
    /// It is refused at this byte, for this.
    Refused(u32, Phrase),
    /// Whether the type found at this byte is the one wanted isn't known: the two.
    Undecided(u32, String, String),
    /// The type at this byte, or a question there, is over its size.
    TooLarge(u32),
}

// The word that tells two types apart, if there is one.
fn word_behind(alloc: Global, difference: Difference) -> Result<Option<(String, Side)>, AllocError>
    ensures { IfOk result (λ o. difference_text o ≡ word_behind difference) }
{
    match difference {
        Difference::Shape => Ok(None),
        Difference::Word(word, side) => Ok(Some((word_text(alloc, &word)?, side))),
    }
}

// What a fault of kinds is called, unless it is want of memory.
pub(crate) fn kind_phrase(fault: KindFault) -> Option<Phrase>
    ensures { result ≡ kind_phrase fault }
{
    match fault {
        KindFault::NotContractive => Some(Phrase::NotContractive),
        KindFault::WrongKind(got, wanted) => Some(Phrase::WrongKind(got, wanted)),
        KindFault::UnboundType(k) => Some(Phrase::UnboundType(k as u64)),
        KindFault::DoubleLabel(label) => Some(Phrase::DoubleLabel(label)),
        KindFault::Memory => None,
    }
}

// The cause that a fault of kinds is, of a type that begins at this byte.
fn kind_cause(at: u32, fault: KindFault) -> Result<Cause, AllocError>
    ensures { IfOk result (λ c. cause_of c ≡ kind_cause at fault) }
{
    match kind_phrase(fault) {
        Some(phrase) => Ok(Cause::Refused(at, phrase)),
        None => Err(AllocError),
    }
}

fn refused(at: u32, phrase: Phrase) -> Result<Cause, AllocError>
    ensures { IfOk result (λ c. c ≡ Refused at phrase) }
{
    Ok(Cause::Refused(at, phrase))
}

// The cause that a fault is, in a module of these data types.
fn cause_of(alloc: Global, fault: CheckFault, families: &[Family]) -> Result<Cause, AllocError>
    requires { HaveTexts (length families.now) fault }
    ensures { IfOk result (λ c. cause_of c ≡ cause (family_names families.now) fault) }
{
    match fault {
        CheckFault::Mismatch(at, got, wanted, difference) => {
            let got = type_text(alloc, &got, families)?;
            let wanted = type_text(alloc, &wanted, families)?;
            refused(
                at,
                Phrase::Mismatch(got, wanted, word_behind(alloc, difference)?),
            )
        }
        CheckFault::Unused(at, name) => refused(at, Phrase::Unused(name)),
        CheckFault::UsedTwice(at, name) => refused(at, Phrase::UsedTwice(name)),
        CheckFault::CapturedLinear(at, name) => refused(at, Phrase::CapturedLinear(name)),
        CheckFault::NotFunction(at, got) => {
            refused(at, Phrase::NotFunction(type_text(alloc, &got, families)?))
        }
        CheckFault::TypeArguments(at, got, wanted) => {
            refused(at, Phrase::TypeArguments(got, wanted))
        }
        CheckFault::KindOfArgument(at, got, wanted) => {
            refused(at, Phrase::KindOfArgument(got, wanted))
        }
        CheckFault::NoSuchMove(at, got, asked) => {
            let asked = move_text(alloc, &asked, families)?;
            refused(
                at,
                Phrase::NoSuchMove(asked, type_text(alloc, &got, families)?),
            )
        }
        CheckFault::Branches(at, name) => refused(at, Phrase::Branches(name)),
        CheckFault::NotPrintable(at, got) => {
            refused(at, Phrase::NotPrintable(type_text(alloc, &got, families)?))
        }
        CheckFault::Undecided(at, got, wanted, _, _) => {
            let got = type_text(alloc, &got, families)?;
            Ok(Cause::Undecided(at, got, type_text(alloc, &wanted, families)?))
        }
        CheckFault::Memory => Err(AllocError),
        CheckFault::Arms(at, got) => refused(at, Phrase::Arms(type_text(alloc, &got, families)?)),
        CheckFault::Dropped(at, got) => {
            refused(at, Phrase::Dropped(type_text(alloc, &got, families)?))
        }
        CheckFault::NotPair(at, got) => {
            refused(at, Phrase::NotPair(type_text(alloc, &got, families)?))
        }
        CheckFault::Kinds(at, fault) => kind_cause(at, fault),
        CheckFault::TooLarge(at) => Ok(Cause::TooLarge(at)),
    }
}

// The line that says that it isn't known within a budget whether the type found at this byte is the one wanted.
fn undecided_text(
    alloc: Global,
    bytes: &[u8],
    at: u32,
    budget: u32,
    got: &str,
    wanted: &str,
) -> Result<String, AllocError>
    requires { length bytes.now ≤ most_bytes }
    ensures { IfOk result (λ text. string_bytes text ≡
        cause_text bytes.now budget (undecided at got.now wanted.now)) }
{
    let mut text = String::from_str(alloc, "undecided ")?;
    push_place(&mut text, bytes, at)?;
    text.push_str(" ")?;
    push_number(&mut text, u64::from(budget))?;
    text.push_str(" ")?;
    text.push_str(got)?;
    text.push_str(" ~ ")?;
    text.push_str(wanted)?;
    text.push_str("\n")?;
    Ok(text)
}

// The answer that says this cause, within a budget of pairs.
fn answer_cause(
    alloc: Global,
    bytes: &[u8],
    budget: u32,
    cause: Cause,
) -> Result<Answer, AllocError>
    requires { length bytes.now ≤ most_bytes }
    ensures whole { IfOk result (λ a. IsAnswer a.status) }
    ensures says { IfOk result (λ a. (a.text.items ≡ cause_text bytes.now budget (cause_of cause))
        × (a.status ≡ cause_status (cause_of cause))) }
{
    match cause {
        Cause::Refused(at, phrase) => Ok(Answer {
            status: Status::Refused,
            text: refused_text(alloc, bytes, at, phrase)?.into_bytes(),
        }),
        Cause::Undecided(at, got, wanted) => Ok(Answer {
            status: Status::Undecided,
            text: undecided_text(
                alloc,
                bytes,
                at,
                budget,
                got.as_str(),
                wanted.as_str(),
            )?.into_bytes(),
        }),
        Cause::TooLarge(at) => Ok(Answer {
            status: Status::Limit,
            text: too_large_text(alloc, bytes, at)?.into_bytes(),
        }),
    }
}

/// The answer to a module of these data types that is refused with this fault, within a budget of pairs.
pub(crate) fn answer_refusal(
    alloc: Global,
    bytes: &[u8],
    families: &[Family],
    budget: u32,
    fault: CheckFault,
) -> Result<Answer, AllocError>
    requires short { length bytes.now ≤ most_bytes }
    requires texts { HaveTexts (length families.now) fault }
    ensures whole { IfOk result (λ a. IsAnswer a.status) }
    ensures some { IfOk result (λ _. fault ≢ Memory) }
    ensures text { IfOk result (λ a.
        a.text.items ≡ cause_text bytes.now budget (cause (family_names families.now) fault)) }
    ensures status { IfOk result (λ a.
        a.status ≡ cause_status (cause (family_names families.now) fault)) }
{
    let cause = cause_of(alloc, fault, families)?;
    answer_cause(alloc, bytes, budget, cause)
}
