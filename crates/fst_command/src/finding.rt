ghost use Rattle.std.specs.Prelude.{◌≡◌, ◌≤◌, IfErr, IfOk, OnOk, length};
ghost use Rattle.fst_base.specs.Limits.{most_bytes};
ghost use Rattle.fst_types.specs.Order.{IsSorted};
ghost use Rattle.fst_types.specs.Scoped.{IsScoped};
ghost use Rattle.fst_terms.specs.ModuleView.{declarations};
ghost use Rattle.fst_type_syntax.specs.Views.{question_tree};
ghost use Rattle.fst_module_grammar.specs.Derives.{AnswersModule};
ghost use Rattle.fst_command.specs.Finding.{AreAsked, Asks, IsFaultless, IsNoModule, IsNoQuestion, IsRead, KindFinding, QuestionFinding};
ghost use Rattle.fst_command.specs.Views.{IfFound, kind_fault};

use crate::refusals::kind_phrase;
use fst_kinds::{KindFault, kind_of, subkind};
use fst_lexer::{LexFault, lex};
use fst_names::{NameFault, Question, resolve_question};
use fst_print::Phrase;
use fst_syntax::read_module;
use fst_terms::SourceModule;
use fst_type_syntax::{SourceQuestion, SyntaxFault, read_question};
use fst_types::{Kind, Prekind, Ty, Use};
use std::alloc::{AllocError, Global};

/// Why an input isn't what its command is for, and at which byte.
#[derive(Drop)]
pub(crate) enum Fault {
    /// The input is refused there, for this.
    Refused(u32, Phrase),
    /// The token there is nested too deep.
    TooDeep(u32),
    /// The type there is too large.
    TooLarge(u32),
    /// There was no memory.
    Memory,
}

impl From<AllocError> for Fault {
    ghost use Rattle.fst_command.specs.declared.finding.Fault.TheVariants.{Memory};

    ghost from_gives = { λ _ f. f ≡ Memory };

    fn from(_error: AllocError) -> Fault {
        Fault::Memory
    }
}

impl From<LexFault> for Fault {
    ghost use Rattle.fst_command.specs.Views.{lexical_fault};

    ghost from_gives = { λ e f. f ≡ lexical_fault e };

    fn from(fault: LexFault) -> Fault {
        match fault {
            LexFault::NotUtf8(at) => Fault::Refused(at, Phrase::NotUtf8),
            LexFault::BadChar(at) => Fault::Refused(at, Phrase::BadChar),
            LexFault::WideNumber(at) => Fault::Refused(at, Phrase::WideNumber),
            LexFault::LongName(at) => Fault::Refused(at, Phrase::LongName),
            LexFault::Memory => Fault::Memory,
        }
    }
}

impl From<SyntaxFault> for Fault {
    ghost use Rattle.fst_command.specs.Views.{syntax_fault};

    ghost from_gives = { λ e f. f ≡ syntax_fault e };

    fn from(fault: SyntaxFault) -> Fault {
        match fault {
            SyntaxFault::Syntax(at) => Fault::Refused(at, Phrase::Syntax),
            SyntaxFault::TooDeep(at) => Fault::TooDeep(at),
            SyntaxFault::Memory => Fault::Memory,
        }
    }
}

impl From<NameFault> for Fault {
    ghost use Rattle.fst_command.specs.Views.{name_fault};

    ghost from_gives = { λ e f. f ≡ name_fault e };

    fn from(fault: NameFault) -> Fault {
        match fault {
            NameFault::Unbound(at, name) => Fault::Refused(at, Phrase::Unbound(name)),
            NameFault::Twice(at, name) => Fault::Refused(at, Phrase::Twice(name)),
            NameFault::Arity(at, got, wanted) => Fault::Refused(at, Phrase::Arity(got, wanted)),
            NameFault::AliasLoop(at, name) => Fault::Refused(at, Phrase::AliasLoop(name)),
            NameFault::TooLarge(at) => Fault::TooLarge(at),
            NameFault::NoMain => Fault::Refused(0, Phrase::NoMain),
            NameFault::Memory => Fault::Memory,
        }
    }
}

// What a fault of kinds says of a type that begins at this byte.
fn kind_fault(at: u32, fault: KindFault) -> Fault
    ensures { result ≡ kind_fault at fault }
{
    match kind_phrase(fault) {
        Some(phrase) => Fault::Refused(at, phrase),
        None => Fault::Memory,
    }
}

// Looks at a type over variables of these kinds, which begins at this byte: whether it is a session type.
fn session(alloc: Global, t: &Ty, kinds: &[Kind], at: u32) -> Result<(), Fault>
    requires scoped { IsScoped 0 t.now }
    requires sorted { IsSorted t.now }
    ensures faultless { OnOk result (IsFaultless kinds.now t.now) }
    ensures fault { IfErr result (λ f. IfFound f (KindFinding kinds.now t.now at)) }
{
    let kind = match kind_of(alloc, t, kinds) {
        Ok(kind) => kind,
        Err(fault) => return Err(kind_fault(at, fault)),
    };
    let wanted = Kind {
        prekind: Prekind::Session,
        uses: Use::Once,
    };
    if subkind(kind, wanted) {
        Ok(())
    } else {
        Err(kind_fault(at, KindFault::WrongKind(kind, wanted)))
    }
}

// The two session types that a question which was read asks about, or the first of its faults.
fn of_question(alloc: Global, question: &SourceQuestion) -> Result<Question, Fault>
    ensures asks { IfOk result (Asks (question_tree question.now)) }
    ensures fault { IfErr result (λ f. IfFound f (QuestionFinding (question_tree question.now))) }
{
    let asked = resolve_question(alloc, question)?;
    session(alloc, &asked.left, &asked.kinds, asked.left_at)?;
    session(alloc, &asked.right, &asked.kinds, asked.right_at)?;
    Ok(asked)
}

/// What the bytes ask: a question of two session types, or why they are none.
pub(crate) fn find(alloc: Global, bytes: &[u8]) -> Result<Question, Fault>
    requires { length bytes.now ≤ most_bytes }
    ensures question { IfOk result (AreAsked bytes.now) }
    ensures fault { IfErr result (λ f. IfFound f (IsNoQuestion bytes.now)) }
{
    let tokens = lex(alloc, bytes)?;
    // SAFETY: bytes that have tokens are UTF-8.
    let text = unsafe { str::from_utf8_unchecked(bytes) };
    let question = read_question(alloc, &tokens, text)?;
    of_question(alloc, &question)
}

/// The module that the bytes are, or why they are none.
pub(crate) fn find_module(alloc: Global, bytes: &[u8]) -> Result<SourceModule, Fault>
    requires { length bytes.now ≤ most_bytes }
    ensures module { IfOk result (λ m. IsRead AnswersModule bytes.now (declarations m)) }
    ensures fault { IfErr result (λ f. IfFound f (IsNoModule bytes.now)) }
{
    let tokens = lex(alloc, bytes)?;
    // SAFETY: bytes that have tokens are UTF-8.
    let text = unsafe { str::from_utf8_unchecked(bytes) };
    Ok(read_module(alloc, &tokens, text)?)
}
