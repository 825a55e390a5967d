ghost use Rattle.std.specs.Prelude.{◌≡◌};

use fst_kinds::KindFault;
use fst_shared::SharedPair;
use fst_types::{Kind, Label, Move, Name, Side, Ty};
use fst_words::Grammar;
use std::alloc::{AllocError, AllocFailed};

/// How the type found differs from the one wanted.
#[derive(Drop)]
pub enum Difference {
    /// In the form of a part.
    Shape,
    /// In a session type: the least trace that one side alone performs. Left is the type found.
    Word(Vec<Label>, Side),
}

/// Why a module is refused. The first number is the byte of the input at which that is seen.
#[derive(Drop)]
pub enum CheckFault {
    /// A term's type is another one than is wanted.
    Mismatch(u32, Ty, Ty, Difference),
    /// A linear variable is never used.
    Unused(u32, Name),
    /// A linear variable is used once more.
    UsedTwice(u32, Name),
    /// A linear variable from outside is used in an unrestricted function.
    CapturedLinear(u32, Name),
    /// What is applied has this type, which is no function's.
    NotFunction(u32, Ty),
    /// A global has so many type arguments, and not as many as its signature has variables.
    TypeArguments(u32, u64, u64),
    /// A type argument's kind isn't below that of its variable.
    KindOfArgument(u32, Kind, Kind),
    /// A type has no such move.
    NoSuchMove(u32, Ty, Move),
    /// A linear variable is used in one branch and not in another.
    Branches(u32, Name),
    /// A type whose values can't be printed.
    NotPrintable(u32, Ty),
    /// Whether a term's type is the one wanted isn't known within the budget: the grammar of the question, and as many
    /// pairs as the budget.
    Undecided(u32, Ty, Ty, Grammar, Vec<SharedPair>),
    /// There was no memory.
    Memory,
    /// The arms aren't those of the type: its constructors or labels, each once.
    Arms(u32, Ty),
    /// A value that is dropped is linear.
    Dropped(u32, Ty),
    /// What is split has this type, which is no pair's.
    NotPair(u32, Ty),
    /// A type has no kind, or not the one that is wanted.
    Kinds(u32, KindFault),
    /// A type or a question is over its size.
    TooLarge(u32),
}

impl From<AllocError> for CheckFault {
    ghost use Rattle.fst_premises.specs.declared.fault.CheckFault.TheVariants.{Memory};

    ghost from_gives = { λ _ f. f ≡ Memory };

    fn from(_error: AllocError) -> CheckFault {
        CheckFault::Memory
    }
}

impl<T: Drop> From<AllocFailed<T>> for CheckFault {
    ghost use Rattle.fst_premises.specs.declared.fault.CheckFault.TheVariants.{Memory};

    ghost from_gives = { λ _ f. f ≡ Memory };

    fn from(_error: AllocFailed<T>) -> CheckFault {
        CheckFault::Memory
    }
}
