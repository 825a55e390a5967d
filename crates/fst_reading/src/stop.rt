ghost use Rattle.std.specs.Prelude.{◌≡◌};
ghost use Rattle.fst_reading.specs.Gives.{fault_view};

use crate::fault::SyntaxFault;
use crate::lexeme::Lexeme;
use crate::reading::place;
use std::alloc::{AllocError, AllocFailed};

/// Why reading stopped, and the tokens that were left there.
#[derive(Debug, Drop)]
pub enum Stop<'a> {
    Memory,
    Syntax(&'a [Lexeme<'a>]),
    TooDeep(&'a [Lexeme<'a>]),
}

impl<'a> From<AllocError> for Stop<'a> {
    ghost use Rattle.fst_reading.specs.declared.stop.Stop.TheVariants.{Memory};

    ghost from_gives = { λ _ e. e ≡ Memory };

    fn from(_e: AllocError) -> Stop<'a> {
        Stop::Memory
    }
}

impl<'a, T: Drop> From<AllocFailed<T>> for Stop<'a> {
    ghost use Rattle.fst_reading.specs.declared.stop.Stop.TheVariants.{Memory};

    ghost from_gives = { λ _ e. e ≡ Memory };

    fn from(_e: AllocFailed<T>) -> Stop<'a> {
        Stop::Memory
    }
}

/// The fault of a stop, where the text ends at this byte.
pub fn fault_of(stop: Stop<'_>, end: u32) -> SyntaxFault
    ensures { result ≡ fault_view end stop.entry }
{
    match stop {
        Stop::Memory => SyntaxFault::Memory,
        Stop::Syntax(rest) => SyntaxFault::Syntax(place(rest, end)),
        Stop::TooDeep(rest) => SyntaxFault::TooDeep(place(rest, end)),
    }
}
