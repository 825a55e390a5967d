use std::alloc::{AllocError, AllocFailed};
use thiserror::Error;

/// What a token is; which name, reserved word or sign it is, its text tells.
#[derive(Clone, Copy, Debug, PartialEq, Eq)]
pub enum TokenKind {
    /// A name that begins with no `A` to `Z`.
    Lower,
    /// A name that begins with `A` to `Z`.
    Upper,
    /// A number, by its value.
    Number(i64),
    /// A character in quotes, by what it stands for.
    Character(char),
    /// A reserved word.
    Reserved,
    /// A sign.
    Sign,
    /// The end of the text.
    Finish,
}

/// A token, at which byte it begins, how many bytes it has, and whether it begins a line.
#[derive(Clone, Copy, Debug, PartialEq, Eq)]
pub struct Token {
    pub kind: TokenKind,
    pub at: u32,
    pub len: u32,
    pub first_column: bool,
}

/// Why bytes have no tokens; the number is the byte at which the fault is.
#[derive(Clone, Copy, Debug, PartialEq, Eq, Error)]
pub enum LexFault {
    /// The bytes are no text: no character begins here.
    #[error("no UTF-8 at {0}")]
    NotUtf8(u32),
    /// No token begins here.
    #[error("bad character at {0}")]
    BadChar(u32),
    /// The number that begins here is too great.
    #[error("number too wide at {0}")]
    WideNumber(u32),
    /// The name that begins here is too long.
    #[error("name too long at {0}")]
    LongName(u32),
    /// There was no memory for the tokens.
    #[error("out of memory")]
    Memory,
}

impl From<AllocError> for LexFault {
    ghost use Rattle.std.specs.Prelude.{◌≡◌};
    ghost use Rattle.fst_lexer.specs.declared.token.LexFault.TheVariants.{Memory};

    ghost from_gives = { λ _ e. e ≡ Memory };

    fn from(_e: AllocError) -> LexFault {
        LexFault::Memory
    }
}

impl<T: Drop> From<AllocFailed<T>> for LexFault {
    ghost use Rattle.std.specs.Prelude.{◌≡◌};
    ghost use Rattle.fst_lexer.specs.declared.token.LexFault.TheVariants.{Memory};

    ghost from_gives = { λ _ e. e ≡ Memory };

    fn from(_e: AllocFailed<T>) -> LexFault {
        LexFault::Memory
    }
}
