//! Kinds, as text.

use crate::building::sound;
use fst_kinds::{KindFault, kind_of};
use fst_types::{Kind, Prekind, Ty, Use};
use std::alloc::{AllocError, Global};

/// A kind as it is written.
pub fn kind_text(k: Kind) -> &'static str {
    match (k.prekind, k.uses) {
        (Prekind::Session, Use::Many) => "*S",
        (Prekind::Session, Use::Once) => "1S",
        (Prekind::Top, Use::Many) => "*T",
        (Prekind::Top, Use::Once) => "1T",
    }
}

fn answer_text(alloc: Global, answer: &Result<Kind, KindFault>) -> Result<String, AllocError> {
    match answer {
        Ok(k) => format!(in alloc; "{}", kind_text(*k)),
        Err(KindFault::NotContractive) => format!(in alloc; "not contractive"),
        Err(KindFault::WrongKind(k, wanted)) => {
            format!(in alloc; "{} for {}", kind_text(*k), kind_text(*wanted))
        }
        Err(KindFault::UnboundType(k)) => format!(in alloc; "unbound {k}"),
        Err(KindFault::DoubleLabel(label)) => {
            format!(in alloc;
                "double {}",
                str::from_utf8(label.as_slice()).unwrap_or("?")
            )
        }
        Err(KindFault::Memory) => format!(in alloc; "memory"),
    }
}

/// What `kind_of` answers for a type, as text.
pub fn kind(alloc: Global, t: &Ty, vars: &[Kind]) -> Result<String, AllocError> {
    if sound(t, 0) {
        answer_text(alloc, &kind_of(alloc, t, vars))
    } else {
        format!(in alloc; "not sound")
    }
}

/// The four kinds: `*S`, `1S`, `*T` and `1T`.
pub fn four_kinds() -> [Kind; 4] {
    let kind = |prekind: Prekind, uses: Use| Kind { prekind, uses };
    [
        kind(Prekind::Session, Use::Many),
        kind(Prekind::Session, Use::Once),
        kind(Prekind::Top, Use::Many),
        kind(Prekind::Top, Use::Once),
    ]
}
