ghost use Rattle.std.specs.Prelude.{◌≡◌};

use fst_kinds::KindFault;
use std::alloc::AllocError;

/// Why the written types of a module aren't well formed.
#[derive(Drop)]
pub enum WrittenFault {
    /// The type that begins at this byte has this fault.
    Kinds(u32, KindFault),
    /// There was no memory.
    Memory,
}

impl From<AllocError> for WrittenFault {
    ghost use Rattle.fst_written.specs.declared.fault.WrittenFault.TheVariants.{Memory};

    ghost from_gives = { λ _ f. f ≡ Memory };

    fn from(_error: AllocError) -> WrittenFault {
        WrittenFault::Memory
    }
}
