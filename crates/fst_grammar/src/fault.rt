ghost use Rattle.std.specs.Prelude.{◌≡◌};

use std::alloc::AllocError;

/// Why two types have no translation.
#[derive(Drop)]
pub enum TranslateFault {
    /// A type has over 4,096 nodes, or the rules together over 1,048,576 letters on their right sides.
    TooLarge,
    /// There was no memory.
    Memory,
}

impl From<AllocError> for TranslateFault {
    ghost use Rattle.fst_grammar.specs.declared.fault.TranslateFault.TheVariants.{Memory};

    ghost from_gives = { λ _ f. f ≡ Memory };

    fn from(_error: AllocError) -> TranslateFault {
        TranslateFault::Memory
    }
}
