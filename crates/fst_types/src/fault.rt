ghost use Rattle.std.specs.Prelude.{◌≡◌};

use std::alloc::AllocError;

/// Why a type has no unfolding.
#[derive(Drop)]
pub enum UnfoldFault {
    /// The unfolding has over 4,096 nodes.
    TooLarge,
    /// There was no memory.
    Memory,
}

impl From<AllocError> for UnfoldFault {
    ghost use Rattle.fst_types.specs.declared.fault.UnfoldFault.TheVariants.{Memory};

    ghost from_gives = { λ _ f. f ≡ Memory };

    fn from(_error: AllocError) -> UnfoldFault {
        UnfoldFault::Memory
    }
}
