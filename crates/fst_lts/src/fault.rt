ghost use Rattle.std.specs.Prelude.{◌≡◌};

use std::alloc::AllocError;

/// Why the type after a label isn't given.
#[derive(Drop)]
pub enum StepFault {
    /// It has over 4,096 nodes.
    TooLarge,
    /// There was no memory.
    Memory,
}

impl From<AllocError> for StepFault {
    ghost use Rattle.fst_lts.specs.declared.fault.StepFault.TheVariants.{Memory};

    ghost from_gives = { λ _ f. f ≡ Memory };

    fn from(_error: AllocError) -> StepFault {
        StepFault::Memory
    }
}
