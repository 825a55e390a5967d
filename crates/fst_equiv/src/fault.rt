ghost use Rattle.std.specs.Prelude.{◌≡◌};
ghost use Rattle.fst_equiv.specs.Faults.{fault_of};

use fst_grammar::TranslateFault;
use std::alloc::AllocError;

/// Why a question of two types has no verdict.
#[derive(Drop)]
pub enum EquivFault {
    /// A type has over 4,096 nodes, or the rules of the grammar together over 1,048,576 letters on their right sides.
    TooLarge,
    /// There was no memory.
    Memory,
}

impl From<AllocError> for EquivFault {
    ghost use Rattle.fst_equiv.specs.declared.fault.EquivFault.TheVariants.{Memory};

    ghost from_gives = { λ _ f. f ≡ Memory };

    fn from(_error: AllocError) -> EquivFault {
        EquivFault::Memory
    }
}

impl From<TranslateFault> for EquivFault {
    ghost from_gives = { λ e f. f ≡ fault_of e };

    fn from(fault: TranslateFault) -> EquivFault {
        match fault {
            TranslateFault::TooLarge => EquivFault::TooLarge,
            TranslateFault::Memory => EquivFault::Memory,
        }
    }
}
