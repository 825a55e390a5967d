ghost use Rattle.std.specs.Prelude.{◌≡◌};

use fst_grammar::TranslateFault;
use std::alloc::AllocError;

/// Why a text is no certificate.
#[derive(Drop)]
pub enum CertFault {
    /// The first line, counted from 1, that no certificate has there: none agrees with the text in its lines up to this one.
    BadLine(u64),
    /// There was no memory.
    Memory,
}

impl From<AllocError> for CertFault {
    ghost use Rattle.fst_cert.specs.declared.fault.CertFault.TheVariants.{Memory};

    ghost from_gives = { λ _ f. f ≡ Memory };

    fn from(_error: AllocError) -> CertFault {
        CertFault::Memory
    }
}

/// Why a proof isn't tried.
#[derive(Drop)]
pub enum AuditFault {
    /// A type has over 4,096 nodes, or the rules of the grammar together over 1,048,576 letters on their right sides.
    TooLarge,
    /// There was no memory.
    Memory,
}

impl From<AllocError> for AuditFault {
    ghost use Rattle.fst_cert.specs.declared.fault.AuditFault.TheVariants.{Memory};

    ghost from_gives = { λ _ f. f ≡ Memory };

    fn from(_error: AllocError) -> AuditFault {
        AuditFault::Memory
    }
}

impl From<TranslateFault> for AuditFault {
    ghost use Rattle.fst_cert.specs.Audits.{fault_of};

    ghost from_gives = { λ e f. f ≡ fault_of e };

    fn from(fault: TranslateFault) -> AuditFault {
        match fault {
            TranslateFault::TooLarge => AuditFault::TooLarge,
            TranslateFault::Memory => AuditFault::Memory,
        }
    }
}
