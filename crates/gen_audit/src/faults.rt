//! Why there is no audit.
use std::alloc::AllocError;
use thiserror::Error;

/// Why there is no audit.
#[derive(Clone, Copy, Debug, PartialEq, Eq, Error)]
pub enum AuditFault {
    /// Memory was refused.
    #[error("memory")]
    Memory,
    /// A worker's thread could not be started.
    #[error("a thread could not be started")]
    Thread,
}

impl From<AllocError> for AuditFault {
    ghost use Rattle.std.specs.Prelude.{◌≡◌};
    ghost use Rattle.gen_audit.specs.declared.faults.AuditFault.TheVariants.{Memory};

    ghost from_gives = { λ _ fault. fault ≡ Memory };

    fn from(_refused: AllocError) -> AuditFault {
        AuditFault::Memory
    }
}
