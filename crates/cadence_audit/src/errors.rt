//! Why a call of an audited queue did nothing, and why there is no history at its end.

use std::alloc::AllocError;
use thiserror::Error;

/// Why a call of an audited queue did nothing. Such a call is no event of the history, and the queue and the seat have
/// not changed.
#[derive(Clone, Copy, Debug, PartialEq, Eq, Error)]
pub enum AuditError {
    /// Memory ran out.
    #[error("out of memory")]
    OutOfMemory,
    /// The seat belongs to another queue: this queue has no seat of that number, or its number of events of that seat
    /// isn't the seat's number of receipts.
    #[error("seat of another queue")]
    Stranger,
}

impl From<AllocError> for AuditError {
    ghost use Rattle.std.specs.Prelude.{◌≡◌};
    ghost use Rattle.cadence_audit.specs.declared.errors.AuditError.TheVariants.{OutOfMemory};

    ghost from_gives = { λ _ e. e ≡ OutOfMemory };

    fn from(_: AllocError) -> AuditError {
        AuditError::OutOfMemory
    }
}

/// Why an audited queue returns no history at its end. The queue and the seats have been dropped then.
#[derive(Clone, Copy, Debug, PartialEq, Eq, Error)]
pub enum EndFault {
    /// The numbers of the seats are not those of all seats of the queue, each once.
    #[error("seats missing")]
    SeatsMissing,
    /// The history doesn't agree with the receipts, or the capacity under the lock isn't the one outside it.
    #[error("history and receipts differ")]
    Mismatch,
}
