//! Why a text is not replayed, or a record is not accepted.
ghost use Rattle.std.specs.Prelude.{◌≡◌};
ghost use Rattle.replay.specs.declared.fault.ReplayFault.TheVariants.{OutOfMemory};

use std::alloc::{AllocError, AllocFailed};
use thiserror::Error;

/// The reason why a text is not replayed, or a record is not accepted.
#[derive(Clone, Copy, Debug, PartialEq, Eq, Error)]
pub enum ReplayFault {
    /// This ticket is the smallest that was drawn more than once.
    #[error("A1 TicketTwice {0}")]
    TicketTwice(u64),
    /// This ticket is the smallest that was not drawn. It is below the number of draws.
    #[error("A2 TicketMissing {0}")]
    TicketMissing(u64),
    /// This ticket is the smallest that was drawn with another quorum than the plan's cycle has at
    /// its place.
    #[error("A3 WrongQuorum {0}")]
    WrongQuorum(u64),
    /// This number is the smallest that two passes have.
    #[error("A4 PassTwice {0}")]
    PassTwice(u64),
    /// This number is the smallest that no pass has. It is below the number of passes.
    #[error("A5 PassMissing {0}")]
    PassMissing(u64),
    /// The register differs from this number, the number of passes.
    #[error("A6 WrongRegister {0}")]
    WrongRegister(u64),
    /// The line with this number, from 1, is the first that is missing, malformed or out of place,
    /// or has no newline.
    #[error("A7 BadLine {0}")]
    BadLine(usize),
    /// Memory ran out.
    #[error("O1 OutOfMemory")]
    OutOfMemory,
}

impl From<AllocError> for ReplayFault {
    ghost from_gives = { λ _ e. e ≡ OutOfMemory };

    fn from(_error: AllocError) -> ReplayFault {
        ReplayFault::OutOfMemory
    }
}

impl<T: Drop> From<AllocFailed<T>> for ReplayFault {
    ghost from_gives = { λ _ e. e ≡ OutOfMemory };

    fn from(_error: AllocFailed<T>) -> ReplayFault {
        ReplayFault::OutOfMemory
    }
}
