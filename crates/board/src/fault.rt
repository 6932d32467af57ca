//! Why a call of a board fails.
use thiserror::Error;

/// The reason why a call of a board failed.
#[derive(Clone, Copy, Debug, PartialEq, Eq, Error)]
pub enum BoardFault {
    /// This many seats were given and not joined again when the board was closed.
    #[error("B1 SeatsOut {0}")]
    SeatsOut(u64),
    /// This voter has a current grant; or it is the smallest voter whose vote the client holds.
    #[error("B2 VoteOut {0}")]
    VoteOut(u8),
    /// The register is at its limit.
    #[error("B3 RegisterFull")]
    RegisterFull,
    /// Memory ran out.
    #[error("O1 OutOfMemory")]
    OutOfMemory,
}
