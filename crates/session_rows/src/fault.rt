//! Why a row refuses a call.
use thiserror::Error;

/// The reason why a row refuses a call. The row is unchanged.
#[derive(Clone, Copy, Debug, PartialEq, Eq, Error)]
pub enum RowFault {
    /// The claim's epoch is not above the row's, nor one that may be claimed again.
    #[error("OldEpoch")]
    OldEpoch,
    /// The claim's epoch is too far above the row's.
    #[error("FarEpoch")]
    FarEpoch,
    /// Another session has the number, and is not silent.
    #[error("InUse")]
    InUse,
    /// The number is not the session's under its epoch.
    #[error("NotOwner")]
    NotOwner,
    /// The row has the last epoch, 2^64 - 1.
    #[error("EpochsSpent")]
    EpochsSpent,
}
