//! Why a guard refuses a pass.
use thiserror::Error;

/// The reason why a guard refuses a pass. The guard is unchanged.
#[derive(Clone, Copy, Debug, PartialEq, Eq, Error)]
pub enum FenceFault {
    /// The pass shows an older grant of some voter than a pass that was admitted before.
    #[error("OlderGrant")]
    OlderGrant,
    /// The pass shows a newer grant, and the guard gave the turn 2^64 - 1 already.
    #[error("TurnsSpent")]
    TurnsSpent,
}
