//! Faults of a client.
use thiserror::Error;

/// The reason why a client's call failed. The client is unchanged.
#[derive(Clone, Copy, Debug, PartialEq, Eq, Error)]
pub enum ClientFault {
    /// The client is asking already, or is inside.
    #[error("C1 Busy")]
    Busy,
    /// The client is not inside.
    #[error("C2 NotInside")]
    NotInside,
    /// The client is not asking.
    #[error("C3 NotAsking")]
    NotAsking,
    /// The client's clock is at the limit, so no stamp is left for a request.
    #[error("C4 StampsSpent")]
    StampsSpent,
}
