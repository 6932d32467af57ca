//! Faults of incidents.
use thiserror::Error;
use world::WorldFault;

/// The reason why an incident is refused. It changes nothing.
#[derive(Clone, Copy, Debug, PartialEq, Eq, Error)]
pub enum IncidentFault {
    /// There is no such client, voter or message, the step was refused, or memory ran out.
    #[error(transparent)]
    World(WorldFault),
    /// This voter has given no grant that it could let go.
    #[error("U5 NoGrant {0}")]
    NoGrant(u8),
    /// This voter would be reborn with a count of grants that is too small, or above its limit.
    #[error("U6 GrantsForgotten {0}")]
    GrantsForgotten(u8),
    /// This client would start anew with a clock that is behind its last stamp, or above its limit.
    #[error("U7 StampsForgotten {0}")]
    StampsForgotten(u8),
}
