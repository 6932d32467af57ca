//! Why a node refuses an event.
use thiserror::Error;

/// The reason why a node refuses an event. The node is unchanged.
#[derive(Clone, Copy, Debug, PartialEq, Eq, Error)]
pub enum NodeFault {
    /// So many messages wait for a save that those of one more step may have no room.
    #[error("SaveFirst")]
    SaveFirst,
    /// The voter needs a new grant, and none is left within its limit.
    #[error("GrantsSpent")]
    GrantsSpent,
}
