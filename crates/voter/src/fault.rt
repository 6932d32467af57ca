//! Faults of a voter.
use thiserror::Error;

/// The reason why a voter did not take a message.
#[derive(Clone, Copy, Debug, PartialEq, Eq, Error)]
pub enum VoterFault {
    /// The message needs a new grant, and none is left within the limit.
    #[error("V1 GrantsSpent")]
    GrantsSpent,
}
