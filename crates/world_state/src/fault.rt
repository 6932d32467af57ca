//! Faults of a world's steps.
use requester::ClientFault;
use thiserror::Error;
use voter::VoterFault;

/// The reason why a step of a world failed. Such a step changes nothing.
#[derive(Clone, Copy, Debug, PartialEq, Eq, Error)]
pub enum WorldFault {
    /// No message with this number was sent.
    #[error("U1 NoSuchMessage {0}")]
    NoSuchMessage(u64),
    /// No client has this number.
    #[error("U2 NoSuchClient {0}")]
    NoSuchClient(u8),
    /// No voter has this number.
    #[error("U3 NoSuchVoter {0}")]
    NoSuchVoter(u8),
    /// There is no second plan, or it is in use already.
    #[error("U4 NoSecondPlan")]
    NoSecondPlan,
    /// The client's call failed.
    #[error(transparent)]
    Client(ClientFault),
    /// The voter refused the message.
    #[error(transparent)]
    Voter(VoterFault),
    /// Out of memory.
    #[error("O1 OutOfMemory")]
    OutOfMemory,
}
