//! Why a voter refuses a process that started in another one's place.
use thiserror::Error;

/// The reason why a voter refuses a process.
#[derive(Clone, Copy, Debug, PartialEq, Eq, Error)]
pub enum StartFault {
    /// Another voter has the place.
    #[error("Place")]
    Place,
    /// The process is of an older copy of the state, or another process has a copy of it.
    #[error("Older")]
    Older,
}
