//! Why a call for the lock is refused.
use thiserror::Error;

/// The reason why a call for the lock is refused. Nothing changed then.
#[derive(Clone, Copy, Debug, PartialEq, Eq, Error)]
pub enum CallFault {
    /// The session is closed: it takes no call any more.
    #[error("Closed")]
    Closed,
    /// The call only tries, and the lock is asked for, had, or waited for already.
    #[error("Held")]
    Held,
    /// 2^64 - 1 calls wait already.
    #[error("TooMany")]
    TooMany,
}
