//! Why a request of a lock does not end.
use requester::ClientFault;
use thiserror::Error;

/// The reason why a request does not end. Nothing changed then.
#[derive(Clone, Copy, Debug, PartialEq, Eq, Error)]
pub enum LockFault {
    /// A call has the lock under the request.
    #[error("HasLock")]
    HasLock,
    /// The client of the lock does not end it.
    #[error("{0}")]
    OfClient(ClientFault),
}
