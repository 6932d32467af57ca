//! The fault of a line.
use thiserror::Error;

/// The reason why bytes are no message.
#[derive(Clone, Copy, Debug, PartialEq, Eq, Error)]
pub enum MessageFault {
    /// The bytes are not the line of any message.
    #[error("M1 BadLine")]
    BadLine,
}
