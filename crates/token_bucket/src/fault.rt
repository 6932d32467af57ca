//! Why a bucket refuses a call.
use thiserror::Error;

/// The reason why a bucket refuses a call. The bucket is unchanged.
#[derive(Clone, Copy, Debug, PartialEq, Eq, Error)]
pub enum BucketFault {
    /// The bucket has fewer tokens.
    #[error("TokensSpent")]
    TokensSpent,
}
