//! The faults of calls on fractions.
use thiserror::Error;

/// Why a call on fractions has no result. A zero divisor is tested first.
#[derive(Clone, Copy, Debug, PartialEq, Eq, Error)]
pub enum FracFault {
    /// An argument, or a product or a sum that the call computes, has an absolute value above
    /// 2^127 - 1.
    #[error("Q1 Overflow")]
    Overflow,
    /// The denominator, or the fraction to divide by, is 0.
    #[error("Q2 ZeroDivisor")]
    ZeroDivisor,
}
