//! Faults of an office.
use crate::receipt::Receipt;
use thiserror::Error;

/// The reason why no ticket was dealt.
#[derive(Clone, Copy, Debug, PartialEq, Eq, Error)]
pub enum DealFault {
    /// The clerk has drawn all tickets that it may draw.
    #[error("L1 QuotaSpent")]
    QuotaSpent,
    /// Out of memory.
    #[error("O1 OutOfMemory")]
    OutOfMemory,
}

/// The reason why an office was closed without an account.
#[derive(Clone, Copy, Debug, PartialEq, Eq, Error)]
pub enum OfficeFault {
    /// The clerk's receipts and its rest are this many short of the office's quota: other clerks
    /// have, or had, these tickets.
    #[error("L2 ClerksOut {0}")]
    ClerksOut(u64),
    /// Out of memory.
    #[error("O1 OutOfMemory")]
    OutOfMemory,
}

/// An office that was closed without an account: the receipts of its last clerk, and the fault.
#[derive(Debug, Drop)]
pub struct Unclosed {
    /// The clerk's receipts, in the order of its draws.
    pub receipts: Vec<Receipt>,
    /// Why there is no account.
    pub fault: OfficeFault,
}
