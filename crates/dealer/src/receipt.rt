//! Receipts: what a draw returns.

/// A ticket that was drawn, and the quorum that it stands for.
#[derive(Clone, Copy, Debug, PartialEq, Eq, Drop)]
pub struct Receipt {
    /// The ticket's number, from 0 on.
    pub ticket: u64,
    /// The number of the quorum at the ticket's place in the cycle.
    pub quorum: usize,
}
