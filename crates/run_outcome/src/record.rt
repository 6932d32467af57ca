//! The record of a run.

/// A draw: the client, its ticket, and the number of the quorum that the ticket names. All count from
/// 0. In a cluster's record the client is at most 63, and the quorum at most 4095.
pub type Draw = (u8, u64, usize);

/// A pass: the client, and the number by which it passed. Both count from 0. In a cluster's record the
/// client is at most 63.
pub type Pass = (u8, u64);

/// The record of a run of a cluster.
#[derive(Debug, Drop)]
pub struct RunRecord {
    /// The draws of the first plan. They are in the order of tickets if closing a cluster made the
    /// record.
    pub draws: Vec<Draw>,
    /// The same of the second plan. Empty without a second plan.
    pub draws2: Vec<Draw>,
    /// The passes. They are in the order of numbers if closing a cluster made the record.
    pub passes: Vec<Pass>,
    /// The register at the end.
    pub register: u64,
    /// How many messages were lost. A record's text doesn't contain it: read from a text it is 0.
    pub lost: u64,
}
