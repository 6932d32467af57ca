//! What comes with a call.

/// A claim of a number.
#[derive(Clone, Copy, Debug, PartialEq, Eq)]
pub struct Claim {
    /// The session that claims, as a number of 128 bits: a hash of its name.
    pub session: u128,
    /// The epoch that it claims.
    pub epoch: u64,
    /// How many stamps it wants at once: at most 2^12 count.
    pub stamps: u64,
}

/// What a claim may change, besides the bounds that a row has by itself.
#[derive(Clone, Copy, Debug, PartialEq, Eq)]
pub struct Bounds {
    /// How far the epoch may be above the row's: at most 2^20.
    pub epochs: u64,
    /// The highest stamp that may be reserved: at most 2^62.
    pub stamp: u64,
}

/// Whether messages of the sessions of two rows were heard: of a claim alone they may not have been.
#[derive(Clone, Copy, Debug, PartialEq, Eq)]
pub struct Heard {
    /// Of the session of the row that learns.
    pub here: bool,
    /// Of the session of the other voter's row.
    pub there: bool,
}
