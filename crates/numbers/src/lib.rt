//! Sets, sums and counts of whole numbers, lemmas about them, and the bounds of the lock:
//! constants, no functions.
//!
//! - `specs/Bounds.antt`: the bounds by name, for contracts. The constants below are the same.
//! - `specs/Sets.antt`: sets of numbers below 64, each as the ascending list of its members.
//! - `specs/Sums.antt`: sums over the numbers below a bound, and lists of all of them.
//! - `specs/Counts.antt`: how often a number is in a list, and the greatest value of a function.
//! - `specs/Results.antt`: results of calls that may run out of memory.
//!
//! The lemmas in `proofs/` are public: other crates use them. This crate depends on no other.
//! Nearly all crates whose contracts speak of sets, sums or bounds depend on it.
#![tactic(auto)]

/// The most voters of a coterie. Voters are numbered from 0.
pub const MAX_VOTERS: usize = 64;

/// The most clients. Clients are numbered from 0.
pub const MAX_CLIENTS: usize = 64;

/// The most quorums of a coterie. Quorums are numbered from 0.
pub const MAX_QUORUMS: usize = 4096;

/// The most entries of a cycle, and the largest sum of the voters' weights.
pub const MAX_CYCLE: u64 = 1_000_000;

/// The highest limit that a voter or a client may have: of its grants, or of its stamps.
pub const MAX_LIMIT: u64 = 1 << 62;

/// The highest limit in scripts, on boards and in clusters.
pub const MAX_STAMP: u64 = 1 << 40;

/// The most tickets. As each pass has a ticket, it is also the highest number of a register.
pub const MAX_TICKETS: u64 = 1 << 63;

/// The most tickets that one command deals.
pub const MAX_DEALT: u64 = 100_000;

/// The greatest capacity of a voter. The least is 1.
pub const MAX_CAPACITY: u64 = 1000;
