//! What comes of a run: its record, or the fault for which it has none.
//!
//! - [`RunRecord`] is what the clients of a closed cluster did, each [`Draw`] and each [`Pass`].
//!   `members` makes it, and `replay` reads, writes and checks one.
//! - [`ClusterFault`] says why a call of a member failed, and [`RunFault`] why a run has no record.
//!
//! The types are below the crates that run threads, so that those which only read and write texts
//! don't depend on threads.
//!
//! Depends on `board`, `dealer` and `requester` for the faults of their calls.
#![tactic(auto)]

mod fault;
mod record;

pub use fault::{ClusterFault, RunFault};
pub use record::{Draw, Pass, RunRecord};
