//! A running lock cluster: everything in `members`, and drives, which run each member in a thread
//! of its own.
//!
//! [`drive`] lends each member of a cluster to a thread of its own, which asks, enters, passes and
//! leaves again and again. A [`Gate`] may hold a member up before it asks, once it has asked, and
//! before it passes; [`NoGate`] lets all through. The calls of clusters and members, such as
//! [`Blank::open`], [`Member::ask`] and [`Cluster::close`], are re-exported from `members`, which
//! documents them.
//!
//! ```
//! let (cluster, members) = blank.open::<N>(alloc)?;
//! match drive(rt, &cluster, members, 100, 1_000_000, &NoGate) {
//!     Ok(members) => {}  // all back and idle, each with 100 more receipts and pass numbers
//!     Err(driven) => {}  // all back and idle; driven.fault is the smallest failing client's
//! }
//! ```
//!
//! # What is proved
//!
//! - A drive returns all members, in order and idle.
//! - A member without a fault drew a ticket for each of its passes, and made them all.
//! - A member with a fault made fewer passes, and drew at most one ticket more than it made passes.
//! - A member's tickets of the plan in use run out only if it passed once for each that it had.
//! - If there are two plans, a member that uses the first one exchanges it after half of its passes,
//!   rounded down.
//! - A client that the gate never lets pass makes no pass.
//! - Each pass takes at least two of the client's turns.
//! - A member fails with `TurnsSpent` only with no turn left, and with another fault only if one of
//!   its calls fails by it. The steps of a drive say so; [`drive`] itself does not show the turns.
//!
//! It is only tested that a member looks, or asks the gate, at each turn, and that the gate is asked
//! before each pass. Nothing is proved about when threads run, yield or sleep.
//!
//! This crate depends on `members`, and makes only its public calls.
#![tactic(auto)]

mod drives;
mod gate;
mod patience;
mod turns;

pub use drives::{Driven, drive};
pub use gate::{Gate, NoGate};
pub use members::{
    Blank, CloseFault, Cluster, ClusterFault, ClusterName, Draw, Member, Node, Pass, RunRecord,
    records_are_in_range, records_count_passes,
};
