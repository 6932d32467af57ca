//! A guard for what the lock protects: it refuses whoever shows an older grant than it saw before.
//!
//! A client that is inside holds a grant of each voter of its quorum. Two quorums share a voter, and
//! a voter numbers its grants 1, 2, 3 and so on. So a client that lost the lock without noticing it,
//! and comes late, shows an older grant at some voter than the one that came after it. A stamp is no
//! such number: a later client may enter under a smaller stamp.
//!
//! The place that the lock protects keeps a [`Fence`]. Whoever writes there shows its [`Pass`] to
//! [`Fence::admit`] first. A client that is inside gets its pass from [`pass_of`]. A pass has at least
//! one grant. No call takes memory.
//!
//! A guard never refuses a pass that comes in order, and refuses one that comes late. The crate
//! `leases` proves this, over every list of steps, crashes and restarts. It depends on each voter's
//! number of grants, which has to survive a crash. `leases` also has what holds if a voter lets a grant
//! go while its client has it. A guard also counts *turns*: one number, which users know as a fencing token.
//!
//! Depends on `numbers` and `requester`.
#![tactic(auto)]

mod fault;
mod fence;
mod laws;
mod pass;
mod shown;

pub use fault::FenceFault;
pub use fence::Fence;
pub use laws::admitted_passes_stay_seen;
pub use pass::Pass;
pub use shown::pass_of;
