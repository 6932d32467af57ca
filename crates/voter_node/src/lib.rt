//! A voter's process for one lock: a voter whose messages wait until it is saved.
//!
//! *Save, then send*: what a voter sends may leave only once the state that it sends it by survives a
//! crash. A [`VoterNode`] keeps this order. It has no clock and no I/O. Its host
//!
//! - gives it messages, evictions and reminders, as many as there are ([`VoterNode::take`],
//!   [`VoterNode::evict`], [`VoterNode::remind`]);
//! - makes what [`VoterNode::to_save`] returns durable, all of it in one write;
//! - calls [`VoterNode::saved`], and sends what it returns.
//!
//! So one save serves many messages, and nothing leaves before it. A host can break the order only by
//! calling `saved` when the voter was not saved.
//!
//! After a crash the host reads what it saved, and makes a new node of it. It has two ways:
//!
//! - It takes the voter as it was saved. Then it saves before each `saved`.
//! - It calls [`Voter::forget`](voter::Voter::forget) on it. Then only the grant and the number of grants
//!   have to survive, and [`VoterNode::must_save`] says whether they changed. If not, it may call `saved`
//!   without a save: a FAIL needs none. Clients' reminders bring the waiting requests back. A voter that
//!   forgets also forgets which requests are finished, so an old REQUEST may get a grant once more.
//!
//! # What is proved
//!
//! Each call is the step of `specs/Nodes.antt`. A host that restarts by forgetting and leaves saves out
//! finds the same after a crash as if it had saved each time ([`saves_may_be_left_out`]). The runs of a
//! node are those of a voter in a world of incidents (`nodes_run_as_incidents` of `leases`). The laws of
//! `leases` hold for services that are made of nodes, as `services_run_as_incidents` there says.
//!
//! Depends on `voter`, `message` and `numbers`.
//!
//! ```
//! let mut node = VoterNode::new(voter);
//! node.take(&request)?; // as many messages as there are
//! if node.must_save() {
//!     save(node.to_save());
//! }
//! let messages = node.saved(); // send these
//! ```
#![tactic(auto)]

mod fault;
mod laws;
mod least;
mod node;

pub use fault::NodeFault;
pub use laws::saves_may_be_left_out;
pub use least::must_save;
pub use node::{Messages, ROOM, VoterNode};
