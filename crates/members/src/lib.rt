//! A running lock cluster, for any number of threads: one node for each voter, and one mailbox and
//! one member for each client.
//!
//! A client that wants the lock draws a ticket, which names a quorum of a plan. It asks the
//! quorum's voters for their votes (Maekawa, ACM TOCS 3(2), 1985). Here voters and clients are in
//! one process:
//!
//! - A [`Node`] is a voter with a log of the messages that it took and with its seat on the board.
//!   It is behind a lock, and takes one message at a time. Its lock is released before its replies
//!   go into mailboxes.
//! - A mailbox has the messages to one client, first in, first out, behind a lock.
//! - A [`Member`] is a client with its seat on the board and its clerks. One thread at a time drives
//!   it: it calls [`Member::ask`], [`Member::pump`] until that returns `Entered`, [`Member::pass`]
//!   any number of times, and [`Member::leave`].
//! - [`Cluster::close`] takes the members back, once all are idle, and returns the [`RunRecord`]:
//!   who drew which ticket, who passed by which number, and the register.
//!
//! Votes are taken and given back on the board, which has one atomic word for each voter. So no two
//! members are ever inside at once, whatever messages come. A member gives a vote back before the
//! message goes out that says so.
//!
//! # A cluster's name
//!
//! What a lock gives belongs to one cluster, and a type says to which: [`Blank::open`] takes a
//! [`ClusterName`]. Code that works on a cluster is generic in that name, and is called with
//! `Brand`:
//!
//! ```
//! fn once<N: ClusterName>(rt: &impl Wait, alloc: Global, blank: Blank) -> Result<Option<u64>, AllocError>
//!     requires { blank ≡ N.cluster }
//! {
//!     let (cluster, mut members) = blank.open::<N>(alloc)?;
//!     let Some(mut member) = members.pop() else {
//!         return Ok(None);
//!     };
//!     let receipt = member.ask(rt, &cluster); // ticket 0, and the quorum that it names
//!     for _ in 0..3 {
//!         member.pump(rt, &cluster); // the votes come, and with the last one Entered
//!     }
//!     Ok(member.pass(&cluster).ok()) // pass number 0
//! }
//! // once::<Brand>(rt, alloc, Blank::new(alloc, Plans::single(plan), 1, 100)?)
//! ```
//!
//! # What is proved
//!
//! - Whenever a node's lock is free, its voter is what its definition makes of the log, and its
//!   seat has the voter's current grant.
//! - Whenever no call of a member runs, its client's votes are those that its seat holds. The
//!   client changes only by its definition.
//! - `ask` fails if the client is not idle, or has no stamp or no ticket left. `pass` and `leave`
//!   fail if it is not inside, and `give_up` if it is not asking. Otherwise only `pass` fails, on a
//!   full register, and `ask` and `pass` when out of memory.
//! - A cluster may have two plans with a bridge between their coteries. `exchange` has the member's
//!   later requests draw of the second plan. It fails if there is none, or the member exchanged
//!   already. A request that runs keeps its quorum.
//! - A record has each member's draws and passes, and no others, with the draws of each plan by
//!   themselves. Its tickets of each plan and its numbers are 0, 1, 2 and so on. Each ticket names
//!   its quorum by its plan's cycle, and the register is the number of passes.
//!
//! A message may be lost: a node drops it, memory runs out, or it is a LOCKED whose vote can't be
//! taken. [`Member::lost`] counts such messages:
//!
//! - It rises by one for such a LOCKED.
//! - Otherwise it rises by at most three for each message that is sent: the message is lost, or
//!   the replies to it.
//! - No loss is left out. This is proved for a message that names a voter or a client that the
//!   cluster doesn't have, and only tested for others.
//!
//! Nothing is proved about waiting or progress. Three things are not proved either:
//!
//! - whose lock is whose: that is checked when a lock is taken;
//! - that a cluster with all members back and idle closes: that is tested;
//! - that a cluster that could not be closed goes on as it was: that is tested.
//!
//! This crate depends on `mailroom`, where messages go, and on `node`, which takes votes and gives them
//! back. It also depends on `clerks`, `run_outcome`, `board`, `dealer`, `requester`, `message`,
//! `certificate`, `quorum_set` and `numbers`. The crate `cluster` re-exports all that is here, and drives the
//! members.
#![tactic(auto)]

mod blank;
mod close;
mod cluster;
mod laws;
mod member;

pub use blank::Blank;
pub use close::CloseFault;
pub use cluster::Cluster;
pub use laws::{records_are_in_range, records_count_passes};
pub use member::Member;
pub use node::{ClusterName, Node};
pub use run_outcome::{ClusterFault, Draw, Pass, RunRecord};
