//! The mailroom of a running lock cluster: a node for each voter, and a mailbox for each client, for any
//! number of threads.
//!
//! A message goes to its voter's node, behind a lock, and the voter's replies go into mailboxes. The node's
//! lock is released before a mailbox is locked. Each voter has a line, which is held from a message to it
//! until the replies are posted: so its replies get into a mailbox in the order in which it made them.
//!
//! # What is proved
//!
//! - A mailroom belongs to one cluster, by its name. It has the cluster's board, and a node for each voter.
//! - Of a message at most three are lost: the message itself, or the replies to it. No loss is left out of
//!   the count. This is proved for a message that names a voter or a client that the cluster doesn't have,
//!   and only tested for others.
//! - What gets into a mailbox names its client, a voter of the board, and a grant in range.
//!
//! The crate `members` has the clients that send these messages.
//!
//! ```
//! let lost = mailroom.deliver(rt, &message); // 0: the replies are in their mailboxes
//! let reply = mailroom.next(rt, 1);          // the first one for client 1
//! ```
#![tactic(auto)]

mod line;
mod losses;
mod mailroom;
mod rooms;

pub use losses::Losses;
pub use mailroom::Mailroom;
