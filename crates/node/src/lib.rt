//! The parts of a running cluster: its voters, its mailboxes, and how votes move on its board.
//!
//! - A [`Node`] is a voter with a log of the messages that it took and with its seat on the board.
//!   It takes one message at a time.
//! - A [`Mailbox`] has the messages to one client, first in, first out.
//! - [`accept`] and [`give_back`] move votes on the board as a client's messages say. A vote is
//!   taken before the client makes its step. It is given back before the message goes out that says
//!   so.
//!
//! A [`ClusterName`] is a type that says which cluster a node or a mailbox belongs to. Nothing in
//! this crate locks or sends: a cluster puts nodes and mailboxes behind locks, and carries the
//! messages.
//!
//! ```
//! let mut mailbox: Mailbox<N> = Mailbox::new(alloc, 1); // for client 1
//! mailbox.put(ToClient { voter: 0, client: 1, seen: 1, body: ClientBody::Fail { stamp: 1 } }, voters)?; // true: added
//! mailbox.take(0); // None: not client 0's
//! mailbox.take(1); // the FAIL
//! ```
//!
//! # What is proved
//!
//! - Between calls a node's voter is what its definition makes of the log, and its seat has the
//!   voter's current grant.
//! - A mailbox is a queue, unless it runs out of memory. All its messages are to its client and
//!   from voters of the board. The grant of a LOCKED is from 1 to 2^40.
//! - [`accept`] takes exactly the vote that the message brings, if the client would hold it.
//!   Afterwards [`give_back`] leaves the seat with exactly the votes that the client holds.
//!
//! Other seats make steps on the board at the same time. So nothing is proved about when [`accept`]
//! can't take a vote, or about when [`Node::into_seat`] or [`Node::take`] finds that a vote was
//! taken.
//!
//! This crate depends on `board`, `dealer`, `voter`, `requester`, `message` and `numbers`.
#![tactic(auto)]

mod laws;
mod mailbox;
mod name;
mod node;
mod outbox;
mod postbox;
mod votes;

pub use mailbox::Mailbox;
pub use name::ClusterName;
pub use node::Node;
pub use outbox::Outbox;
pub use postbox::Postbox;
pub use votes::{accept, give_back};
