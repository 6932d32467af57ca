//! A board that threads share without locks: one word for each voter's vote, and a register that
//! only the client inside writes.
//!
//! Threads share a [`Board`] through a `&`. A voter's thread owns a [`VoterSeat`], the only right
//! to grant that voter's vote. A client's thread owns a [`ClientSeat`], the only right to take
//! votes for that client. A voter's word says that the vote is free, or under which grant it is
//! offered, held or given back:
//!
//! ```text
//!           grant             take            give_back
//!   free ----------> offered -------> held ---------------> returned
//!     ^                 |                                      |
//!     +-----------------+--------------- settle ---------------+
//! ```
//!
//! Each arrow is one atomic exchange, and no call waits. A client that holds the vote of every
//! member of a quorum is *inside* (Maekawa, ACM TOCS 3(2), 1985). A client that is inside may pass:
//! it calls [`ClientSeat::read_register`] and then [`ClientSeat::write_register`], a plain store of
//! the number read plus one. The number read is then its own: a *pass number*.
//!
//! # What is proved
//!
//! The rule in `specs/Rule.antt` holds between any two steps of any threads. The laws
//! [`votes_are_kept`] and [`one_client_inside`] say what it means:
//!
//! - Two clients are never inside at once.
//! - The pass numbers of all clients together are the numbers below the register, each once.
//!   [`Board::close`] returns them.
//!
//! This holds for any list of quorums in which any two meet, so also while a plan is exchanged:
//! [`Board::bridged`] has the quorums of two coteries, and those of one meet those of the other.
//! Nothing is proved about waiting or progress.
//!
//! [`BoardRoot`] gives each seat once and takes it back. A seat that is dropped stays out, and so
//! do the votes that it holds.
//!
//! This crate depends on `quorum_set`, `numbers` and `atomic_table`. A cluster of nodes depends on
//! it.
//!
//! ```
//! let (board, mut root) = Board::new(alloc, &coterie, 1, 1000)?; // one voter, one quorum {0}, one client
//! let mut voter = root.voter(&board, 0);
//! let mut client = root.client(&board, 0);
//! voter.grant(&board, 0, 1);
//! if client.take(&board, 0, 1) {
//!     let number = client.read_register(&board, Side::First, 0); // 0
//!     client.write_register(&board)?; // the register is 1, and pass number 0 is this client's
//!     client.give_back(&board, 0);
//! }
//! ```
#![tactic(auto)]

mod board;
mod client;
mod fault;
mod laws;
mod root;
mod table;
mod vote;
mod voter;

pub use board::{Board, Total};
pub use client::ClientSeat;
pub use fault::BoardFault;
pub use laws::{one_client_inside, votes_are_kept};
pub use root::BoardRoot;
pub use voter::VoterSeat;
