//! A client of the voting lock: it asks a quorum of voters for their votes, and has the lock while
//! it holds them all.
//!
//! A client that wants the lock sends REQUEST to each voter of a quorum, under a stamp of its
//! clock.
//!
//! - LOCKED brings a vote. Once the client holds each member's vote, it is inside.
//! - A voter whose vote is granted sends FAIL if the granted request or a waiting one precedes the
//!   new one. Otherwise it asks the holder for its vote (INQUIRE).
//! - A request can't win yet once a member sent FAIL or has its vote back. On INQUIRE, the client
//!   of such a request gives the vote back by RELINQUISH. Any other client keeps the vote, and
//!   gives it back on the next FAIL.
//! - RELEASE ends a request.
//!
//! This is the requester of Maekawa, "A sqrt(N) algorithm for mutual exclusion in decentralized
//! systems", ACM TOCS 3(2), 1985. Messages may be repeated, lost and late. So a grant counts only
//! if it is newer than the last that was given back. A vote for another request goes back by
//! RELEASE.
//!
//! # Running a client
//!
//! A [`Requester`] is a pure machine: it has no clock but its stamps, no socket and no thread, and
//! no call takes memory.
//!
//! - [`Requester::ask`] starts a request. Give each message to [`Requester::take`], one at a time,
//!   and send what each call returns, in order.
//! - `Entered` says that the client has the lock, until [`Requester::leave`].
//! - A request that takes too long may be given up ([`Requester::give_up`]).
//! - [`Requester::remind`] may be sent at any time.
//! - A client that has to survive a crash is saved before its messages are sent, and before its work
//!   begins: [`Requester::save`] writes it as numbers, and [`Requester::restore`] reads them.
//!   [`Requester::forget`] leaves only what has to survive.
//! - [`Requester::ask_fault`] and so on return beforehand why a call would fail.
//!
//! Some callers keep the votes elsewhere too, as on a board between threads. They call
//! [`Requester::would_hold`] before a message, and take the vote there first. After each call they
//! give back there what the client no longer holds.
//!
//! [`Requester::ask_into`], [`Requester::take_into`] and so on do the same with the messages in a
//! buffer of the caller's. They are for callers that make many steps: no [`Reply`], which has room
//! for 64 messages, is made and moved.
//!
//! # What is proved
//!
//! The steps are exactly the definition in `specs/Steps.antt`. Its state has:
//!
//! - a phase, a stamp, a clock and a quorum;
//! - two maps from voter to grant number: held, and last given back;
//! - three sets of voters.
//!
//! The laws on this page are what proofs about many voters and clients may use.
//!
//! Depends on `message`, `quorum_set` and `numbers`. A world of voters and clients, and threads
//! that run one, depend on this crate.
//!
//! ```
//! let mut quorum = QSet::empty();
//! quorum.insert(0);
//! let mut client = Requester::new(7, 1000);
//! let reply = client.ask(&quorum)?;
//! // reply.out: REQUEST with stamp 1 to voter 0
//! let body = ClientBody::Locked { stamp: 1, grant: 1 };
//! let locked = ToClient { voter: 0, client: 7, seen: 1, body };
//! let reply = client.take(&locked);
//! // reply.seen: Entered
//! ```
#![tactic(auto)]

mod fault;
mod laws;
mod requester;
mod saved;
mod state;

pub use fault::ClientFault;
pub use laws::{
    clocks_never_fall, hindered_clients_give_votes_back, messages_are_in_range,
    messages_move_votes, old_votes_go_back, phases_show_refusals, phases_show_votes,
    reminders_ask_again, requesters_meet_the_contract, requesters_stay_sound,
};
pub use requester::Requester;
pub use saved::{SAVED_WORDS, SavedWords};
pub use state::{Members, Messages, Phase, Reminders, Reply, Seen};
