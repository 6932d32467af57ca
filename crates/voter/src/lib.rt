//! A voter of the voting lock: it has one vote, and grants it to one request at a time.
//!
//! A client that wants the lock asks every voter of a quorum for its vote, by REQUEST. A voter
//! grants its vote to the request that precedes the others that it knows, and sends LOCKED. The
//! other requests wait in a queue.
//!
//! - If the granted request or a waiting one precedes a new request, the new one receives FAIL.
//! - If none does, the voter asks the holder to give the vote back (INQUIRE).
//! - If a new request becomes the first in the queue, the former first one receives FAIL.
//! - A holder that can't win yet gives the vote back (RELINQUISH), and goes on waiting.
//! - RELEASE ends a request.
//!
//! This is the arbiter of Maekawa, "A sqrt(N) algorithm for mutual exclusion in decentralized
//! systems", ACM TOCS 3(2), 1985. Messages may be repeated, lost and late, so grants are numbered
//! and finished stamps are remembered.
//!
//! # Running a voter
//!
//! A [`Voter`] is a pure machine: it has no clock, no socket and no thread.
//!
//! - Give each message to [`Voter::take`], one at a time, and send the replies in order.
//! - A voter that has to survive a crash is saved before its replies are sent: [`Voter::save`] writes
//!   it as numbers, and [`Voter::restore`] reads them. [`Voter::forget`] leaves only what has to
//!   survive.
//! - A message that is refused changes nothing.
//! - [`Voter::effect`] returns beforehand whether a message would end the current grant. A board of
//!   votes has to settle the grant first.
//! - [`Voter::remind`] may be sent at any time.
//! - [`Voter::raise`] skips numbers of grants, and keeps the grant. So a voter goes on above a number that
//!   others know.
//! - [`Voter::take_into`] is `take` with the replies in a buffer of the caller's. It is for callers
//!   that make many steps.
//!
//! # What is proved
//!
//! The steps are exactly the definition in `specs/Steps.antt`. Its state has:
//!
//! - a grant or none;
//! - a finite map from waiting client to stamp, with its least request as the front;
//! - the finished stamps;
//! - the number of grants given, and the highest stamp seen.
//!
//! A saved voter is restored as it was, each state has one text, and what is restored is sound
//! whatever the numbers are (`specs/Saved.antt`).
//!
//! The laws on this page are what proofs about many voters and clients may use.
//!
//! Depends on `message` and `numbers`. A world of voters and clients, and threads that run one,
//! depend on this crate.
//!
//! ```
//! let mut voter = Voter::new(0, 1000);
//! let replies = voter.take(&ToVoter { client: 1, voter: 0, body: VoterBody::Request { stamp: 1 } })?;
//! // replies: LOCKED for client 1, stamp 1, under grant number 1
//! ```
#![tactic(auto)]

mod fault;
mod laws;
mod queue;
mod saved;
mod state;
mod voter;

pub use fault::VoterFault;
pub use laws::{
    grants_are_numbered, messages_finish_requests, releases_end_requests,
    reminders_repeat_the_vote, replies_carry_what_was_seen, replies_report_the_state,
    requests_are_taken_up, requests_stay, voters_meet_the_contract, voters_stay_kept,
    voters_stay_sound, voters_with_grants_take_messages, votes_are_asked_back,
    votes_given_back_go_on, votes_go_to_the_first,
};
pub use saved::{SAVED_WORDS, SavedWords};
pub use state::{Effect, Grant, Replies};
pub use voter::Voter;
