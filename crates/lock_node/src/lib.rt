//! A voter's process of many locks: which messages of sessions its votes take, and which sessions hear what
//! they say.
//!
//! A voter has a row for each number of a client (`session_rows`), and a vote for each lock (`voter_node`).
//!
//! - A message of a session counts if the row of its number says that the number is the session's. A REQUEST has
//!   a stamp of its own. A RELEASE has at most the highest that is reserved, so it may end requests of earlier
//!   sessions ([`may_say`]).
//! - What a vote says goes to the session that has the number now, if it is about a stamp above that session's base:
//!   nobody hears of a request of an earlier session ([`hears`]).
//! - A session is known by the row of its number, may claim the number, or is over ([`standing_of`]). A grant may be let
//!   go once its session is silent, gone, or followed by another one ([`may_let_go`]).
//! - All that changed is saved in one write, and then the letters leave. A letter may leave before if it says what is saved
//!   already.
//!
//! The host keeps the votes and the rows, each under a key, and makes these calls for the one that a message
//! names.
//!
//! # What is proved
//!
//! - Each LOCKED that ever leaves goes to a session from which this voter took a REQUEST for that lock, of that number
//!   and stamp, and saved that ([`letters_reach_who_asked`]).
//! - The process is, lock by lock, a node of `voter_node` with a life of its own: so laws on such lives, as those of
//!   `passes`, hold for each lock ([`locks_run_as_nodes`]). Each letter has one of the messages that this node sends, so
//!   nothing leaves that was not saved ([`letters_are_given_out`]).
//! - A new voter begins as these laws ask ([`new_voters_begin`]).
//! - **A host may save less.** The letters of a lock may leave with no save while its vote has the same least as on the
//!   disk ([`must_save`](voter_node::must_save)). The laws above hold of such a host, too
//!   ([`processes_may_leave_saves_out`]), and one that saves all is such a host ([`hosts_may_save_all`]). It may go by what
//!   each step changes ([`unchanged_votes_need_no_save`]).
//! - Letters do leave. Whoever gets the vote is told with the next save or before ([`new_grants_are_told`]), a REQUEST of a
//!   free vote gets it ([`granted_requests_are_told`]), and one that comes again is answered with no save
//!   ([`repeated_requests_need_no_save`]). What these laws ask of a vote stays so ([`votes_stay_sound`]).
//!
//! A node here refuses a message while 254 wait for a save. What a host says beside the letters, as of its rows, is not
//! in these laws.
//!
//! Depends on `session_rows`, `voter_node`, `voter`, `sessions`, `message` and `numbers`.
#![tactic(auto)]

mod laws;
mod letters;
mod thrift;

pub use laws::{
    letters_are_given_out, letters_have_what_is_heard, letters_reach_who_asked, locks_run_as_nodes,
    new_voters_begin,
};
pub use letters::{Standing, hearer, hears, may_let_go, may_say, standing_of, subject};
pub use thrift::{
    granted_requests_are_told, hosts_may_save_all, new_grants_are_told,
    processes_may_leave_saves_out, repeated_requests_need_no_save, unchanged_votes_need_no_save,
    votes_stay_sound,
};
