//! Up to when the votes of a session count: what a session keeps of each voter, and of each voter's vote for a lock.
//!
//! A voter lets the vote of a session go that is silent for a TTL. So a vote counts only for a span after a heartbeat left that
//! its voter acknowledged (Gray and Cheriton, "Leases", SOSP 1989). A session keeps a [`VoterLease`] of each voter, and of each
//! lock and voter a [`Vote`]. A lock is held up to the first end of its quorum's votes ([`Vote::until`]).
//!
//! Each message of a voter says its [`Incarnation`]. What one incarnation acknowledges counts for the votes that were taken from
//! it, and for no others. So no late word revives a vote that the voter let go. A voter that starts again may have lost what it
//! knew: it gives the vote again to whoever says that he is inside, and that renews the vote if it counts still.
//!
//! The calls are the steps of `specs/Leases.antt`. Times are nanoseconds of one clock of the session that never falls. No call
//! takes memory.
//!
//! # What is proved
//!
//! - Whoever is told to work by these calls, works in the sense of `working`, whatever messages are late, lost, repeated or out of
//!   order ([`who_is_told_to_work_works`]).
//! - So at most one request of one session is told to work, by clocks whose rates differ by a bound
//!   ([`at_most_one_is_told_to_work`]).
//! - What these ask for can be had ([`a_session_is_told_to_work`], [`another_session_is_told_to_work`]).
//! - A lease and a vote that are saved are restored as they were.
//!
//! Depends on `working` and `lease_clock`.
#![tactic(auto)]

mod incarnation;
mod laws;
mod lease;
mod saved;
mod vote;

pub use incarnation::Incarnation;
pub use laws::{
    a_session_is_told_to_work, another_session_is_told_to_work, at_most_one_is_told_to_work,
    who_is_told_to_work_works,
};
pub use lease::{LEASE_WORDS, VoterLease};
pub use vote::{Locked, Taken, VOTE_WORDS, Vote};
