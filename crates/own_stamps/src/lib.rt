//! Under which stamps a session may ask a voter: what it keeps of what the voter told it.
//!
//! A voter tells a session the base of its stamps, and up to which stamp it reserved them (`session_rows`). A session asks a voter
//! only under a stamp that is its own there: above the base, and reserved. It keeps [`OwnStamps`] of each voter: the greatest base
//! and the greatest stamp that the voter told it, in any order. A voter that lost its state is made again, in its next *run* (`lost_rows`).
//! Once some voter says so, nothing counts that it told in an earlier run.
//!
//! It asks a quorum under a stamp only if the stamp is its own at each voter of the quorum ([`may_ask`]), by what it keeps of all voters,
//! voter by voter. [`owners`] are the voters at which it is.
//!
//! The calls are the steps of `specs/Stamps.antt`. A set of voters is a word: voter v is in it if bit v is 1. No call takes memory.
//!
//! # What is proved
//!
//! - **No stamp is used by two sessions, if each asks only quorums that it may ask by what it keeps** ([`own_stamps_are_used_once`]).
//!   Answers may be lost, late or repeated, and voters crash, or lose their states. The premises on voters are those of `lost_rows`.
//! - Each voter of a quorum that a session may ask told it that the stamp is its own, and none of them knew then of a later run of another
//!   one ([`who_may_ask_was_told`]). What a session keeps by the calls is what it heard of answers that left voters
//!   ([`sessions_keep_what_they_heard`]).
//! - A quorum may be asked if and only if it has no voter beside the owners ([`quorums_of_owners_may_be_asked`]).
//! - A stamp that is a session's own by what it keeps of a voter is one of which the voter told it so ([`own_stamps_were_told`]).
//! - What was told stays: a stamp between what the voter told is the session's own, while no greater base is told
//!   ([`told_stamps_are_own`]).
//! - What a voter told in an earlier run counts no more ([`earlier_runs_count_no_more`]).
//! - The premises can be met: two sessions ask, and a voter loses its state between them ([`two_sessions_ask`]).
//! - Each call returns exactly what is defined, and what is saved is restored as it was.
//!
//! Depends on `lost_rows`, `sessions`, `quorum_set` and `numbers`.
#![tactic(auto)]

mod laws;
mod quorums;
mod stamps;

pub use laws::{
    earlier_runs_count_no_more, own_stamps_are_used_once, own_stamps_were_told,
    quorums_of_owners_may_be_asked, sessions_keep_what_they_heard, told_stamps_are_own,
    two_sessions_ask, who_may_ask_was_told,
};
pub use quorums::{may_ask, owners};
pub use stamps::{OwnStamps, SAVED_WORDS};
