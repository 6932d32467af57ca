//! Rows of client numbers at voters that lose their states, and are made again by what others tell them.
//!
//! A voter lends a client number to a session, and reserves stamps for it (`sessions`). If it loses its state, others tell it their rows:
//! it learns each one by [`relearn`].
//!
//! # What is proved
//!
//! - **No stamp of a number is used by two sessions, also if voters lose their states** ([`stamps_are_used_once`]). Each session asks only
//!   voters that told it that the stamp is its own, and none of these words knew of a later run of another voter than that one's word is of.
//! - In each set of voters from which a voter may be made again, one knows the run that it had ([`runs_are_known`]).
//! - What is learned by `relearn` is kept: what was spent by either row stays so ([`what_is_relearned_is_kept`]), and so it is with many rows,
//!   one after the other ([`rows_that_learn_all_keep_all`]).
//! - Voters may be made again from any quorum without them ([`quorums_are_recoveries`]).
//! - The events of the world of `sessions` lead here to what they lead to there ([`events_without_losses_are_those_of_sessions`]). So of a
//!   list of such events all laws of `sessions` hold.
//! - The premises can be met: a voter loses its state between the requests of two sessions ([`a_voter_is_made_again`]).
//!
//! The definitions are in `specs/Voters.antt`. They are about one number.
//!
//! Depends on `session_rows`, `sessions` and `numbers`.
#![tactic(auto)]

mod laws;
mod relearning;

pub use laws::{
    a_voter_is_made_again, events_without_losses_are_those_of_sessions, quorums_are_recoveries,
    rows_that_learn_all_keep_all, runs_are_known, stamps_are_used_once, what_is_relearned_is_kept,
};
pub use relearning::relearn;
