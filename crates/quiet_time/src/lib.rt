//! The quiet time of a voter: after a start that may have lost what the voter knew, only who is inside gets its votes.
//!
//! A voter that was killed, or whose disk has an older copy, may have forgotten to whom it granted a vote. So it is
//! quiet for as long as a lease lasts:
//!
//! - A REQUEST is put off, unless its client says that it is inside ([`hear`] returns [`Hearing::PutOff`]).
//! - A grant from before the start is *old* until its client says that it is inside by it ([`SinceStart::is_old`]).
//!   A client that gives an old grant back does not wait on behind it: its request is over.
//! - At the end each old grant is let go ([`end`]).
//! - A vote stays closed to others while somebody waits who said in the quiet time that he is inside
//!   ([`SinceStart::is_awaited`]).
//!
//! Other lock servers have a grace period for the same reason, in which only what was held before is reclaimed: NFS
//! version 4, RFC 7530, section 9.6.2.
//!
//! This crate has no clock: its host says whether the voter is quiet.
//!
//! # What is proved
//!
//! Each call is the step of `specs/Quiet.antt`. Over any list of what may happen in the quiet time:
//!
//! - nobody gets a vote who did not say that he is inside ([`votes_go_to_those_inside`]);
//! - as it ends nobody has a vote who did not say so ([`old_votes_end`]);
//! - who has a vote, and says that he is inside, has it as the time ends ([`votes_of_those_inside_stay`]).
//!
//! A voter that forgets all but the least begins as these laws ask ([`voters_that_forget_begin`]). The vote changes as
//! that of a node of `voter_node` meanwhile, which is saved after each step ([`quiet_votes_live_as_nodes`]).
//!
//! These laws do not say how long the time is, nor that a client says so only if it is inside.
//!
//! Depends on `voter_node`, `voter`, `message` and `numbers`.
//!
//! ```
//! let mut since = SinceStart::new(voter.granted());
//! match hear(&mut voter, &mut since, is_quiet, says_inside, &message, &mut replies)? {
//!     Hearing::Taken => send(&replies),
//!     Hearing::PutOff => say_quiet(),
//! }
//! ```
#![tactic(auto)]

mod hearing;
mod laws;
mod since_start;

pub use hearing::{Hearing, end, hear};
pub use laws::{
    old_votes_end, quiet_votes_live_as_nodes, voters_that_forget_begin, votes_go_to_those_inside,
    votes_of_those_inside_stay,
};
pub use since_start::SinceStart;
