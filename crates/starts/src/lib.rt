//! The start of a voter among the other voters: so that no two processes of one voter give the same
//! grant.
//!
//! Each voter keeps, for each *place*, who the voter there is: a [`Peer`] with the identity of its
//! state, how often that was made again, how often it started, the process that started last, and
//! its *ceiling*. A voter gives no grant with a greater number. A process that starts tells the
//! others so. They keep it, or refuse another voter in its place, an older copy of its state, and a
//! second process that started as often ([`Peer::meets`]). They answer which ceiling they knew.
//!
//! Then the process asks them to keep a ceiling above all that is known, and serves once they, with
//! it, contain a quorum. It gives grants above that *floor*, and up to the ceiling. Before those
//! are used it asks for the next ceiling. A [`Start`] is this automaton. Its host sends and
//! receives, knows the time, and says by the plans which voters contain a quorum.
//!
//! The calls are the steps of `specs/Peers.antt` and `specs/Starts.antt`. Both are saved as numbers
//! of 64 bits, and restored as they were (`specs/Saved.antt`). No call takes memory.
//!
//! # What is proved
//!
//! Of one place, and the voters that keep it (`specs/Worlds.antt`): processes start from any copies
//! of the state, any number of them run, and messages are late, repeated or lost. Each of these
//! voters saves before it answers, and may crash. **None of them loses its state, or begins anew
//! with an older copy.**
//!
//! - A process gives above an earlier one, if some voter says so to both: it keeps the ceiling of
//!   the earlier one, and said to the later one which ceiling it knew, before that served
//!   ([`later_processes_give_above`]).
//! - No number of a grant is given by two processes, if some voter keeps the ceilings under which
//!   both give, and said to both which ceiling it knew ([`no_grant_is_given_by_two_processes`]).
//! - A voter that took a process refuses each other one that did not start later
//!   ([`older_processes_are_refused`]).
//! - The sets of a process have voters that said so ([`sets_have_who_said_so`]).
//! - What these ask for can be had ([`an_older_copy_serves_above`]).
//!
//! The first two need a voter that both know. Two quorums meet, but they may meet in the voter of
//! the place alone.
//!
//! Depends on `numbers`, and the kit's `thiserror`.
#![tactic(auto)]

mod fault;
mod laws;
mod peer;
mod saved;
mod start;

pub use fault::StartFault;
pub use laws::{
    an_older_copy_serves_above, later_processes_give_above, no_grant_is_given_by_two_processes,
    older_processes_are_refused, sets_have_who_said_so,
};
pub use peer::Peer;
pub use saved::{PEER_WORDS, START_WORDS, identity_of};
pub use start::{Answers, Start, Turn};
