//! A lock whole: its sessions and its voters, by the automata of both: laws alone.
//!
//! `client_node` has one lock of a session as one automaton: its client, its votes, and the calls for the lock. `working_votes` has the
//! automata of all voters, also in their quiet times. The laws of each leave the other side to what may happen in `working`. Here
//! the steps of all sessions and the turns of all voters are the same events, and the premises of both stand in one law.
//!
//! # What is proved
//!
//! - Whoever works by the calls of its lock has the votes of a quorum, by the automata of its voters: of each voter that is not quiet
//!   the automaton's grant is to its request ([`who_works_has_the_votes_of_a_quorum`]). Which votes count, and which request gets a
//!   vote, is what the automata do: no premise says it.
//! - The premises can be met together: a session asks a voter, whose automaton takes the REQUEST that the session's client
//!   sent. The client takes the LOCKED that the automaton said, and a call works ([`a_call_works_by_votes`]).
//!
//! That at most one call works is `client_node::at_most_one_works`. It asks the same of each of two sessions, and nothing of the
//! automata of voters.
//!
//! Depends on `client_node`, `working_votes`, `callers`, `vote_leases`, `working`, `lease_clock`, `quiet_time`, `voter`, `requester`,
//! `message` and `numbers`.
#![tactic(auto)]

mod laws;

pub use laws::{a_call_works_by_votes, who_works_has_the_votes_of_a_quorum};
