//! The votes of a voter's automaton in the law on who works: laws alone.
//!
//! `working` has a voter that gives its vote to one request at a time, and lets it go when its session is silent. Which request gets the
//! vote, and what is said then, it leaves open. The automaton of `voter` says that: it has a queue, and takes a REQUEST, a RELEASE or
//! a RELINQUISH in steps. Here each step of the automata of all voters is a few events of that law (`events_in` in
//! `specs/Turns.antt`).
//!
//! # What is proved
//!
//! - Whoever works has the vote of each voter of its quorum: the automaton's grant is to its request ([`who_works_has_the_votes`]).
//! - So does whoever is told to work by what it keeps of its votes, as `vote_leases` has it
//!   ([`who_is_told_to_work_has_the_votes`]): proved code of sessions and of voters meets in one law.
//! - Each LOCKED that an automaton says is one that left the voter in the law ([`what_is_locked_was_told`]).
//! - The premises of that law can be met together ([`a_session_is_told_to_work_by_votes`]).
//! - What these ask for can be had: a session works, works on while its voter is killed and starts again, and gives the vote back. Then the
//!   voter ends and starts, and an older copy of its state is put back ([`a_session_works_by_votes`]).
//!
//! A voter that is killed, or begins from an older copy, is quiet for a TTL, and does then what `quiet_time` says. While it is quiet it may not
//! know who has its vote. So the first two laws leave its vote out, until it serves again.
//!
//! A message that ends a grant has to be true: the session that has the grant ended the request, or gave the vote back, or the voter may
//! let the grant go. In a quiet time the voter lets none go of which it was said that its client is inside.
//!
//! Depends on `working`, `vote_leases`, `lease_clock`, `quiet_time`, `voter`, `message` and `numbers`.
#![tactic(auto)]

mod laws;

pub use laws::{
    a_session_is_told_to_work_by_votes, a_session_works_by_votes, what_is_locked_was_told,
    who_is_told_to_work_has_the_votes, who_works_has_the_votes,
};
