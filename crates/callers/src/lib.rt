//! The calls of one process for one lock: which wait, which one has the lock, and what the session has to do for them.
//!
//! Calls come and go, are handed the lock, and give it back. [`Calls`] counts those that wait, and knows the one that has the lock.
//! The host keeps them in their order. It says in which [`Phase`] its client of the lock is, and whether its votes count, and does
//! what [`Calls::next`] says: ask, give up, leave, or hand the lock to the first call that waits ([`Calls::hands`]). If a vote may be
//! somebody else's, it does what [`Calls::spoiled`] says.
//!
//! Each call has the lock under a request of its own. The session keeps that request, and so its votes, until the call gives the lock
//! back, also if the call was told that the lock may be lost: until then votes that are left keep others out.
//!
//! The calls are the steps of `specs/Calls.antt`. No call takes memory.
//!
//! # What is proved
//!
//! - One call of a session has the lock, under a request of its own ([`one_call_has_the_lock`], [`each_call_has_its_own_request`]).
//! - No request ends while a call has the lock under it ([`votes_are_given_back_after_the_call`]), and a call is told once that the lock
//!   may be lost ([`lost_is_said_once`]).
//! - Whoever waits is served ([`who_waits_is_served`], [`what_is_next_may_be_handed`]).
//! - **Of all calls of all processes at most one works**, from when the lock was handed to it until it gives it back, up to `stop` after
//!   the time up to which it was told that it has the lock ([`a_call_that_works_has_its_votes`], [`at_most_one_call_works`]). The premises
//!   can be met ([`a_call_works`], [`another_call_works`]).
//! - Calls that are saved are restored as they were.
//!
//! Depends on `vote_leases`, `working` and `lease_clock`.
#![tactic(auto)]

mod calls;
mod fault;
mod laws;

pub use calls::{Calls, Holder, Next, Phase, SAVED_WORDS};
pub use fault::CallFault;
pub use laws::{
    a_call_that_works_has_its_votes, a_call_works, another_call_works, at_most_one_call_works,
    each_call_has_its_own_request, lost_is_said_once, one_call_has_the_lock,
    votes_are_given_back_after_the_call, what_is_next_may_be_handed, who_waits_is_served,
};
