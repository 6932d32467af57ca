//! Tests of the protocol through public calls, and of the lock under hostile schedules. This crate has
//! nothing but tests.
//!
//! - `messages` has lines that are read, and lines that are not.
//! - `voters` and `requesters` have worked examples of the two automata, `worlds` of both together:
//!   there a plan is exchanged, too. `test_program` has more worlds, as scripts.
//! - `schedules` has a generator with a known seed draw long lists of steps (`schedule`). In these,
//!   clients ask, leave, give up and remind, and messages arrive in order, late, again, before they are
//!   sent, or never. In further lists a plan is exchanged for another at a random place, also while a
//!   client is inside.
//!
//! Each list is run twice: by [`run`](world::run) at once, and step by step as it is drawn (`fold`). Both
//! have to make the same messages, the same events and the same refusals. A separate checker tests
//! that at most one client is inside. `world` proves this of every list; here it is seen of two thousand.
//! The tests also count what the lists tried, so that none passes because nothing happened.
//! `test_histories` has a thousand schedules in which voters and clients restart.
//!
//! What contracts determine is not tested again, except by worked examples of the definitions.
//!
//! The tests are not in the crates that they test, so these are proved once, and not again together
//! with their tests.
#![tactic(auto)]

#[cfg(test)]
mod fold;
#[cfg(test)]
mod messages;
#[cfg(test)]
mod requesters;
#[cfg(test)]
mod schedule;
#[cfg(test)]
mod schedules;
#[cfg(test)]
mod voters;
#[cfg(test)]
mod worlds;
