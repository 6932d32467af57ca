//! Tests of waiting for the lock in fair rounds. This crate has nothing but tests.
//!
//! In 1,350 schedules worlds are played in fair rounds: `duties` lists what a round owes, `rounds` plays,
//! and between the duties an adversary does anything else. A generator with a known seed draws what it
//! does. In 420 schedules more clients die after some rounds, or a voter is down, and the rounds are live
//! rounds.
//!
//! Whoever asks, and is live, is inside within the rounds that `progress` proves, and the longest waits in
//! fair rounds are those that `show_waiting` prints. A separate checker, `fair`, tests by the definition
//! that fair rounds are fair. With each of five wrong rules a client waits for longer than the bound.
#![tactic(auto)]

#[cfg(test)]
mod duties;
#[cfg(test)]
mod fair;
#[cfg(test)]
mod rounds;
#[cfg(test)]
mod rules;
#[cfg(test)]
mod tests;
#[cfg(test)]
mod waits;
