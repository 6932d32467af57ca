//! Tests of histories through public calls: with crashes, with wrong rules, and with lost messages.
//! This crate has nothing but tests.
//!
//! - `crashes` has runs with crashes: where less survives than has to, two clients are inside.
//! - `restarts` has a thousand hostile schedules in which voters and clients are saved, forget and restart.
//! - `guards` has runs with grants that are let go, and with voters and clients without their states: two
//!   clients may be inside, and what a guard does with their passes.
//! - `wrong_rules` has a history for each of five wrong rules, which are in `rules`.
//! - `ways_in` has worlds in which messages were lost, and who then gets in.
//!
//! All but the last are played in the `World` of `play`, whose voters and clients are in `saved`: there the
//! automata run without the crate `world`, and each restart is by the numbers that were saved.
#![tactic(auto)]

#[cfg(test)]
mod crashes;
#[cfg(test)]
mod guards;
#[cfg(test)]
mod play;
#[cfg(test)]
mod restarts;
#[cfg(test)]
mod rules;
#[cfg(test)]
mod saved;
#[cfg(test)]
mod ways_in;
#[cfg(test)]
mod wrong_rules;
