//! Tests of boards, of the nodes on them, and of running clusters, through their public calls. This crate
//! has nothing but tests.
//!
//! - `boards` has the vote and the register of one voter.
//! - `nodes` has the node of each voter serve each client.
//! - `scripts` plays calls of members on one thread, each with what it has to return.
//! - `closes` tries to close clusters with a member missing or not idle.
//! - `largest` has the most members pass that there can be.
//! - `losses` delivers and posts messages that are lost, and looks at what is counted.
//! - `sleeps` has members sleep, and messages come.
//! - `forged` has members pass in threads, while other threads deliver and post messages that nobody would
//!   send.
//!
//! What contracts determine is not tested again, except by worked examples.
#![tactic(auto)]

#[cfg(test)]
mod boards;
#[cfg(test)]
mod closes;
#[cfg(test)]
mod forged;
#[cfg(test)]
mod largest;
#[cfg(test)]
mod losses;
#[cfg(test)]
mod nodes;
#[cfg(test)]
mod scripts;
#[cfg(test)]
mod sleeps;
