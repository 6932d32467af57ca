//! Tests of running threads and of their records through public calls. This crate has nothing but
//! tests.
//!
//! - `clusters` drives clusters for `drives`, in which the members' plan is also exchanged for another, and
//!   for `gates` and `gate_order`, which look when a gate is called.
//! - `waits` looks when a member of a drive yields, sleeps and reminds.
//!
//! What contracts determine is not tested again, except by worked examples.
#![tactic(auto)]

#[cfg(test)]
mod clusters;
#[cfg(test)]
mod drives;
#[cfg(test)]
mod gate_order;
#[cfg(test)]
mod gates;
#[cfg(test)]
mod waits;
