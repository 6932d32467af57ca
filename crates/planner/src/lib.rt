//! Plans for coteries: finds weights of quorums that load the busiest voter least, for the voter's
//! capacity, and certifies them.
//!
//! `plan` first tries all weights 1. If all voters have the same capacity, these are a certificate
//! if and only if the coterie is uniform. If they are none, `plan` tries the weights that `basis`
//! finds, and then those of the simplex method in exact numbers. With at most 20 voters these come
//! first. Each attempt is checked by `certificate::check`, so a plan that is returned is optimal however
//! it was found. Whether a plan is found for any other coterie is left to the searches.
//!
//! [`divide`] brings weights to lowest terms.
//!
//! This crate depends on `certificate`, `basis`, `simplex`, `quorum_set` and `numbers`.
//!
//! ```text
//! // A hub 0 with three rims: {0, 1}, {0, 2}, {0, 3} and {1, 2, 3}.
//! let capacities = [1, 1, 1, 1];
//! assert_eq!(rt; plan(alloc, &wheel, &capacities)?.load(), (3, 5));
//! ```
#![tactic(auto)]

mod fault;
mod laws;
mod lowest;
mod search;

pub use fault::{Cause, PlannerFault};
pub use laws::ones_certify_uniform_coteries;
pub use lowest::divide;
pub use search::plan;
