//! Weights that are near the best, for coteries whose plan has too large numbers or too long cycles.
//!
//! The planner finds an optimal plan, or none: the exact weights of a large irregular coterie may
//! sum to more than 1,000,000. [`near`] finds weights with cycles of a wanted length for each coterie,
//! and [`weights`] takes those of a plan if its cycle is short enough. They have a load, and a bound: no
//! weights of the coterie have a load below it. So anybody sees how far the load is above the smallest
//! possible one, at most. In tests with 90 random coteries of 20 to
//! 64 voters, two thirds of them with random capacities, this was less than 0.35 % for cycles of at
//! most 1,000 tickets, and less than 0.02 % for cycles of at most 100,000.
//!
//! The bound is made of weights of the voters, by the duality of linear programs (Naor and Wool,
//! SIAM J. Comput. 27(2), 1998).
//!
//! The search of `basis` looks for shares of the quorums, in floating point, and they are rounded to whole
//! tickets. Nobody has to trust that: load and bound are computed exactly from the rounded weights.
//!
//! Proved:
//!
//! - The weights are of the coterie and the capacities, and a cycle has at most as many tickets as were
//!   asked for. By the contract of [`Weights`](certificate::Weights), no weights of them have a load
//!   below the bound.
//! - The load is at most that of weights 1 of all quorums, if these are not too many.
//! - No number above 1 divides all weights of the voters.
//! - [`weights`] returns weights 1 of all quorums if these are optimal, and not too many.
//! - [`is_within`] returns whether the load is so near the bound, exactly. [`weights_within`] returns `Ok`
//!   for such weights alone.
//!
//! Not proved: how near the load is to the bound.
//!
//! Depends on `planner`, `basis`, `certificate`, `quorum_set` and `numbers`.
//!
//! ```text
//! let weights = near(alloc, &coterie, &capacities, 1000)?;
//! weights.load();                 // (401, 780)
//! weights.bound();                // (54933, 99998)
//! ```
#![tactic(auto)]

mod search;
mod shares;
mod tickets;

pub use search::{is_within, near, weights, weights_within};
pub use tickets::tickets_in;
