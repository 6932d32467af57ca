//! What weights bear: tickets, load and regret when voters are down.
//!
//! A client asks all members of one quorum. If one of them is down, it takes its next ticket. So the
//! weights in force are those of the quorums without a voter that is down, in their old proportions.
//!
//! - [`tickets_left`] returns how many tickets of a cycle are left.
//! - [`load_left`] returns the load of these tickets.
//! - [`worst_one_down`] returns the greatest load that is left when one voter is down.
//! - [`bears_losses`] returns whether some ticket is left whichever voters are down, if a quorum is.
//! - [`regret_of`] compares it with the best load without the same voters, for a list of [`Failure`]s.
//! - [`regret_bound`] returns what the regret of all weights is at least, if their load is at most a limit.
//!   Multipliers show it, by the duality of linear programs.
//!
//! # What is proved
//!
//! - **The figures are exact**: tickets, load, worst load and regret are those of the definitions.
//! - **One loss costs at most the load** ([`one_loss_costs_at_most_the_load`]), for capacities 1: if
//!   one voter is down, the share of tickets that are lost is at most the load. Some voter's loss
//!   loses exactly this share. No other weights have a smaller worst loss than a plan.
//! - **No regret is below the bound** ([`no_regret_is_below_the_bound`]), whatever the multipliers are.
//!   That the given best loads are the best is not proved here.
//!
//! Depends on `certificate`, `failures`, `quorum_set`, `divisor` and `numbers`.
//!
//! ```text
//! // the plan of a wheel: the hub with each of three rims once, and all rims twice
//! weights.load();                      // (3, 5)
//! tickets_left(&weights, &hub);        // 2
//! load_left(&weights, &hub);           // Some((1, 1))
//! ```
#![tactic(auto)]

mod bearing;
mod bound;
mod failure;
mod figures;
mod laws;
mod one_down;
mod regret;

pub use bearing::bears_losses;
pub use bound::regret_bound;
pub use failure::Failure;
pub use figures::{load_left, tickets_left};
pub use laws::{no_regret_is_below_the_bound, one_loss_costs_at_most_the_load};
pub use one_down::{OneDown, worst_one_down};
pub use regret::{regret_at, regret_of};
