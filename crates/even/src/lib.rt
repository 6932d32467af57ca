//! An order of a cycle of weights that is even from the first ticket.
//!
//! A [`Cycle`](dealer::Cycle) goes by rounds. Whole cycles use each quorum as often as its weight
//! says, but within one some voters may be used far more than others. An [`EvenCycle`] is a second
//! order, for a plan or any other weights. Its places are the quorums, each as often as its weight, one quorum
//! after another. Ticket x stands for the quorum at place `x * stride`, counted round the places.
//! The stride has no divisor in common with the cycle's length, so any tickets of one cycle in a row
//! use each place once.
//!
//! The [`Slack`] says how even that is: any n tickets in a row, from any first ticket, use no voter
//! more often than n times the load plus the slack, times the voter's capacity. If all capacities are
//! 1, no smaller slack has this property; otherwise no smaller one over the same denominator has it.
//! An even cycle is made by trying some strides, and keeps the first one of smallest slack.
//!
//! ```text
//! let Ok(cycle) = EvenCycle::of(alloc, plan.into_weights()) else { .. };
//! let slack = cycle.slack();                 // of any five of nine voters: 770/126, about 6.1
//! let quorum = cycle.quorum_at(ticket);      // ticket, ticket + 1, ..
//! ```
//!
//! Proved: whole cycles from any first ticket are what [`Cycle`](dealer::Cycle)'s whole cycles are,
//! also those of several processes that each begin at a ticket of their own
//! ([`whole_cycles_begin_anywhere`]); and the slack. Not proved: that some other stride or order has
//! no smaller slack.
//!
//! Depends on `certificate`, whose [`Weights`](certificate::Weights) it takes, on definitions of `dealer`,
//! and on `quorum_set`, `divisor` and `numbers`.
#![tactic(auto)]

mod cycle;
mod laws;
mod leads;
mod places;
mod slack;
mod strides;

pub use cycle::EvenCycle;
pub use laws::{even_orders_are_one, slacks_add_up, whole_cycles_begin_anywhere};
pub use slack::Slack;
