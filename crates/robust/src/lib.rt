//! Weights for when one or two voters are down: their load stays near the best load without these.
//!
//! A plan has the smallest load while all voters are up. If some are down, the tickets that are left may load
//! the busiest voter far more than a new plan would. [`weights_for_losses`] finds weights whose load is a
//! little above the best, and that keep this *regret* small when any one voter is down, or any one or two.
//!
//! The regret is at most r if the weights satisfy a linear program. It has a row for each failure and each
//! voter that is up then, and a row for each voter that keeps the load at a limit. The search plays this
//! program as a game of quorums against rows, in floating point. Each quorum is used less the more its rows
//! weigh, and each row weighs more the less it is satisfied, by powers (Freund and Schapire, *Adaptive game
//! playing using multiplicative weights*, Games and Economic Behavior 29, 1999). Each side takes what it saw
//! last as what comes next. What the quorums did on average are the shares, which are rounded to whole
//! tickets. What the rows weighed on average are multipliers, which show how small a regret can be.
//!
//! Nobody has to trust that: load, regret and bound are computed exactly from the rounded numbers.
//!
//! Proved: the weights are of the coterie and the capacities, a cycle has at most as many tickets as were
//! asked for, and the load is at most the limit, which is so many thousandths above that of weights that
//! `near` finds. The best load of each failure is that of some weights of what is left, and the smallest
//! one if the failure says so. Not proved: how small the regret is.
//!
//! Depends on `near`, `losses`, `failures`, `certificate`, `quorum_set` and `numbers`.
//!
//! ```text
//! let found = weights_for_losses(alloc, &coterie, &capacities, 1000, 20, Down::One)?;
//! regret_of(&found.weights, &found.failures);
//! regret_bound(&found.weights, found.limit, &found.multipliers, &found.failures);
//! ```
#![tactic(auto)]

mod columns;
mod game;
mod rows;
mod search;

pub use search::{Down, Found, weights_for_losses};
