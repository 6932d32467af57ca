//! The figures that pages show: of plans and other weights, of coteries, and of dealt tickets.
//!
//! The crates of words, tables, JSON and pictures take their figures from here, and promise safety alone.
//!
//! - [`totals_of`] has the load of weights and its bound, their cycle, the sums by which the load is
//!   bounded, and the sizes that bound any load. [`quorum_figures`], [`voter_figures`] and
//!   [`weight_figures`] say how often a cycle uses each quorum and each voter, and what the voters weigh,
//!   [`busy_part`] how busy a voter is, and [`slack_of`] how even the even order is.
//! - [`comparison_of`] has the figures of a coterie: how many voters and quorums there are, how many
//!   members the quorums have, the load, how many voters may fail, and the load of what is left when a
//!   group of voters fails, such as a rack ([`losses_of`]). The load is that of the plan that `planner`
//!   finds: it is the smallest possible one. If it finds none, the load is that of the weights that `near`
//!   finds, with a bound.
//! - [`dealt_tickets`] deals tickets of a plan by rounds, as `qlock deal` does, or those of any weights in
//!   the even order, as [`evenly_dealt`] does.
//! - [`share`], [`tenths`] and [`parts_above`] of `show_tables` round parts of a whole, and [`name_of`] has the
//!   name of a voter.
//!
//! # What is proved
//!
//! The figures of weights are those of the definitions in `certificate` and `known_loads`: each quorum
//! that a cycle uses is there, with its weight, the most used first, of equally used ones the smaller
//! number first. Each voter is there with its count, its capacity and its weight, and once more if it has
//! a weight. The slack is that of the even order of the weights.
//!
//! Of a coterie the numbers of voters and of quorums, the least and the greatest number of members, and
//! the groups are exact. Each load is that of some weights of the coterie, or of what is left of it, and
//! no weights have a load below the bound beside it. If a loss has no load, no quorum is left. How many
//! voters may fail is that of `show_failures`.
//!
//! The tickets and the account are those of their order, and so are stride and slack of the even one. How
//! parts are rounded is defined in `show_tables`. A voter's name is the one that the coterie's text
//! gives it.
//!
//! Depends on `certificate`, `known_loads`, `even`, `near` and `planner`, on `commands`, which deals by
//! rounds, on `show_failures` for failures and groups, and on `coterie_file` for names.
//!
//! ```
//! // Of the wheel with three rims:
//! totals_of(plan.weights()).loads.load          // 3/5
//! let figures = quorum_figures(alloc, plan.weights())?;
//! figures[0]                                    // quorum 3, of weight 2
//! comparison_of(alloc, &named)?.loads.load      // 3/5
//! ```
#![tactic(auto)]

mod account;
mod bounds;
mod comparisons;
mod deal;
mod even_order;
mod figures;
mod names;
mod sizes;
mod slacks;
mod totals;

pub use comparisons::{Comparison, Loads, Loss, comparison_of, loads_of_weights, losses_of};
pub use deal::{Dealt, Evenness, dealt_tickets, evenly_dealt};
pub use figures::{
    QuorumFigure, VoterFigure, WeightFigure, busy_part, quorum_figures, voter_figures,
    weight_figures,
};
pub use names::name_of;
pub use show_tables::{parts_above, share, tenths};
pub use slacks::slack_of;
pub use totals::{Totals, totals_of};
