//! Small coteries and plans that tests and measurements share.
//!
//! | Plan | Voters | Quorums | Load |
//! |---|---|---|---|
//! | [`lone_plan`] | 1 | the voter alone | 1/1 |
//! | [`majority_plan`] | 3 | any two | 2/3 |
//! | [`grid_plan`] | 2 by 2 | a row and a column, which are any three | 3/4 |
//! | [`whole_plan`] | 3 | all three | 1/1 |
//! | [`wheel_plan`] | a hub and three rims | the hub with a rim, or all rims | 3/5 |
//!
//! In these plans each voter has capacity 1. [`plan_of`] makes others, and [`plan_with`] those with
//! capacities. Nothing but safety is proved here, and what capacities are. What is returned is a plan
//! because `certificate` checked it.
//!
//! [`bridged_plans`] puts two of them together, between which a plan is exchanged. [`Kind`] names those
//! that schedules use.
//!
//! Depends on `numbers`, `quorum_set`, `certificate` and `dealer`.
#![tactic(auto)]

mod kinds;
mod plans;

pub use kinds::Kind;
pub use plans::{
    are_capacities, bridged_plans, coterie_of, even_plan, grid_plan, lone_plan, majority_plan,
    plan_of, plan_with, set_of, sets_of, unit_capacities, wheel_plan, whole_plan,
};
