//! The coteries of schedules, with their plans.
ghost use Rattle.std.specs.Prelude.{◌≤◌};

use crate::plans::{bridged_plans, grid_plan, majority_plan, wheel_plan, whole_plan};
use certificate::Plan;
use dealer::Plans;
use std::alloc::Global;

/// A coterie with an optimal plan, or two with a bridge from the first to the second.
#[derive(Clone, Copy)]
pub enum Kind {
    /// Any two of three voters.
    Majority,
    /// Two rows of two voters: any three of four.
    Grid,
    /// A hub and three rims. The quorum of all rims is used twice as often as each of the others.
    Wheel,
    /// Any two of three voters, and then all three.
    MajorityThenAll,
    /// Any three of four voters, and then a hub and three rims. Two of four voters meet any three.
    GridThenWheel,
}

/// Returns this plan alone, if there is one.
fn single(plan: Option<Plan>) -> Option<Plans> {
    Some(Plans::single(plan?))
}

impl Kind {
    /// Returns how many voters there are.
    pub fn voters(self) -> u8
        ensures some { 1 ≤ result }
        ensures few { result ≤ 4 }
    {
        match self {
            Kind::Majority | Kind::MajorityThenAll => 3,
            Kind::Grid | Kind::Wheel | Kind::GridThenWheel => 4,
        }
    }

    /// Returns whether there are two plans.
    pub fn are_two(self) -> bool {
        matches!(self, Kind::MajorityThenAll | Kind::GridThenWheel)
    }

    /// Returns the plans, or `None` if memory runs out.
    pub fn plans(self, alloc: Global) -> Option<Plans> {
        match self {
            Kind::Majority => single(majority_plan(alloc)),
            Kind::Grid => single(grid_plan(alloc)),
            Kind::Wheel => single(wheel_plan(alloc)),
            Kind::MajorityThenAll => bridged_plans(alloc, majority_plan(alloc), whole_plan(alloc)),
            Kind::GridThenWheel => bridged_plans(alloc, grid_plan(alloc), wheel_plan(alloc)),
        }
    }
}
