//! The cycles of a world's plans.
ghost use Rattle.std.specs.Prelude.{◌≡◌, ◌≤◌, IfOk, is_some, length};
ghost use Rattle.dealer.specs.Plans.{ArePlans};
ghost use Rattle.world_state.specs.States.{plans_of};
ghost use Rattle.world_state.specs.Steps.{dealing_of, quorum_by, quorum_dealt};

use dealer::{Cycle, Plans};
use quorum_set::{QSet, Side};
use std::alloc::{AllocError, Global};

/// The cycle of each plan.
#[derive(Drop)]
pub struct Cycles {
    /// The cycle of the plan in use first.
    pub first: Cycle,
    /// The cycle of the plan that it may be exchanged for.
    pub second: Option<Cycle>,
}

/// Returns the quorum that a ticket of this cycle stands for.
fn quorum_of(cycle: &Cycle, ticket: u64) -> &QSet
    ensures value { result.now ≡ quorum_by cycle.now ticket }
    ensures some { 1 ≤ length result.now }
{
    cycle.plan().coterie().quorum(cycle.quorum_at(ticket))
}

impl Cycles {
    /// Returns the cycles of these plans. Fails only if it runs out of memory.
    pub fn of(alloc: Global, plans: Plans) -> Result<Cycles, AllocError>
        ensures value { IfOk result (λ cycles. plans_of cycles ≡ plans) }
        ensures plans { IfOk result (λ _. ArePlans plans) }
    {
        match plans.into_parts() {
            (first, None) => Ok(Cycles {
                first: Cycle::from_plan(alloc, first)?,
                second: None,
            }),
            (first, Some((second, _))) => Ok(Cycles {
                first: Cycle::from_plan(alloc, first)?,
                second: Some(Cycle::from_plan(alloc, second)?),
            }),
        }
    }

    /// Returns how many voters there are.
    pub fn voters(&self) -> usize
        ensures { result ≡ (plans_of self.now).first.system.voters }
    {
        self.first.plan().coterie().voters()
    }

    /// Returns whether there is a second plan.
    pub fn are_two(&self) -> bool
        ensures { result ≡ is_some (dealing_of (plans_of self.now)).second }
    {
        self.second.is_some()
    }

    /// Returns the quorum that a ticket of this plan stands for. If there is no second plan, its
    /// tickets are those of the first.
    pub fn quorum(&self, side: Side, ticket: u64) -> &QSet
        ensures value { result.now ≡ quorum_dealt (dealing_of (plans_of self.now)) side ticket }
        ensures some { 1 ≤ length result.now }
    {
        match (side, &self.second) {
            (Side::Second, Some(second)) => quorum_of(second, ticket),
            _ => quorum_of(&self.first, ticket),
        }
    }
}
