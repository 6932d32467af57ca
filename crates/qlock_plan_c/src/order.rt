//! The order of tickets.
ghost use Rattle.std.specs.Prelude.{◌≡◌, ◌<◌, ◌+◌, ◌≤◌, IfOk, length};
ghost use Rattle.numbers.specs.Bounds.{max_tickets};
ghost use Rattle.qlock_plan_c.specs.Orders.{mask_of, masks_of, plan_of, quorum_by};

use certificate::Weights;
use dealer::Cycle;
use even::EvenCycle;
use std::alloc::{AllocError, Global};

/// An order of tickets.
#[derive(Drop)]
pub enum Order {
    /// By rounds, of a plan: the cycle of `dealer`.
    Rounds(Cycle),
    /// The even cycle, of any weights.
    Even(EvenCycle),
}

impl Order {
    /// Returns the mask of a ticket's quorum: bit i is 1 if voter i is a member.
    fn mask(&self, ticket: u64) -> u64
        ensures { result ≡ mask_of (plan_of self.now) (quorum_by self.now ticket) }
    {
        match self {
            Order::Rounds(cycle) => mask_in(cycle.plan().weights(), cycle.quorum_at(ticket)),
            Order::Even(cycle) => mask_in(cycle.weights(), cycle.quorum_at(ticket)),
        }
    }

    /// Returns the masks of tickets in a row, from the first one on.
    pub fn masks(&self, alloc: Global, first: u64, count: usize) -> Result<Vec<u64>, AllocError>
        requires { first + count ≤ max_tickets }
        ensures { IfOk result (λ masks. masks.items ≡ masks_of self.now first count) }
    {
        let mut masks = Vec::with_capacity(alloc, count)?;
        for i in 0..count {
            masks.push(self.mask(first + i as u64))?;
        }
        Ok(masks)
    }
}

/// Returns the mask of a quorum.
fn mask_in(weights: &Weights, quorum: usize) -> u64
    requires { quorum < length weights.now.system.quorums }
    ensures { result ≡ mask_of weights.now quorum }
{
    weights.coterie().quorum(quorum).bits()
}
