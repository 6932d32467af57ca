//! The even cycle of weights.
ghost use Rattle.std.specs.Prelude.{◌≡◌, ◌<◌, ◌≤◌, length, IfOk};
ghost use Rattle.numbers.specs.Bounds.{max_cycle};
ghost use Rattle.certificate.specs.Certificates.{AreWeights, cycle_len};
ghost use Rattle.even.specs.EvenCycles.{even_quorum, IsFair};
ghost use Rattle.even.specs.Slacks.{IsExcess, IsSlack};
ghost use Rattle.even.specs.Strides.{ends_of, strides_of, with_stride, IsFirstBest};

use crate::places::{ends_of, quorum_of_place};
use crate::slack::{Slack, unit_of};
use crate::strides::{Choice, best_of};
use certificate::Weights;
use std::alloc::{AllocError, Global};
use std::marker::Model;

/// Weights, and an even order of their cycle. Contracts see the weights and the stride.
#[derive(Drop)]
pub struct EvenCycle {
    weights: Weights,
    /// Where the places of each quorum end.
    ends: Vec<u64>,
    stride: u64,
    /// The smallest number that the slack may have as its numerator.
    excess: u64,
}

impl Model for EvenCycle {
    ghost use Rattle.even.specs.EvenCycles.{EvenOrder};
    ghost use Rattle.even.specs.Strides.{IsEvenCycle};

    ghost Value = { EvenOrder };

    ghost view = { λ c. record { weights = c.weights; stride = c.stride } };

    ghost invariant = { λ c. IsEvenCycle (record { weights = c.weights; stride = c.stride }) c.ends.items c.excess };
}

/// Returns where the places of each quorum end, and the stride of smallest excess.
fn chosen(alloc: Global, weights: &Weights) -> Result<(Vec<u64>, Choice), AllocError>
    ensures ends { IfOk result (λ kept. kept.0.items ≡ ends_of weights.now.quorum_weights) }
    ensures short { IfOk result (λ kept. kept.1.stride ≤ max_cycle) }
    ensures fair { IfOk result (λ kept. IsFair (with_stride weights.now kept.1.stride)) }
    ensures excess { IfOk result (λ kept. IsExcess (with_stride weights.now kept.1.stride) kept.1.excess) }
    ensures first { IfOk result (λ kept.
        IsFirstBest (strides_of (cycle_len weights.now)) (with_stride weights.now kept.1.stride)) }
{
    let ends = ends_of(alloc, weights)?;
    let choice = best_of(alloc, weights, &ends)?;
    Ok((ends, choice))
}

impl EvenCycle {
    /// Returns the even cycle of weights. It keeps one number for each quorum.
    ///
    /// Tries stride 1 and the strides next to 0.618 times the cycle's length that have no divisor in
    /// common with it: 12 if the length is at most 250,000, and fewer, but at least 2, if it is
    /// longer. For each it goes twice along one cycle with each voter, and keeps the first stride
    /// of smallest slack. So weights have one even cycle ([`even_orders_are_one`](crate::even_orders_are_one)).
    ///
    /// Fails only if it runs out of memory. While it runs, it needs memory for one number for each
    /// place of the cycle.
    pub fn of(alloc: Global, weights: Weights) -> Result<EvenCycle, AllocError>
        ensures weights { IfOk result (λ cycle. cycle.weights ≡ weights) }
        // Of the strides that are tried, none has a smaller slack, and those before it have a greater one.
        ensures first { IfOk result (IsFirstBest (strides_of (cycle_len weights))) }
        ensures fair { IfOk result IsFair }
        ensures sizes { IfOk result (λ cycle. AreWeights cycle.weights) }
    {
        // Called for its contract alone, which says what is proved of all weights.
        let _ = weights.ratio();
        let (ends, choice) = chosen(alloc, &weights)?;
        Ok(EvenCycle {
            weights,
            ends,
            stride: choice.stride,
            excess: choice.excess,
        })
    }

    /// Returns the weights.
    pub fn weights(&self) -> &Weights
        ensures value { result.now ≡ self.now.weights }
        ensures sizes { AreWeights self.now.weights }
    {
        &self.weights
    }

    /// Returns the stride. It has no divisor in common with the length of a cycle.
    pub fn stride(&self) -> u64
        ensures value { result ≡ self.now.stride }
        ensures fair { IsFair self.now }
    {
        self.stride
    }

    /// Returns the number of the quorum that a ticket stands for, by binary search. Takes no memory.
    pub fn quorum_at(&self, ticket: u64) -> usize
        ensures value { result ≡ even_quorum self.now ticket }
        ensures in_range { result < length self.now.weights.system.quorums }
        ensures sizes { AreWeights self.now.weights }
    {
        let len = self.weights.cycle_len();
        quorum_of_place(&self.ends, ticket % len * self.stride % len)
    }

    /// Returns the slack: any n tickets in a row use no voter more often than n times the load plus
    /// the slack, times the voter's capacity. No smaller numerator has this property.
    pub fn slack(&self) -> Slack
        ensures { IsSlack self.now result }
    {
        Slack {
            excess: self.excess,
            unit: unit_of(&self.weights),
        }
    }
}
