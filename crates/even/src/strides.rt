//! The strides that are tried, and the best of them.
ghost use Rattle.std.specs.Prelude.{◌≡◌, ◌⊎◌, ◌==◌, ◌*◌, ◌<◌, ◌≤◌, slice_index, filter, map, take, IfOk};
ghost use Rattle.std.specs.Int.{IsGcd};
ghost use Rattle.std.specs.List.{All, range_with_len};
ghost use Rattle.divisor.specs.Gcd.{gcd_of};
ghost use Rattle.numbers.specs.Bounds.{max_cycle};
ghost use Rattle.certificate.specs.Certificates.{cycle_len, cycle_ratio};
ghost use Rattle.even.specs.EvenCycles.{window, IsFair};
ghost use Rattle.even.specs.Leads.{IsGreatestLead};
ghost use Rattle.even.specs.Slacks.{slack_unit, IsExcess};
ghost use Rattle.even.specs.Strides.{ends_of, stride_at, strides_of, strides_tried, with_stride, IsFirstBest};

use crate::leads::greatest_lead;
use crate::places::quorum_of_place;
use crate::slack::{share_of, unit_of};
use certificate::Weights;
use divisor::gcd;
use std::alloc::{AllocError, Global};

/// A stride, and its excess.
#[derive(Clone, Copy, Drop)]
pub(crate) struct Choice {
    pub(crate) stride: u64,
    pub(crate) excess: u64,
}

/// Returns how many strides are tried besides 1: fewer for a long cycle.
fn strides_tried(len: u64) -> usize
    requires { 0 < len }
    ensures { result ≡ strides_tried len }
{
    (3_000_000 / len).min(12).max(2) as usize
}

/// Returns a number next to the golden section of the length.
fn stride_at(len: u64, turn: u64) -> u64
    requires some { 0 < len }
    requires short { len ≤ max_cycle }
    requires turn { turn < len }
    ensures value { result ≡ stride_at len turn }
    ensures below { result < len }
{
    let golden = len * 618 / 1000;
    if turn % 2 == 0 {
        (golden + turn / 2) % len
    } else {
        (golden + len - (turn + 1) / 2) % len
    }
}

/// Returns the strides that are tried besides 1.
fn near_golden(alloc: Global, len: u64) -> Result<Vec<u64>, AllocError>
    requires some { 0 < len }
    requires short { len ≤ max_cycle }
    ensures value { IfOk result (λ v. v.items
        ≡ take (strides_tried len) (filter (λ s. gcd_of s len == 1) (map (stride_at len) (range_with_len 0 len)))) }
    ensures short { IfOk result (λ v. All (λ s. s ≤ max_cycle) v.items) }
    ensures fair { IfOk result (λ v. All (λ s. IsGcd s len 1) v.items) }
{
    let most = strides_tried(len);
    let mut strides = Vec::with_capacity(alloc, most)?;
    for turn in 0..len {
        let stride = stride_at(len, turn);
        if strides.len() < most && gcd(stride, len) == 1 {
            strides.push(stride)?;
        }
    }
    Ok(strides)
}

/// Returns the quorums of the tickets of one cycle.
fn order_of(
    alloc: Global,
    weights: &Weights,
    ends: &[u64],
    stride: u64,
) -> Result<Vec<usize>, AllocError>
    requires ends { ends.now ≡ ends_of weights.now.quorum_weights }
    requires short { stride ≤ max_cycle }
    ensures { IfOk result (λ v. v.items
        ≡ window (with_stride weights.now stride) 0 (cycle_len weights.now)) }
{
    let len = weights.cycle_len();
    let mut order = Vec::with_capacity(alloc, len as usize)?;
    for ticket in 0..len {
        order.push(quorum_of_place(ends, ticket * stride % len))?;
    }
    Ok(order)
}

/// Returns a voter's greatest lead, given the quorums of the tickets of one cycle.
fn lead_of(weights: &Weights, stride: u64, order: &[usize], voter: u8) -> u64
    requires order { order.now ≡ window (with_stride weights.now stride) 0 (cycle_len weights.now) }
    requires fair { IsFair (with_stride weights.now stride) }
    requires voter { voter < weights.now.system.voters }
    ensures { IsGreatestLead weights.now.system voter (slack_unit weights.now)
        ((cycle_ratio weights.now).0 * slice_index weights.now.capacities voter) order.now result }
{
    greatest_lead(
        weights.coterie(),
        order,
        voter,
        unit_of(weights),
        share_of(weights, voter),
    )
}

/// Returns the excess of a stride, given the quorums of the tickets of one cycle.
fn excess_of(weights: &Weights, stride: u64, order: &[usize]) -> u64
    requires order { order.now ≡ window (with_stride weights.now stride) 0 (cycle_len weights.now) }
    requires fair { IsFair (with_stride weights.now stride) }
    ensures { IsExcess (with_stride weights.now stride) result }
{
    let mut excess = 0;
    for voter in 0..weights.coterie().voters() {
        let lead = lead_of(weights, stride, order, voter as u8);
        let rounded = lead.div_ceil(weights.capacity(voter as u8));
        excess = excess.max(rounded);
    }
    excess
}

/// Returns a stride with its excess.
fn tried(alloc: Global, weights: &Weights, ends: &[u64], stride: u64) -> Result<Choice, AllocError>
    requires ends { ends.now ≡ ends_of weights.now.quorum_weights }
    requires short { stride ≤ max_cycle }
    requires fair { IsFair (with_stride weights.now stride) }
    ensures stride { IfOk result (λ choice. choice.stride ≡ stride) }
    ensures excess { IfOk result (λ choice. IsExcess (with_stride weights.now stride) choice.excess) }
{
    let order = order_of(alloc, weights, ends, stride)?;
    let excess = excess_of(weights, stride, &order);
    Ok(Choice { stride, excess })
}

/// Returns the one of two choices with the smaller excess, or the first.
fn better_of(first: Choice, second: Choice) -> Choice
    ensures one_of { ((result ≡ first) × (first.excess ≤ second.excess))
        ⊎ ((result ≡ second) × (second.excess < first.excess)) }
{
    if second.excess < first.excess {
        second
    } else {
        first
    }
}

/// Returns the first stride of smallest excess among those that are tried.
pub(crate) fn best_of(alloc: Global, weights: &Weights, ends: &[u64]) -> Result<Choice, AllocError>
    requires ends { ends.now ≡ ends_of weights.now.quorum_weights }
    ensures short { IfOk result (λ choice. choice.stride ≤ max_cycle) }
    ensures fair { IfOk result (λ choice. IsFair (with_stride weights.now choice.stride)) }
    ensures excess { IfOk result (λ choice. IsExcess (with_stride weights.now choice.stride) choice.excess) }
    ensures first { IfOk result (λ choice.
        IsFirstBest (strides_of (cycle_len weights.now)) (with_stride weights.now choice.stride)) }
{
    let strides = near_golden(alloc, weights.cycle_len())?;
    let mut best = tried(alloc, weights, ends, 1)?;
    for stride in &strides {
        best = better_of(best, tried(alloc, weights, ends, *stride)?);
    }
    Ok(best)
}
