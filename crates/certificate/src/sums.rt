//! The sums of weights that a load and a bound are made of.
ghost use Rattle.std.specs.Prelude.{◌≡◌, ◌*◌, ◌<◌, ◌≤◌, ◌==◌, ◌^◌, length, sum};
ghost use Rattle.numbers.specs.Bounds.{max_capacity, max_cycle};
ghost use Rattle.numbers.specs.Counts.{greatest_below};
ghost use Rattle.quorum_set.specs.Capacities.{AreCapacities};
ghost use Rattle.certificate.specs.Certificates.{Weighted, AnswersSums, AreSums, AreWeights, balance_fault, sizes_fault, weights_fault, with_weights};
ghost use Rattle.certificate.specs.Loads.{weight_on};
ghost use Rattle.certificate.specs.Ratios.{greatest_ratio};

use crate::fault::PlanFault;
use crate::loads::{busiest_count, capacity_total, lightest_quorum, total, weight_on};
use crate::ratios::greatest_ratio;
use numbers::MAX_VOTERS;
use quorum_set::{Coterie, are_unit};

/// The sums of weights that their load and their bound are made of.
#[derive(Clone, Copy, Drop)]
pub(crate) struct Sums {
    /// The sum of the quorums' weights.
    pub(crate) cycle_len: u64,
    /// The greatest count of a voter.
    pub(crate) busiest: u64,
    /// The greatest count of a voter, divided by its capacity.
    pub(crate) ratio: (u64, u64),
    /// The sum of the voters' weights, each times the voter's capacity.
    pub(crate) capacity_total: u64,
    /// The smallest sum of the weights of a quorum's members.
    pub(crate) lightest_quorum: u64,
}

/// Returns the sums of these weights, or the first fault of their sizes.
pub(crate) fn sums_of(
    coterie: &Coterie,
    capacities: &[u64],
    quorum_weights: &[u64],
    voter_weights: &[u64],
) -> Result<Sums, PlanFault>
    requires capacities { AreCapacities capacities.now coterie.now.voters }
    ensures { let w = with_weights coterie.now capacities.now quorum_weights.now voter_weights.now in
        AnswersSums (sizes_fault w) w result }
{
    if quorum_weights.len() != coterie.count() || voter_weights.len() != coterie.voters() {
        return Err(PlanFault::WrongLength);
    }
    let (Some(cycle_len), Some(voter_total)) = (total(quorum_weights), total(voter_weights)) else {
        return Err(PlanFault::TooLarge);
    };
    if cycle_len == 0 || voter_total == 0 {
        return Err(PlanFault::Empty);
    }
    let busiest = busiest_count(coterie, quorum_weights);
    Ok(Sums {
        cycle_len,
        busiest,
        ratio: cycle_ratio(coterie, capacities, quorum_weights, busiest),
        capacity_total: capacity_total(capacities, voter_weights),
        lightest_quorum: lightest_quorum(coterie, voter_weights),
    })
}

/// Returns whether the sums are balanced, so that the load is the bound.
pub(crate) fn are_balanced(sums: &Sums) -> bool
    requires fits { sums.now.ratio.1 * sums.now.cycle_len < 2 ^ 64 }
    ensures { result ≡ (sums.now.ratio.0 * sums.now.capacity_total
        == sums.now.ratio.1 * sums.now.cycle_len * sums.now.lightest_quorum) }
{
    u128::from(sums.ratio.0) * u128::from(sums.capacity_total)
        == u128::from(sums.ratio.1 * sums.cycle_len) * u128::from(sums.lightest_quorum)
}

/// Returns the fault of weights whose sums are not balanced.
fn balance_fault(capacities: &[u64], sums: &Sums) -> PlanFault
    ensures { (w : Weighted) → w.capacities ≡ capacities.now → AreWeights w → AreSums w sums.now
        → result ≡ balance_fault w }
{
    if are_unit(capacities) {
        return PlanFault::NotOptimal {
            busiest_count: sums.busiest,
            voter_total: sums.capacity_total,
            lightest_quorum: sums.lightest_quorum,
            cycle_len: sums.cycle_len,
        };
    }
    PlanFault::NotOptimalRatio {
        ratio_numerator: sums.ratio.0,
        ratio_denominator: sums.ratio.1,
        capacity_total: sums.capacity_total,
        lightest_quorum: sums.lightest_quorum,
        cycle_len: sums.cycle_len,
    }
}

/// Returns the sums of these weights, or the first fault that they have as a certificate.
pub(crate) fn balanced_sums_of(
    coterie: &Coterie,
    capacities: &[u64],
    quorum_weights: &[u64],
    voter_weights: &[u64],
) -> Result<Sums, PlanFault>
    requires capacities { AreCapacities capacities.now coterie.now.voters }
    ensures { let w = with_weights coterie.now capacities.now quorum_weights.now voter_weights.now in
        AnswersSums (weights_fault w) w result }
{
    let sums = match sums_of(coterie, capacities, quorum_weights, voter_weights) {
        Ok(sums) => sums,
        Err(fault) => return Err(fault),
    };
    if are_balanced(&sums) {
        return Ok(sums);
    }
    Err(balance_fault(capacities, &sums))
}

/// Returns the ratio of the cycle with these weights of the quorums and this busiest count.
#[tactic(auto, using(crate::proofs::RatioLemmas::counts_with_next))]
fn cycle_ratio(
    coterie: &Coterie,
    capacities: &[u64],
    weights: &[u64],
    busiest_count: u64,
) -> (u64, u64)
    requires capacities { AreCapacities capacities.now coterie.now.voters }
    requires lengths { length weights.now ≡ length coterie.now.quorums }
    requires small { sum weights.now ≤ max_cycle }
    requires busiest { busiest_count
        ≡ greatest_below coterie.now.voters (λ i. weight_on i coterie.now.quorums weights.now) }
    ensures ratio { result
        ≡ greatest_ratio coterie.now.voters capacities.now (λ i. weight_on i coterie.now.quorums weights.now) }
    ensures small { (result.0 ≤ max_cycle) × (result.1 ≤ max_capacity) }
{
    if are_unit(capacities) {
        return (busiest_count, 1);
    }
    let mut counts = [0; MAX_VOTERS];
    for voter in 0..coterie.voters() {
        counts[voter] = weight_on(coterie, weights, voter as u8);
    }
    greatest_ratio(&counts[..coterie.voters()], capacities)
}
