//! Sums of weights: of the quorums with a voter, and of a quorum's members.
ghost use Rattle.std.specs.Prelude.{◌≡◌, ◌*◌, ◌<◌, ◌≤◌, ◌^◌, length, slice_index, sum, All, SomeIff};
ghost use Rattle.quorum_set.specs.Coteries.{IsCoterie};
ghost use Rattle.numbers.specs.Bounds.{max_cycle};
ghost use Rattle.numbers.specs.Counts.{greatest_below, least_of};
ghost use Rattle.numbers.specs.Sums.{sum_below};
ghost use Rattle.quorum_set.specs.Capacities.{AreCapacities};
ghost use Rattle.certificate.specs.Loads.{weight_on, weight_within};

use numbers::MAX_CYCLE;
use quorum_set::{Coterie, QSet};

/// Returns the sum of the weights, or `None` if it is above 1,000,000.
pub fn total(weights: &[u64]) -> Option<u64>
    ensures { SomeIff result (sum weights.now ≤ max_cycle) (sum weights.now) }
{
    let mut total = 0;
    for weight in weights {
        if *weight > MAX_CYCLE - total {
            return None;
        }
        total += *weight;
    }
    Some(total)
}

/// Returns the sum of the weights of the quorums with this voter. There has to be a weight for each
/// quorum, and their sum has to be below 2^64.
pub fn weight_on(coterie: &Coterie, weights: &[u64], voter: u8) -> u64
    requires lengths { length weights.now ≡ length coterie.now.quorums }
    requires fits { sum weights.now < 2 ^ 64 }
    ensures weight { result ≡ weight_on voter coterie.now.quorums weights.now }
    ensures small { result ≤ sum weights.now }
{
    let mut weight = 0;
    for (j, one) in weights.iter().enumerate() {
        if coterie.quorum(j).has(voter) {
            weight += *one;
        }
    }
    weight
}

/// Returns the greatest sum, over the voters, of the weights of the quorums with that voter.
pub(crate) fn busiest_count(coterie: &Coterie, weights: &[u64]) -> u64
    requires lengths { length weights.now ≡ length coterie.now.quorums }
    requires small { sum weights.now ≤ max_cycle }
    ensures count { result ≡ greatest_below coterie.now.voters (λ i. weight_on i coterie.now.quorums weights.now) }
    ensures small { result ≤ sum weights.now }
{
    let mut most = 0;
    for voter in 0..coterie.voters() {
        most = most.max(weight_on(coterie, weights, voter as u8));
    }
    most
}

/// Returns the sum of the weights of a quorum's members. There has to be a weight for each member, and
/// the sum of all weights has to be at most 1,000,000.
pub fn weight_within(quorum: &QSet, weights: &[u64]) -> u64
    requires members { All (λ i. i < length weights.now) quorum.now }
    requires small { sum weights.now ≤ max_cycle }
    ensures weight { result ≡ weight_within weights.now quorum.now }
    ensures small { result ≤ 64000000 }
{
    let members = quorum.members();
    let mut weight = 0;
    for i in members.as_slice() {
        weight += weights[usize::from(*i)];
    }
    weight
}

/// Returns the smallest sum, over the quorums, of the weights of a quorum's members.
pub(crate) fn lightest_quorum(coterie: &Coterie, weights: &[u64]) -> u64
    requires coterie { IsCoterie coterie.now }
    requires lengths { length weights.now ≡ coterie.now.voters }
    requires small { sum weights.now ≤ max_cycle }
    ensures weight { result ≡ least_of (weight_within weights.now) coterie.now.quorums }
    ensures small { result ≤ 64000000 }
{
    let mut least = weight_within(coterie.quorum(0), weights);
    for j in 1..coterie.count() {
        least = least.min(weight_within(coterie.quorum(j), weights));
    }
    least
}

/// Returns the sum of the voters' weights, each times the voter's capacity. There has to be a capacity for
/// each weight, 1 to 1000, and the sum of the weights has to be at most 1,000,000.
pub fn capacity_total(capacities: &[u64], weights: &[u64]) -> u64
    requires capacities { AreCapacities capacities.now (length weights.now) }
    requires small { sum weights.now ≤ max_cycle }
    ensures total { result
        ≡ sum_below (λ i. slice_index weights.now i * slice_index capacities.now i) (length weights.now) }
    ensures small { result ≤ 1000000000 }
{
    let mut total = 0;
    for (i, weight) in weights.iter().enumerate() {
        total += *weight * capacities[i];
    }
    total
}
