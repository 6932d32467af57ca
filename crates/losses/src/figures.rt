//! The tickets and the load that are left.
ghost use Rattle.std.specs.Prelude.{◌≡◌, ◌*◌, ◌<◌, ◌≤◌, if◌then◌else◌, length, sum, IfSome, SomeIff};
ghost use Rattle.numbers.specs.Bounds.{max_capacity, max_cycle};
ghost use Rattle.quorum_set.specs.Capacities.{AreCapacities};
ghost use Rattle.certificate.specs.Certificates.{cycle_len};
ghost use Rattle.certificate.specs.Loads.{weight_on};
ghost use Rattle.certificate.specs.Ratios.{greatest_ratio};
ghost use Rattle.losses.specs.Losses.{each_left, is_left, load_left, tickets_left};

use certificate::{Weights, greatest_ratio, lowest_terms};
use numbers::MAX_VOTERS;
use quorum_set::{Coterie, QSet};

/// Returns the weight of a quorum, or 0 if a member is down.
fn weight_left(quorum: &QSet, weight: u64, down: &QSet) -> u64
    ensures { result ≡ (if is_left down.now quorum.now then weight else 0) }
{
    if down.meets(quorum) { 0 } else { weight }
}

/// Returns the sum of the weights of the quorums that are left.
fn total_left(coterie: &Coterie, weights: &[u64], down: &QSet) -> u64
    requires lengths { length weights.now ≡ length coterie.now.quorums }
    requires small { sum weights.now ≤ max_cycle }
    ensures total { result ≡ sum (each_left down.now coterie.now.quorums weights.now) }
    ensures small { result ≤ sum weights.now }
{
    let mut total = 0;
    for (j, weight) in weights.iter().enumerate() {
        total += weight_left(coterie.quorum(j), *weight, down);
    }
    total
}

/// Returns the sum of the weights of the quorums that are left and have the voter.
fn left_on(coterie: &Coterie, weights: &[u64], down: &QSet, voter: u8) -> u64
    requires lengths { length weights.now ≡ length coterie.now.quorums }
    requires small { sum weights.now ≤ max_cycle }
    ensures weight { result ≡ weight_on voter coterie.now.quorums (each_left down.now coterie.now.quorums weights.now) }
    ensures small { result ≤ sum weights.now }
{
    let mut left = 0;
    for (j, weight) in weights.iter().enumerate() {
        let quorum = coterie.quorum(j);
        if quorum.has(voter) {
            left += weight_left(quorum, *weight, down);
        }
    }
    left
}

/// Returns the ratio of the tickets that are left.
fn ratio_left(coterie: &Coterie, capacities: &[u64], weights: &[u64], down: &QSet) -> (u64, u64)
    requires capacities { AreCapacities capacities.now coterie.now.voters }
    requires lengths { length weights.now ≡ length coterie.now.quorums }
    requires small { sum weights.now ≤ max_cycle }
    ensures ratio { result ≡ greatest_ratio coterie.now.voters capacities.now
        (λ i. weight_on i coterie.now.quorums (each_left down.now coterie.now.quorums weights.now)) }
    ensures small { (result.0 ≤ max_cycle) × (result.1 ≤ max_capacity) }
{
    let mut counts = [0; MAX_VOTERS];
    for voter in 0..coterie.voters() {
        counts[voter] = left_on(coterie, weights, down, voter as u8);
    }
    greatest_ratio(&counts[..coterie.voters()], capacities)
}

/// Returns how many tickets of a cycle are left: those of the quorums without a voter that is down.
pub fn tickets_left(weights: &Weights, down: &QSet) -> u64
    ensures value { result ≡ tickets_left down.now weights.now }
    ensures small { result ≤ cycle_len weights.now }
{
    total_left(weights.coterie(), weights.quorum_weights(), down)
}

/// Returns the load of the tickets that are left, as a numerator and a denominator in lowest terms: how
/// often they use a voter, divided by the voter's capacity and by their number, for the voter of which
/// this is greatest. Returns `None` if and only if no ticket is left.
pub fn load_left(weights: &Weights, down: &QSet) -> Option<(u64, u64)>
    ensures load { SomeIff result (0 < tickets_left down.now weights.now) (load_left down.now weights.now) }
    ensures small { IfSome result (λ load. (load.0 ≤ 1000000) × (load.1 ≤ 1000000000)) }
{
    let tickets = tickets_left(weights, down);
    if tickets == 0 {
        return None;
    }
    let ratio = ratio_left(
        weights.coterie(),
        weights.capacities(),
        weights.quorum_weights(),
        down,
    );
    Some(lowest_terms(ratio.0, ratio.1 * tickets))
}
