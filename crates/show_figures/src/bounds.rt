//! The sizes of a coterie below which its load cannot go (Naor and Wool 1998).
ghost use Rattle.std.specs.Prelude.{◌≡◌, ◌<◌, ◌≤◌, All, length, sum};
ghost use Rattle.quorum_set.specs.Capacities.{AreCapacities};
ghost use Rattle.quorum_set.specs.Coteries.{IsCoterie};
ghost use Rattle.certificate.specs.Loads.{weight_within};
ghost use Rattle.known_loads.specs.SmallestQuorums.{smallest_capacity, smallest_size};

use quorum_set::{Coterie, QSet};

/// Returns the number of members of the smallest quorum.
pub(crate) fn smallest_size(coterie: &Coterie) -> usize
    requires { IsCoterie coterie.now }
    ensures { result ≡ smallest_size coterie.now }
{
    let mut least = coterie.quorum(0).len();
    for number in 1..coterie.count() {
        least = least.min(coterie.quorum(number).len());
    }
    least
}

/// Returns the capacity of a quorum: the sum of its members' capacities.
fn capacity_within(quorum: &QSet, capacities: &[u64]) -> u64
    requires members { All (λ i. i < length capacities.now) quorum.now }
    requires capacities { AreCapacities capacities.now (length capacities.now) }
    ensures capacity { result ≡ weight_within capacities.now quorum.now }
{
    let members = quorum.members();
    let mut capacity = 0;
    for i in members.as_slice() {
        capacity += capacities[usize::from(*i)];
    }
    capacity
}

/// Returns the least capacity of a quorum.
pub(crate) fn smallest_capacity(coterie: &Coterie, capacities: &[u64]) -> u64
    requires coterie { IsCoterie coterie.now }
    requires capacities { AreCapacities capacities.now coterie.now.voters }
    ensures { result ≡ smallest_capacity coterie.now capacities.now }
{
    let mut least = capacity_within(coterie.quorum(0), capacities);
    for number in 1..coterie.count() {
        least = least.min(capacity_within(coterie.quorum(number), capacities));
    }
    least
}

/// Returns the sum of the capacities.
pub(crate) fn sum_of(capacities: &[u64]) -> u64
    requires few { length capacities.now ≤ 64 }
    requires capacities { AreCapacities capacities.now (length capacities.now) }
    ensures { result ≡ sum capacities.now }
{
    let mut sum = 0;
    for capacity in capacities {
        sum += *capacity;
    }
    sum
}
