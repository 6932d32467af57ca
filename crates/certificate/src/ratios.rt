//! Ratios: how much voters are used for their capacities.
ghost use Rattle.std.specs.Prelude.{◌≡◌, ◌<◌, length, slice_index};
ghost use Rattle.quorum_set.specs.Capacities.{AreCapacities};
ghost use Rattle.certificate.specs.Ratios.{greater_of, greatest_ratio};

use divisor::lowest_terms;

/// Returns the greater of two fractions, each a numerator and a denominator. Returns the first if they are
/// equal.
pub fn greater_of(first: (u64, u64), second: (u64, u64)) -> (u64, u64)
    ensures { result ≡ greater_of first second }
{
    if u128::from(first.0) * u128::from(second.1) < u128::from(second.0) * u128::from(first.1) {
        second
    } else {
        first
    }
}

/// Returns the greatest quotient of a voter's count and its capacity, as a numerator and a
/// denominator in lowest terms. Returns 0/1 if all counts are 0. There has to be a capacity for
/// each count, 1 to 1000.
#[tactic(auto, unfolding(crate::specs::Ratios::greatest_ratio))]
pub fn greatest_ratio(counts: &[u64], capacities: &[u64]) -> (u64, u64)
    requires capacities { AreCapacities capacities.now (length counts.now) }
    ensures ratio { result ≡ greatest_ratio (length counts.now) capacities.now (λ i. slice_index counts.now i) }
{
    let mut ratio = (0, 1);
    for (i, count) in counts.iter().enumerate() {
        ratio = greater_of(ratio, (*count, capacities[i]));
    }
    lowest_terms(ratio.0, ratio.1)
}
