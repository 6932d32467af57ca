//! Weights in lowest terms.
ghost use Rattle.std.specs.Prelude.{◌≡◌, ◌≢◌, ℕ, ◌*◌, ◌<◌, ◌≤◌, ◌/◌, length, map, sum};
ghost use Rattle.planner.specs.Weights.{HaveNoCommonDivisor, IsGreatestDivisor};

use certificate::gcd;

/// Returns the greatest common divisor of the weights; 0 if all are 0.
fn divisor_of(weights: &[u64]) -> u64
    ensures { IsGreatestDivisor weights.now result }
{
    let mut common = 0;
    for weight in weights {
        common = gcd(common, *weight);
    }
    common
}

/// Divides each weight by the divisor.
fn divide_by(weights: &mut [u64], divisor: u64)
    requires { divisor ≢ 0 }
    ensures { weights.new ≡ map (λ weight. weight / divisor) weights.old }
{
    for weight in weights.iter_mut() {
        *weight /= divisor;
    }
}

/// Divides the weights by their greatest common divisor. If all are 0 they stay 0.
pub fn divide(weights: &mut [u64])
    ensures length { length weights.new ≡ length weights.old }
    ensures lowest { 0 < sum weights.new → HaveNoCommonDivisor weights.new }
    // Each was so many times what it is now.
    ensures times { (g : ℕ) × (0 < g) × (weights.old ≡ map (λ weight. g * weight) weights.new) }
    ensures some { 0 < sum weights.old → 0 < sum weights.new }
    ensures small { sum weights.new ≤ sum weights.old }
{
    let common = divisor_of(weights);
    if common != 0 {
        divide_by(weights, common);
    }
}
