//! The regret of weights: what voters that are down cost, next to the best load without them.
ghost use Rattle.std.specs.Prelude.{◌≡◌, ◌<◌, ◌≤◌, SomeIff, All};
ghost use Rattle.losses.specs.Regrets.{IsBorne, regret_at, regret_of};

use crate::failure::{Failure, is_fraction};
use crate::figures::load_left;
use certificate::{Weights, greater_of, lowest_terms};

/// Returns the load that a failure leaves, divided by the best one, as a numerator and a denominator in
/// lowest terms. Returns `None` if and only if the failure leaves no ticket, or a part of its best load is 0
/// or above 1,000,000,000.
pub fn regret_at(weights: &Weights, failure: &Failure) -> Option<(u64, u64)>
    ensures { SomeIff result (IsBorne weights.now failure.now) (regret_at weights.now failure.now) }
{
    if !is_fraction(failure.best) {
        return None;
    }
    let Some(load) = load_left(weights, &failure.down) else {
        return None;
    };
    Some(lowest_terms(load.0 * failure.best.1, load.1 * failure.best.0))
}

/// Returns the regret of weights: the load that is left when voters are down, divided by the best load
/// without them, for the failure of which this is greatest. It is a numerator and a denominator in lowest
/// terms, 0/1 if there is no failure. The multipliers do not count.
///
/// Returns `None` if and only if some failure leaves no ticket, or a part of its best load is 0 or above
/// 1,000,000,000.
pub fn regret_of(weights: &Weights, failures: &[Failure]) -> Option<(u64, u64)>
    ensures { SomeIff result (All (IsBorne weights.now) failures.now) (regret_of weights.now failures.now) }
{
    let mut greatest = (0, 1);
    for failure in failures {
        let Some(own) = regret_at(weights, failure) else {
            return None;
        };
        greatest = greater_of(greatest, own);
    }
    Some(greatest)
}
