//! A bound on the regret of all weights: what voters that are down cost at least, next to the best load
//! without them.
ghost use Rattle.std.specs.Prelude.{◌≡◌, ◌*◌, ◌<◌, ◌≤◌, length, SomeIff, IfSome, All};
ghost use Rattle.losses.specs.Regrets.{AreUsable, IsRegretBound, IsUsable, bound_at, gain_at, million, price_at, price_of, regret_bound};

use crate::failure::{Failure, are_usable};
use certificate::{Weights, capacity_total, weight_within};
use quorum_set::{Coterie, QSet};

/// One million.
const MILLION: u128 = 1_000_000;

/// Returns the price of a failure, in millionths.
fn price(weights: &Weights, failure: &Failure) -> u128
    requires { IsUsable weights.now.system failure.now }
    ensures price { result ≡ price_of weights.now failure.now }
    ensures small { result ≤ 1000000000000000000000000 }
{
    let multipliers = capacity_total(weights.capacities(), failure.multipliers.as_slice());
    let due = MILLION * u128::from(failure.best.0) * u128::from(multipliers);
    due.div_ceil(u128::from(failure.best.1))
}

/// Returns the sum of the prices of the failures at which the quorum is left.
fn price_at(weights: &Weights, failures: &[Failure], quorum: &QSet) -> u128
    requires usable { All (IsUsable weights.now.system) failures.now }
    requires few { length failures.now ≤ 5000 }
    ensures price { result ≡ price_at weights.now failures.now quorum.now }
    ensures small { result ≤ 5000000000000000000000000000 }
{
    let mut sum = 0;
    for failure in failures {
        if !failure.down.meets(quorum) {
            sum += price(weights, failure);
        }
    }
    sum
}

/// Returns the sum of the members' multipliers, over the failures at which the quorum is left.
fn gain_at(coterie: &Coterie, failures: &[Failure], quorum: &QSet) -> u64
    requires usable { All (IsUsable coterie.now) failures.now }
    requires few { length failures.now ≤ 5000 }
    requires members { All (λ i. i < coterie.now.voters) quorum.now }
    ensures gain { result ≡ gain_at failures.now quorum.now }
    ensures small { result ≤ 320000000000 }
{
    let mut sum = 0;
    for failure in failures {
        if !failure.down.meets(quorum) {
            sum += weight_within(quorum, failure.multipliers.as_slice());
        }
    }
    sum
}

/// Returns the bound that one quorum shows, in millionths.
fn bound_at(
    weights: &Weights,
    limit: (u64, u64),
    multipliers: &[u64],
    failures: &[Failure],
    quorum: &QSet,
) -> u128
    requires usable { AreUsable weights.now.system limit multipliers.now failures.now }
    requires members { All (λ i. i < weights.now.system.voters) quorum.now }
    ensures { result ≡ bound_at weights.now limit multipliers.now failures.now quorum.now }
{
    let gain = gain_at(weights.coterie(), failures, quorum) + weight_within(quorum, multipliers);
    let due = capacity_total(weights.capacities(), multipliers);
    let shown = (u128::from(gain) * u128::from(limit.1)).saturating_sub(
        u128::from(due) * u128::from(limit.0),
    );
    let price = price_at(weights, failures, quorum) * u128::from(limit.1);
    if price == 0 {
        return 0;
    }
    MILLION * MILLION * shown / price
}

/// Returns the smallest bound that a quorum shows, in millionths.
fn least_bound(
    weights: &Weights,
    limit: (u64, u64),
    multipliers: &[u64],
    failures: &[Failure],
) -> u128
    requires { AreUsable weights.now.system limit multipliers.now failures.now }
    ensures { result ≡ regret_bound weights.now limit multipliers.now failures.now }
{
    let coterie = weights.coterie();
    let mut least = bound_at(weights, limit, multipliers, failures, coterie.quorum(0));
    for j in 1..coterie.count() {
        least = least.min(bound_at(weights, limit, multipliers, failures, coterie.quorum(j)));
    }
    least
}

/// Returns a bound of regret, in millionths, rounded down: for all weights of this coterie and these
/// capacities whose load is at most the limit, some failure leaves a quorum, but no ticket, or the load
/// that is left is at least this bound times the best load without these voters.
///
/// The multipliers may be any numbers: they make the bound great or small, and never wrong. If they show
/// nothing, it is 0.
///
/// Returns `None` if and only if:
///
/// - a part of the limit or of a best load is 0, or above 1,000,000,000;
/// - there is not one multiplier for each voter, or a sum of multipliers is above 1,000,000;
/// - there is no failure, there are more than 5,000, or one leaves no quorum.
pub fn regret_bound(
    weights: &Weights,
    limit: (u64, u64),
    multipliers: &[u64],
    failures: &[Failure],
) -> Option<u128>
    ensures value { SomeIff result (AreUsable weights.now.system limit multipliers.now failures.now)
        (regret_bound weights.now limit multipliers.now failures.now) }
    ensures bound { IfSome result (λ r. IsRegretBound (r, million) weights.now limit failures.now) }
{
    if !are_usable(weights.coterie(), limit, multipliers, failures) {
        return None;
    }
    Some(least_bound(weights, limit, multipliers, failures))
}
