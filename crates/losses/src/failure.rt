//! Failures: voters that may be down, and what a bound of regret is computed from.
ghost use Rattle.std.specs.Prelude.{◌≡◌, ◌↔◌, ◌<◌, ◌≤◌, true, length, All};
ghost use Rattle.losses.specs.Regrets.{AreMultipliers, AreUsable, IsFraction, IsUsable};

use certificate::total;
use failures::bears;
use quorum_set::{Coterie, QSet};

/// The greatest part of a best load or a limit.
const MAX_PART: u64 = 1_000_000_000;

/// The most failures of a bound.
const MAX_FAILURES: usize = 5000;

/// Voters that may be down, the best load without them, and the multipliers of a bound.
#[derive(Drop)]
pub struct Failure {
    /// The voters. Some quorum has to be left without them.
    pub down: QSet,
    /// The best load of the coterie without these voters, as a numerator and a denominator, each 1 to
    /// 1,000,000,000.
    pub best: (u64, u64),
    /// Whether it is known that no weights without these voters have a smaller load. No figure here depends
    /// on it.
    pub is_best: bool,
    /// A multiplier for each voter. Their sum has to be at most 1,000,000.
    pub multipliers: Vec<u64>,
}

/// Returns whether the fraction is above 0, and its parts are small.
pub(crate) fn is_fraction(load: (u64, u64)) -> bool
    ensures { (result ≡ true) ↔ IsFraction load }
{
    0 < load.0 && load.0 <= MAX_PART && 0 < load.1 && load.1 <= MAX_PART
}

/// Returns whether there is a multiplier for each voter, and their sum is small.
fn are_multipliers(multipliers: &[u64], voters: usize) -> bool
    ensures { (result ≡ true) ↔ AreMultipliers voters multipliers.now }
{
    multipliers.len() == voters && total(multipliers).is_some()
}

/// Returns whether the failure leaves a quorum, and its numbers are small.
fn is_usable(coterie: &Coterie, failure: &Failure) -> bool
    ensures { (result ≡ true) ↔ IsUsable coterie.now failure.now }
{
    is_fraction(failure.best)
        && are_multipliers(failure.multipliers.as_slice(), coterie.voters())
        && bears(coterie, &failure.down)
}

/// Returns whether each failure leaves a quorum, and all numbers are small.
fn are_all_usable(coterie: &Coterie, failures: &[Failure]) -> bool
    ensures { (result ≡ true) ↔ All (IsUsable coterie.now) failures.now }
{
    for failure in failures {
        if !is_usable(coterie, failure) {
            return false;
        }
    }
    true
}

/// Returns whether the limit and its multipliers are small, and there is a multiplier for each voter.
fn is_limit(coterie: &Coterie, limit: (u64, u64), multipliers: &[u64]) -> bool
    ensures { (result ≡ true) ↔ (IsFraction limit × AreMultipliers coterie.now.voters multipliers.now) }
{
    is_fraction(limit) && are_multipliers(multipliers, coterie.voters())
}

/// Returns whether there are 1 to 5,000 failures.
fn are_few(failures: &[Failure]) -> bool
    ensures { (result ≡ true) ↔ ((0 < length failures.now) × (length failures.now ≤ 5000)) }
{
    !failures.is_empty() && failures.len() <= MAX_FAILURES
}

/// Returns whether there are 1 to 5,000 failures, each leaves a quorum, and all numbers are small.
fn are_failures(coterie: &Coterie, failures: &[Failure]) -> bool
    ensures { (result ≡ true) ↔ ((0 < length failures.now) × (length failures.now ≤ 5000)
        × All (IsUsable coterie.now) failures.now) }
{
    are_few(failures) && are_all_usable(coterie, failures)
}

/// Returns whether a bound can be computed.
pub(crate) fn are_usable(
    coterie: &Coterie,
    limit: (u64, u64),
    multipliers: &[u64],
    failures: &[Failure],
) -> bool
    ensures { (result ≡ true) ↔ AreUsable coterie.now limit multipliers.now failures.now }
{
    is_limit(coterie, limit, multipliers) && are_failures(coterie, failures)
}
