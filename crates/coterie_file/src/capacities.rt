//! Capacities of voters: their faults, and lists of them that need no memory.
ghost use Rattle.std.specs.Prelude.{◌≡◌, ◌≤◌, length, not, IfNone, position};
ghost use Rattle.numbers.specs.Bounds.{max_voters};
ghost use Rattle.quorum_set.specs.Capacities.{AreCapacities, unit_capacities};
ghost use Rattle.coterie_file.specs.Capacities.{is_capacity, capacities_fault};

use crate::fault::FileFault;
use arrayvec::ArrayVec;
use numbers::{MAX_CAPACITY, MAX_VOTERS};

/// Returns whether the number is a capacity.
fn is_capacity(number: u64) -> bool
    ensures { result ≡ is_capacity number }
{
    1 <= number && number <= MAX_CAPACITY
}

/// Returns the place of the first number that is not a capacity.
fn first_bad_capacity(numbers: &[u64]) -> Option<usize>
    ensures { result ≡ position (λ c. not (is_capacity c)) numbers.now }
{
    numbers.iter().position(|number| !is_capacity(*number))
}

/// Returns the first fault of the capacities of this number of voters. Allocates nothing.
#[tactic(auto, using(crate::proofs::CapacityLemmas::capacities_by_test))]
pub(crate) fn capacities_fault(voters: usize, numbers: &[u64]) -> Option<FileFault>
    ensures fault { result ≡ capacities_fault voters numbers.now }
    ensures capacities { IfNone result (AreCapacities numbers.now voters) }
{
    if numbers.len() != voters {
        return Some(FileFault::CapacityCount(numbers.len()));
    }
    match first_bad_capacity(numbers) {
        Some(i) => Some(FileFault::BadCapacity(i)),
        None => None,
    }
}

/// Returns capacity 1 for each of the voters.
#[tactic(auto, using(crate::proofs::CapacityLemmas::one_more_unit, crate::proofs::CapacityLemmas::units_so_far))]
pub(crate) fn units(voters: usize) -> ArrayVec<u64, MAX_VOTERS>
    requires { voters ≤ max_voters }
    ensures { result.items ≡ unit_capacities voters }
{
    let mut units = ArrayVec::new();
    for _ in 0..voters {
        units.push(1);
    }
    units
}

/// Returns a list of these numbers that needs no memory.
pub(crate) fn kept(numbers: &[u64]) -> ArrayVec<u64, MAX_VOTERS>
    requires { length numbers.now ≤ max_voters }
    ensures { result.items ≡ numbers.now }
{
    let mut kept = ArrayVec::new();
    for number in numbers {
        kept.push(*number);
    }
    kept
}
