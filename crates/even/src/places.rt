//! The places of a cycle, each with its quorum.
ghost use Rattle.std.specs.Prelude.{◌≡◌, ◌<◌, ◌≤◌, ℕ, List, length, slice_index, sum, IfOk};
ghost use Rattle.std.specs.List.Sorted.{IsNonDecreasing};
ghost use Rattle.even.specs.EvenCycles.{places_of};
ghost use Rattle.even.specs.Strides.{ends_of};

use certificate::Weights;
use std::alloc::{AllocError, Global};

/// Returns where the places of each quorum end.
pub(crate) fn ends_of(alloc: Global, weights: &Weights) -> Result<Vec<u64>, AllocError>
    ensures { IfOk result (λ v. v.items ≡ ends_of weights.now.quorum_weights) }
{
    let count = weights.coterie().count();
    let mut ends = Vec::with_capacity(alloc, count)?;
    let mut end = 0;
    for quorum in 0..count {
        end += weights.weight(quorum);
        ends.push(end)?;
    }
    Ok(ends)
}

/// Returns how many quorums have no place from this one on.
fn ended_at(ends: &[u64], place: u64) -> usize
    requires { IsNonDecreasing ends.now }
    ensures bound { result ≤ length ends.now }
    ensures ended { (k : ℕ) → k < result → slice_index ends.now k ≤ place }
    ensures later { (k : ℕ) → result ≤ k → k < length ends.now → place < slice_index ends.now k }
{
    ends.partition_point(|end| *end <= place)
}

/// Returns the quorum at a place, by binary search in where the places of each quorum end.
pub(crate) fn quorum_of_place(ends: &[u64], place: u64) -> usize
    requires { IsNonDecreasing ends.now }
    ensures { (weights : List ℕ) → ends.now ≡ ends_of weights → place < sum weights
        → result ≡ slice_index (places_of weights) place }
{
    ended_at(ends, place)
}
