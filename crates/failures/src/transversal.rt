//! Sets that meet every quorum, and a smallest one.
ghost use Rattle.std.specs.Prelude.{◌≡◌, ◌==◌, ◌||◌, ◌+◌, ◌^◌, ◌<◌, ◌≤◌, ℕ, true, false, length, IfNone, IfSome, All};
ghost use Rattle.numbers.specs.Sets.{has, IsSet};
ghost use Rattle.failures.specs.Failures.{IsSmallest, IsSmallestWith, IsTransversal, undecided};

use crate::without::first_apart_from;
use quorum_set::{Coterie, QSet};

/// A set of voters that has a common member with each quorum, and whether it is known that no such
/// set is smaller.
#[derive(Drop)]
pub struct Transversal {
    /// The voters. If all of them fail, no quorum is left.
    pub voters: QSet,
    /// Whether the search came to its end, so that no such set is smaller.
    pub is_smallest: bool,
}

/// Returns the set with one more voter. The voter's number has to be below 64.
pub fn with_voter(set: &QSet, voter: u8) -> QSet
    requires { voter < 64 }
    ensures set { IsSet result }
    ensures before { IsSet set.now }
    ensures members { (i : ℕ) → i < 64 → has result i ≡ ((i == voter) || has set.now i) }
    ensures voters { (n : ℕ) → voter < n → All (λ i. i < n) set.now → All (λ i. i < n) result }
{
    let mut more = set.copy();
    more.insert(voter);
    more
}

/// Returns the first member of a quorum that is not among these voters.
fn first_outside(quorum: &QSet, barred: &QSet) -> Option<u8>
    ensures none { IfNone result (All (λ i. has barred.now i ≡ true) quorum.now) }
    ensures some { IfSome result (λ i. has quorum.now i ≡ true) }
    ensures outside { IfSome result (λ i. has barred.now i ≡ false) }
{
    let members = quorum.members();
    for i in members.as_slice() {
        if !barred.has(*i) {
            return Some(*i);
        }
    }
    None
}

/// Returns a transversal that is at most as large as `best`. If steps are left afterwards, no
/// transversal is smaller that has all of `chosen` and none of `barred`.
fn improve(coterie: &Coterie, chosen: &QSet, barred: &QSet, best: QSet, steps: &mut u64) -> QSet
    requires voters { All (λ i. i < coterie.now.voters) chosen.now }
    requires best { IsTransversal coterie.now best }
    ensures meets { IsTransversal coterie.now result }
    ensures shorter { length result ≤ length best }
    ensures steps { steps.new ≤ steps.old }
    // A step decides on one more voter, in two ways.
    ensures spent { steps.old < steps.new + 2 ^ (undecided coterie.now.voters chosen.now barred.now + 1) }
    ensures smallest { 0 < steps.new → IsSmallestWith coterie.now.quorums chosen.now barred.now result }
{
    if *steps == 0 || chosen.len() >= best.len() {
        return best;
    }
    *steps -= 1;
    let Some(number) = first_apart_from(chosen, coterie) else {
        return chosen.copy();
    };
    let Some(voter) = first_outside(coterie.quorum(number), barred) else {
        return best;
    };
    let with = with_voter(chosen, voter);
    let without = with_voter(barred, voter);
    let best = improve(coterie, &with, barred, best, steps);
    improve(coterie, chosen, &without, best, steps)
}

/// Returns the number of a quorum with the fewest members.
fn smallest_quorum(coterie: &Coterie) -> usize
    ensures { result < length coterie.now.quorums }
{
    let count = coterie.count();
    let mut least = 0;
    for j in 1..count {
        if coterie.quorum(j).len() < coterie.quorum(least).len() {
            least = j;
        }
    }
    least
}

/// Returns a quorum with the fewest members. It has a common member with each quorum.
fn first_transversal(coterie: &Coterie) -> QSet
    ensures { IsTransversal coterie.now result }
{
    coterie.quorum(smallest_quorum(coterie)).copy()
}

/// Returns a set of voters that has a common member with each quorum: if all of them fail, the lock
/// can't be taken. No such set is smaller, if the search ends within `steps` steps.
///
/// Each step looks at up to all quorums. A search over n voters ends within 2^(n+1) steps, and
/// searches of the usual shapes end within some thousands. For a coterie of many irregular quorums
/// over 64 voters, a million may be too few.
pub fn transversal_of(coterie: &Coterie, steps: u64) -> Transversal
    ensures meets { IsTransversal coterie.now result.voters }
    ensures smallest { result.is_smallest ≡ true → IsSmallest coterie.now.quorums result.voters }
    ensures ends { 2 ^ (coterie.now.voters + 1) ≤ steps → result.is_smallest ≡ true }
{
    let mut left = steps;
    let first = first_transversal(coterie);
    let voters = improve(coterie, &QSet::empty(), &QSet::empty(), first, &mut left);
    Transversal {
        voters,
        is_smallest: left > 0,
    }
}
