//! Lists of at most 4096 quorums.
ghost use Rattle.std.specs.Prelude.{◌≡◌, ◌+◌, ◌≤◌, [], ◌∷◌, IfOk, vec_len};
ghost use Rattle.std.specs.List.{range_with_len};
ghost use Rattle.itertools.specs.Odometer.{ways};
ghost use Rattle.itertools.specs.Pool.{ascending_low, ascending_high, combination_can, combination_left};
ghost use Rattle.numbers.specs.Bounds.{max_voters, max_quorums};
ghost use Rattle.numbers.specs.Sets.{has, set_where};
ghost use Rattle.construct.specs.Answers.{Adds, Lists};
ghost use Rattle.construct.specs.Majority.{sets_from};

use crate::fault::ConstructFault;
use itertools::{Combinations, Itertools};
use numbers::{MAX_QUORUMS, MAX_VOTERS};
use quorum_set::QSet;
use std::alloc::{AllocError, Global};

/// Adds a set, or fails with `TooLarge` if there are 4096 already.
#[tactic(auto, using(crate::proofs::FewLemmas::few_push, crate::proofs::FewLemmas::many_push))]
pub fn push_set(sets: &mut Vec<QSet>, set: QSet) -> Result<(), ConstructFault>
    ensures { Adds result sets.old.items sets.new.items (set ∷ []) }
{
    if sets.len() >= MAX_QUORUMS {
        return Err(ConstructFault::TooLarge);
    }
    sets.push(set)?;
    Ok(())
}

/// Returns the set of these members. Leaves out numbers of 64 or more.
fn set_of(members: &[u8]) -> QSet
    ensures { result ≡ set_where (has members.now) }
{
    let mut set = QSet::empty();
    for member in members {
        if usize::from(*member) < MAX_VOTERS {
            set.insert(*member);
        }
    }
    set
}

/// Returns an iterator over the choices of `size` of the `n` numbers from `low` on.
fn choices(alloc: Global, low: u8, n: u8, size: u8) -> Result<Combinations<u8, Global>, AllocError>
    requires { low + n ≤ max_voters }
    ensures can { IfOk result combination_can }
    ensures pool { IfOk result (λ c. c.pool.items ≡ range_with_len low n) }
    ensures room { IfOk result (λ c. vec_len c.pool ≡ n) }
    ensures left { IfOk result (λ c. combination_left c
        ≡ ways ascending_low (ascending_high (vec_len c.pool) size) size []) }
{
    (low..low + n).combinations(alloc, usize::from(size))
}

/// Returns the sets of `size` of the `n` voters from `low` on, in lexicographic order. Ends with
/// `TooLarge` at the first set after 4096, so it never goes through all sets of a large number.
pub fn sets_of(alloc: Global, low: u8, n: u8, size: u8) -> Result<Vec<QSet>, ConstructFault>
    requires { low + n ≤ max_voters }
    ensures { Lists result (sets_from low n size) }
{
    let mut sets = Vec::new(alloc);
    for members in choices(alloc, low, n, size)? {
        push_set(&mut sets, set_of(&members?))?;
    }
    Ok(sets)
}
