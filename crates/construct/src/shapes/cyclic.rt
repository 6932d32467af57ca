//! Cyclic coteries.
ghost use Rattle.std.specs.Prelude.{◌≡◌, ◌==◌, ◌+◌, ◌%◌, ◌<◌, nat_lt, true, Err, IfOk, IfErr};
ghost use Rattle.std.specs.List.{list_all, list_any};
ghost use Rattle.construct.specs.Answers.{Gives};
ghost use Rattle.construct.specs.Cyclic.{shift_by, cyclic_quorums, has_repeat, is_off_ring, cyclic_at, IsCyclicFault};
ghost use Rattle.construct.specs.declared.fault.ConstructFault.TheVariants.{BadSize};

use crate::fault::ConstructFault;
use numbers::MAX_VOTERS;
use quorum_set::{Coterie, QSet, set_where};
use std::alloc::{AllocError, Global};
use std::collections::HashSet;

/// Returns whether shifting by s places round a ring of n moves a member of the base to voter v.
fn moves_to(n: u32, base: &[u32], s: u32, v: u8) -> bool
    requires { 0 < n }
    ensures { result ≡ list_any (λ x. (x + s) % n == v) base.now }
{
    let ring = u64::from(n);
    let places = u64::from(s);
    base.iter()
        .any(|x| (u64::from(*x) + places) % ring == u64::from(v))
}

/// Returns the base, shifted by s places round a ring of n.
fn shifted(n: u32, base: &[u32], s: u32) -> QSet
    requires { 0 < n }
    ensures { result ≡ shift_by n base.now s }
{
    set_where(|v| moves_to(n, base, s, v))
}

/// Returns the base, shifted by each number of places below n.
fn quorums_of(alloc: Global, n: u32, base: &[u32]) -> Result<Vec<QSet>, AllocError>
    requires { 0 < n }
    ensures { IfOk result (λ v. v.items ≡ cyclic_quorums n base.now) }
{
    (0..n).map(|s| shifted(n, base, s)).collect(alloc)
}

/// Returns whether a number occurs twice.
fn has_repeat(alloc: Global, base: &[u32]) -> Result<bool, AllocError>
    ensures { IfOk result (λ b. b ≡ has_repeat base.now) }
{
    let mut seen = HashSet::new(alloc);
    for x in base {
        if !seen.insert(*x)? {
            return Ok(true);
        }
    }
    Ok(false)
}

/// Returns whether all numbers are below n.
fn are_below(n: u32, base: &[u32]) -> bool
    ensures { result ≡ list_all (λ x. nat_lt x n) base.now }
{
    base.iter().all(|x| *x < n)
}

/// Returns whether n is 0, or the base is empty, or a member of it is not below n.
fn is_off_ring(n: u32, base: &[u32]) -> bool
    ensures { result ≡ is_off_ring n base.now }
{
    n == 0 || base.is_empty() || !are_below(n, base)
}

/// Returns the cyclic coterie of a base set of voters on a ring of `voters` places.
///
/// Quorum s, for s below `voters`, is the base shifted by s places: (x + s) mod voters for each x
/// of the base. If the base is a perfect difference set, such as 0, 1, 3 modulo 7, the quorums are
/// the lines of a projective plane (Maekawa, ACM TOCS 3(2), 1985).
///
/// Fails with the first of these faults:
///
/// - `BadSize` if there are no voters, or the base is empty, has a member that is not below
///   `voters`, or has one twice;
/// - `TooLarge` if there are more than 64 voters;
/// - `Coterie(Disjoint)` for the smallest pair of disjoint quorums;
/// - `Coterie(Contained)` for the smallest pair of quorums with one within the other.
#[tactic(auto, using(crate::proofs::CyclicLemmas::cyclic_fault_of))]
pub fn cyclic(alloc: Global, voters: u32, base: &[u32]) -> Result<Coterie, ConstructFault>
    ensures exact { Gives result (cyclic_at voters base.now) }
    ensures ring { is_off_ring voters base.now ≡ true → result ≡ Err BadSize }
    ensures faults { IfErr result IsCyclicFault }
{
    if is_off_ring(voters, base) || has_repeat(alloc, base)? {
        return Err(ConstructFault::BadSize);
    }
    if voters > MAX_VOTERS as u32 {
        return Err(ConstructFault::TooLarge);
    }
    let quorums = quorums_of(alloc, voters, base)?;
    Ok(Coterie::of(voters as usize, quorums)?)
}
