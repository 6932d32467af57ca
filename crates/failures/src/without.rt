//! What is left of a coterie when voters fail.
ghost use Rattle.std.specs.Prelude.{◌≡◌, ◌<◌, ◌++◌, [], ◌∷◌, true, false, length, slice_index_or, IfNone, IfOk, IfSome, OnOk, filter};
ghost use Rattle.numbers.specs.Sets.{meet};
ghost use Rattle.quorum_set.specs.Coteries.{are_disjoint};
ghost use Rattle.failures.specs.Failures.{Bears, MeetsEach, system_without};

use quorum_set::{Coterie, QSet};
use std::alloc::{AllocError, Global};

/// Returns the number of the first quorum that has no member in common with the set.
pub(crate) fn first_apart_from(set: &QSet, coterie: &Coterie) -> Option<usize>
    ensures none { IfNone result (MeetsEach coterie.now.quorums set.now) }
    ensures some { IfSome result (λ j. (j < length coterie.now.quorums)
        × (meet set.now (slice_index_or coterie.now.quorums j []) ≡ false)) }
{
    for j in 0..coterie.count() {
        if !set.meets(coterie.quorum(j)) {
            return Some(j);
        }
    }
    None
}

/// Returns whether the coterie bears the failure of these voters: whether some quorum has no failed
/// member.
pub fn bears(coterie: &Coterie, failed: &QSet) -> bool
    ensures yes { result ≡ true → Bears coterie.now.quorums failed.now }
    ensures no { result ≡ false → MeetsEach coterie.now.quorums failed.now }
{
    match first_apart_from(failed, coterie) {
        Some(_) => true,
        None => false,
    }
}

/// Appends a quorum, unless it has a failed member.
fn push_without(left: &mut Vec<QSet>, quorum: &QSet, failed: &QSet) -> Result<(), AllocError>
    ensures { OnOk result (left.new.items ≡ left.old.items ++ filter (are_disjoint failed.now) (quorum.now ∷ [])) }
{
    if failed.meets(quorum) {
        Ok(())
    } else {
        left.push(quorum.copy())?;
        Ok(())
    }
}

/// Returns the quorums without a failed member.
fn quorums_without(alloc: Global, coterie: &Coterie, failed: &QSet) -> Result<Vec<QSet>, AllocError>
    ensures { IfOk result (λ v. v.items ≡ filter (are_disjoint failed.now) coterie.now.quorums) }
{
    let mut left = Vec::new(alloc);
    for j in 0..coterie.count() {
        push_without(&mut left, coterie.quorum(j), failed)?;
    }
    Ok(left)
}

/// Returns the coterie that is left when these voters fail: the quorums without a failed member, in
/// their order, over the same voters. Returns `None` if no quorum is left.
///
/// Fails only if it runs out of memory.
pub fn coterie_without(
    alloc: Global,
    coterie: &Coterie,
    failed: &QSet,
) -> Result<Option<Coterie>, AllocError>
    ensures left { IfOk result (λ left. IfSome left (λ c. c ≡ system_without failed.now coterie.now)) }
    ensures none { IfOk result (λ left. IfNone left (MeetsEach coterie.now.quorums failed.now)) }
{
    let quorums = quorums_without(alloc, coterie, failed)?;
    match Coterie::of(coterie.voters(), quorums) {
        Ok(left) => Ok(Some(left)),
        Err(_) => Ok(None),
    }
}
