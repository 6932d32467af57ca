//! The quorums that a cycle of weights uses, as a coterie.
ghost use Rattle.std.specs.Prelude.{◌≡◌, length, IfOk};
ghost use Rattle.certificate.specs.Certificates.{AreWeights};
ghost use Rattle.show_failures.specs.Used.{used_below, used_system};

use certificate::Weights;
use quorum_set::{Coterie, QSet};
use std::alloc::{AllocError, Global};

/// Returns the quorums that a cycle uses, in the order of their numbers.
fn used_quorums(alloc: Global, weights: &Weights) -> Result<Vec<QSet>, AllocError>
    ensures quorums { IfOk result (λ v. v.items ≡ used_below weights.now (length weights.now.system.quorums)) }
    ensures weights { IfOk result (λ _. AreWeights weights.now) }
{
    let mut used = Vec::new(alloc);
    for number in 0..weights.coterie().count() {
        if weights.weight(number) > 0 {
            used.push(weights.coterie().quorum(number).copy())?;
        }
    }
    Ok(used)
}

/// Returns the coterie of the quorums that a cycle uses: those whose weight is not 0, over the same
/// voters. Fails only if it runs out of memory.
pub fn used_coterie(alloc: Global, weights: &Weights) -> Result<Coterie, AllocError>
    ensures { IfOk result (λ c. c ≡ used_system weights.now) }
{
    let quorums = used_quorums(alloc, weights)?;
    match Coterie::of(weights.coterie().voters(), quorums) {
        Ok(coterie) => Ok(coterie),
        Err(_) => unreachable!(),
    }
}
