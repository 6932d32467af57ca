//! The shares that the simplex method finds, and the voters' weights that are made of them.
ghost use Rattle.std.specs.Prelude.{◌≡◌, ◌<◌, ◌≤◌, false, length, sum, vec_len, IfOk};
ghost use Rattle.numbers.specs.Bounds.{max_cycle};
ghost use Rattle.quorum_set.specs.Capacities.{AreCapacities};
ghost use Rattle.quorum_set.specs.Coteries.{IsCoterie};

use basis::search;
use quorum_set::Coterie;
use std::alloc::{AllocError, Global};
use std::num::saturating_f64_to_u64;

/// A share that lacks so little of a whole number counts as one.
const NOISE: f64 = 0.001;

/// How much to use each quorum, and what each voter is worth. They are in proportion to weights.
#[derive(Drop)]
pub(crate) struct Shares {
    pub(crate) quorums: Vec<f64>,
    pub(crate) voters: Vec<f64>,
}

/// Returns shares of the coterie's quorums that load the busiest voter little for its capacity, and
/// shares of the voters that show that little less is possible.
pub(crate) fn shares_of(
    alloc: Global,
    coterie: &Coterie,
    capacities: &[u64],
) -> Result<Shares, AllocError>
    requires { AreCapacities capacities.now coterie.now.voters }
    ensures coterie { IfOk result (λ _. IsCoterie coterie.now) }
    ensures quorums { IfOk result (λ s. vec_len s.quorums ≡ length coterie.now.quorums) }
    ensures voters { IfOk result (λ s. vec_len s.voters ≡ coterie.now.voters) }
{
    let tableau = search(alloc, coterie, capacities)?;
    Ok(Shares {
        quorums: tableau.quorum_shares(alloc, coterie.count())?,
        voters: tableau.voter_shares(alloc, coterie.voters())?,
    })
}

/// Returns the sum of the shares that are above 0.
pub(crate) fn total_of(shares: &[f64]) -> f64 {
    let mut total = 0.0;
    for share in shares {
        if *share > 0.0 {
            total += *share;
        }
    }
    total
}

/// Returns the shares as whole numbers that sum to at most `most`, nearly in the same proportions. A
/// share below 0 becomes 0.
fn scaled(alloc: Global, shares: &[f64], most: u64) -> Result<Vec<u64>, AllocError>
    requires { most ≤ max_cycle }
    ensures length { IfOk result (λ v. vec_len v ≡ length shares.now) }
    ensures small { IfOk result (λ v. sum v.items ≤ most) }
{
    let scale = f64::from(most as u32) / total_of(shares);
    let mut left = most;
    let mut weights = Vec::with_capacity(alloc, shares.len())?;
    for share in shares {
        let weight = saturating_f64_to_u64(*share * scale + NOISE).min(left);
        weights.push(weight)?;
        left -= weight;
    }
    Ok(weights)
}

/// Returns whether all weights are 0.
fn are_zero(weights: &[u64]) -> bool
    ensures { (result ≡ false) → 0 < sum weights.now }
{
    weights.iter().all(|weight| *weight == 0)
}

/// Returns the shares as whole numbers, or 1 for each of them if they would all become 0.
pub(crate) fn rounded(alloc: Global, shares: &[f64], most: u64) -> Result<Vec<u64>, AllocError>
    requires most { most ≤ max_cycle }
    requires some { 0 < length shares.now }
    requires few { length shares.now ≤ max_cycle }
    ensures length { IfOk result (λ v. vec_len v ≡ length shares.now) }
    ensures some { IfOk result (λ v. 0 < sum v.items) }
    ensures small { IfOk result (λ v. sum v.items ≤ max_cycle) }
{
    let weights = scaled(alloc, shares, most)?;
    if are_zero(&weights) {
        return vec![in alloc; 1u64; shares.len()];
    }
    Ok(weights)
}
