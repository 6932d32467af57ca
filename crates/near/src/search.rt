//! Weights that are near the best.
ghost use Rattle.std.specs.Prelude.{◌≡◌, ◌<◌, ◌≤◌, ◌⊎◌, ◌↔◌, true, length, sum, vec_len, IfErr, IfOk};
ghost use Rattle.numbers.specs.Bounds.{max_cycle};
ghost use Rattle.quorum_set.specs.Capacities.{AreCapacities};
ghost use Rattle.certificate.specs.Bounds.{BearsBound, IsBounded};
ghost use Rattle.certificate.specs.Certificates.{AreWeights, IsCertificate, cycle_len, load_of, with_weights};
ghost use Rattle.certificate.specs.Ratios.{IsAtMost};
ghost use Rattle.near.specs.Nearness.{HoldsOfEither, IsWithin, ones_of};
ghost use Rattle.planner.specs.Uniform.{all_ones};
ghost use Rattle.planner.specs.Weights.{HaveNoCommonDivisor};

use crate::shares::{rounded, shares_of};
use crate::tickets::tickets_of;
use certificate::Weights;
use numbers::MAX_CYCLE;
use planner::{PlannerFault, divide, plan};
use quorum_set::Coterie;
use std::alloc::{AllocError, Global};

/// Returns whether the weights sum to 1 to `most`.
fn fit(weights: &[u64], most: u64) -> bool
    ensures { result ≡ true → (0 < sum weights.now) × (sum weights.now ≤ most) }
{
    let mut left = most;
    for weight in weights {
        if *weight > left {
            return false;
        }
        left -= *weight;
    }
    left < most
}

/// Returns weight 1 for each quorum. If these are more than `most` tickets, returns weight 1 for the
/// first quorum alone.
fn plain_tickets(alloc: Global, coterie: &Coterie, most: u64) -> Result<Vec<u64>, AllocError>
    requires { 0 < most }
    ensures length { IfOk result (λ v. vec_len v ≡ length coterie.now.quorums) }
    ensures some { IfOk result (λ v. 0 < sum v.items) }
    ensures few { IfOk result (λ v. sum v.items ≤ most) }
    ensures ones { length coterie.now.quorums ≤ most → IfOk result (λ v. v.items ≡ ones_of coterie.now) }
{
    let count = coterie.count();
    if count as u64 <= most {
        return vec![in alloc; 1u64; count];
    }
    let mut tickets = vec![in alloc; 0u64; count]?;
    tickets[0] = 1;
    Ok(tickets)
}

/// Returns the weights with these tickets of the quorums and a copy of these weights of the voters.
fn weights_of(
    alloc: Global,
    coterie: &Coterie,
    capacities: &[u64],
    tickets: Vec<u64>,
    voters: &[u64],
) -> Result<Weights, AllocError>
    requires { AreWeights (with_weights coterie.now capacities.now tickets.items voters.now) }
    ensures { IfOk result (λ w. w ≡ with_weights coterie.now capacities.now tickets.items voters.now) }
{
    match Weights::of(alloc, coterie, capacities, tickets, voters.to_vec(alloc)?) {
        Ok(weights) => Ok(weights),
        // Their sizes have no fault.
        Err(_) => Err(AllocError),
    }
}

/// Returns the second weights if their load is smaller than that of the first, and else the first.
fn better_of(first: Weights, second: Weights) -> Weights
    ensures one { (result ≡ first) ⊎ (result ≡ second) }
    ensures load { IsAtMost (load_of result) (load_of first) }
{
    let (part, whole) = first.load();
    let (other_part, other_whole) = second.load();
    if other_part * whole < part * other_whole {
        return second;
    }
    first
}

/// Returns weights of the voters in proportion to the shares, in lowest terms.
fn voters_of(alloc: Global, shares: &[f64]) -> Result<Vec<u64>, AllocError>
    requires some { 0 < length shares.now }
    requires few { length shares.now ≤ max_cycle }
    ensures length { IfOk result (λ v. vec_len v ≡ length shares.now) }
    ensures some { IfOk result (λ v. 0 < sum v.items) }
    ensures small { IfOk result (λ v. sum v.items ≤ max_cycle) }
    ensures lowest { IfOk result (λ v. HaveNoCommonDivisor v.items) }
{
    let mut voters = rounded(alloc, shares, MAX_CYCLE)?;
    divide(&mut voters);
    Ok(voters)
}

/// Returns the weights that are found, or plain ones if these have a load that is as small.
fn found(
    alloc: Global,
    coterie: &Coterie,
    capacities: &[u64],
    most: u64,
) -> Result<Weights, AllocError>
    requires capacities { AreCapacities capacities.now coterie.now.voters }
    requires most { (0 < most) × (most ≤ max_cycle) }
    ensures coterie { IfOk result (λ w. w.system ≡ coterie.now) }
    ensures capacities { IfOk result (λ w. w.capacities ≡ capacities.now) }
    ensures weights { IfOk result AreWeights }
    ensures short { IfOk result (λ w. cycle_len w ≤ most) }
    ensures lowest { IfOk result (λ w. HaveNoCommonDivisor w.voter_weights) }
    ensures ones { length coterie.now.quorums ≤ most → IfOk result (λ w.
        IsAtMost (load_of w) (load_of (with_weights coterie.now capacities.now (ones_of coterie.now) w.voter_weights))) }
{
    let shares = shares_of(alloc, coterie, capacities)?;
    let voters = voters_of(alloc, &shares.voters)?;
    let plain = plain_tickets(alloc, coterie, most)?;
    let first = weights_of(alloc, coterie, capacities, plain, &voters)?;
    let tickets = tickets_of(alloc, coterie, capacities, &shares.quorums, most)?;
    if !fit(&tickets, most) {
        return Ok(first);
    }
    let second = weights_of(alloc, coterie, capacities, tickets, &voters)?;
    Ok(better_of(first, second))
}

/// Finds weights of a coterie's quorums whose load is near the smallest possible one, with cycles of at
/// most `most` tickets, and weights of its voters that show how near. There has to be a capacity for
/// each voter, 1 to 1000, and `most` has to be 1 to 1,000,000.
///
/// Gives the tickets to the quorums by largest remainders, for each length of a cycle up to 2000. If
/// `most` is greater, these are the 1000 shortest lengths and the 400 longest. Returns the weights with
/// the smallest load. Fails only if it runs out of memory.
pub fn near(
    alloc: Global,
    coterie: &Coterie,
    capacities: &[u64],
    most: u64,
) -> Result<Weights, AllocError>
    requires capacities { AreCapacities capacities.now coterie.now.voters }
    requires most { (0 < most) × (most ≤ max_cycle) }
    ensures coterie { IfOk result (λ w. w.system ≡ coterie.now) }
    ensures capacities { IfOk result (λ w. w.capacities ≡ capacities.now) }
    ensures weights { IfOk result AreWeights }
    ensures short { IfOk result (λ w. cycle_len w ≤ most) }
    // No number above 1 divides all weights of the voters.
    ensures lowest { IfOk result (λ w. HaveNoCommonDivisor w.voter_weights) }
    // No weights of this coterie and these capacities have a load below the bound.
    ensures bounded { IfOk result IsBounded }
    // Each list of quorums uses some voter, for its capacity, at least as often as the bound says.
    ensures voter { IfOk result BearsBound }
    // If weights 1 of all quorums are not too many, the load is at most theirs.
    ensures ones { length coterie.now.quorums ≤ most → IfOk result (λ w.
        IsAtMost (load_of w) (load_of (with_weights coterie.now capacities.now (ones_of coterie.now) w.voter_weights))) }
{
    found(alloc, coterie, capacities, most)
}

/// Returns whether the load is at most this many millionths of the bound above the bound.
pub fn is_within(weights: &Weights, millionths: u64) -> bool
    requires { millionths ≤ 1000000 }
    ensures { (result ≡ true) ↔ IsWithin millionths weights.now }
{
    let (part, whole) = weights.load();
    let (least_part, least_whole) = weights.bound();
    u128::from(part) * u128::from(least_whole) * 1_000_000
        <= u128::from(least_part) * u128::from(whole) * u128::from(1_000_000 + millionths)
}

/// Finds weights of a coterie's quorums for cycles of at most `most` tickets: those of an optimal plan if
/// one is found whose cycle is so short, and else weights as [`near`] does. There has to be a capacity for
/// each voter, 1 to 1000, and `most` has to be 1 to 1,000,000. Fails only if it runs out of memory.
pub fn weights(
    alloc: Global,
    coterie: &Coterie,
    capacities: &[u64],
    most: u64,
) -> Result<Weights, AllocError>
    requires capacities { AreCapacities capacities.now coterie.now.voters }
    requires most { (0 < most) × (most ≤ max_cycle) }
    ensures coterie { IfOk result (λ w. w.system ≡ coterie.now) }
    ensures capacities { IfOk result (λ w. w.capacities ≡ capacities.now) }
    ensures weights { IfOk result AreWeights }
    ensures short { IfOk result (λ w. cycle_len w ≤ most) }
    // No number above 1 divides all weights of the voters.
    ensures lowest { IfOk result (λ w. HaveNoCommonDivisor w.voter_weights) }
    // No weights of this coterie and these capacities have a load below the bound.
    ensures bounded { IfOk result IsBounded }
    // If weights 1 of all quorums are not too many, the load is at most theirs.
    ensures ones { length coterie.now.quorums ≤ most → IfOk result (λ w.
        IsAtMost (load_of w) (load_of (with_weights coterie.now capacities.now (ones_of coterie.now) w.voter_weights))) }
    // If all weights 1 are a certificate, and not too many, they are what is found.
    ensures certified { IsCertificate (all_ones coterie.now capacities.now) → length coterie.now.quorums ≤ most
        → IfOk result (λ w. w ≡ all_ones coterie.now capacities.now) }
{
    match plan(alloc, coterie, capacities) {
        Ok(plan) => {
            if plan.cycle_len() <= most {
                return Ok(plan.into_weights());
            }
        }
        Err(PlannerFault::OutOfMemory) => return Err(AllocError),
        Err(PlannerFault::NoPlan(_)) => {}
    }
    near(alloc, coterie, capacities, most)
}

/// Finds weights as [`weights`] does. Returns `Ok` if their load is at most so many millionths of their
/// bound above the bound, and else `Err`, with the weights all the same.
pub fn weights_within(
    alloc: Global,
    coterie: &Coterie,
    capacities: &[u64],
    most: u64,
    millionths: u64,
) -> Result<Result<Weights, Weights>, AllocError>
    requires capacities { AreCapacities capacities.now coterie.now.voters }
    requires most { (0 < most) × (most ≤ max_cycle) }
    requires millionths { millionths ≤ 1000000 }
    ensures coterie { IfOk result (HoldsOfEither (λ w. w.system ≡ coterie.now)) }
    ensures capacities { IfOk result (HoldsOfEither (λ w. w.capacities ≡ capacities.now)) }
    ensures weights { IfOk result (HoldsOfEither AreWeights) }
    ensures short { IfOk result (HoldsOfEither (λ w. cycle_len w ≤ most)) }
    ensures lowest { IfOk result (HoldsOfEither (λ w. HaveNoCommonDivisor w.voter_weights)) }
    ensures bounded { IfOk result (HoldsOfEither IsBounded) }
    ensures within { IfOk result (λ found. IfOk found (IsWithin millionths)) }
    ensures beyond { IfOk result (λ found. IfErr found (λ w. ¬ IsWithin millionths w)) }
{
    let weights = weights(alloc, coterie, capacities, most)?;
    if is_within(&weights, millionths) {
        return Ok(Ok(weights));
    }
    Ok(Err(weights))
}
