//! The search for a plan.
ghost use Rattle.std.specs.Prelude.{◌≡◌, length, vec_len, IfOk, IfSome, IfErr, IsOkUnless};
ghost use Rattle.quorum_set.specs.Capacities.{AreCapacities};
ghost use Rattle.certificate.specs.Certificates.{IsCertificate, IsOptimal};
ghost use Rattle.planner.specs.Uniform.{AreEqual, IsUniform, IsWarranted, all_ones};
ghost use Rattle.planner.specs.Weights.{HaveNoCommonDivisor};
ghost use Rattle.planner.specs.Causes.{CanCome};

use crate::fault::PlannerFault;
use crate::lowest::divide;
use basis::{Tableau, inner_weights, quorum_weights, search as search_basis, voter_weights};
use certificate::{Plan, PlanFault, check};
use quorum_set::Coterie;
use simplex::solve;
use std::alloc::Global;

/// The number of pivots that the simplex method may make.
const PIVOTS: u32 = 10_000;

/// A plan with a cycle of at most this length is taken as it is. To look for a shorter one inside the
/// face takes up to ten times as long as to find it.
const SHORT: u64 = 3_000;

/// With at most this many voters exact numbers are as quick as floating point, and come first.
const FEW: usize = 20;

/// Returns the plan with all weights 1, or the fault of the check.
fn even(alloc: Global, coterie: &Coterie, capacities: &[u64]) -> Result<Plan, PlanFault>
    requires capacities { AreCapacities capacities.now coterie.now.voters }
    ensures coterie { IfOk result (λ p. p.system ≡ coterie.now) }
    ensures capacities { IfOk result (λ p. p.capacities ≡ capacities.now) }
    ensures certificate { IfOk result IsCertificate }
    ensures optimal { IfOk result IsOptimal }
    ensures uniform { IsUniform coterie.now → AreEqual capacities.now → IsOkUnless result PlanFault.OutOfMemory }
    ensures ones { IfOk result (λ p. p ≡ all_ones coterie.now capacities.now) }
    ensures certified { IsCertificate (all_ones coterie.now capacities.now) → IsOkUnless result PlanFault.OutOfMemory }
{
    let quorum_weights = vec![in alloc; 1u64; coterie.count()]?;
    let voter_weights = vec![in alloc; 1u64; coterie.voters()]?;
    check(alloc, coterie, capacities, quorum_weights, voter_weights)
}

/// Returns the plan of some weights, in lowest terms, or the fault of the check.
fn checked(
    alloc: Global,
    coterie: &Coterie,
    capacities: &[u64],
    mut quorum_weights: Vec<u64>,
    mut voter_weights: Vec<u64>,
) -> Result<Plan, PlannerFault>
    requires capacities { AreCapacities capacities.now coterie.now.voters }
    requires quorums { vec_len quorum_weights ≡ length coterie.now.quorums }
    requires voters { vec_len voter_weights ≡ coterie.now.voters }
    ensures coterie { IfOk result (λ p. p.system ≡ coterie.now) }
    ensures capacities { IfOk result (λ p. p.capacities ≡ capacities.now) }
    ensures certificate { IfOk result IsCertificate }
    ensures optimal { IfOk result IsOptimal }
    ensures lowest { IfOk result (λ p. HaveNoCommonDivisor p.quorum_weights × HaveNoCommonDivisor p.voter_weights) }
    ensures unreachable { IfErr result (CanCome capacities.now) }
{
    divide(&mut quorum_weights);
    divide(&mut voter_weights);
    match check(alloc, coterie, capacities, quorum_weights, voter_weights) {
        Ok(plan) => Ok(plan),
        Err(fault) => Err(PlannerFault::of_check(fault)),
    }
}

/// Returns the plan of some weights, in lowest terms, if they are a certificate.
fn accepted(
    alloc: Global,
    coterie: &Coterie,
    capacities: &[u64],
    quorum_weights: Vec<u64>,
    voter_weights: Vec<u64>,
) -> Result<Option<Plan>, PlannerFault>
    requires capacities { AreCapacities capacities.now coterie.now.voters }
    requires quorums { vec_len quorum_weights ≡ length coterie.now.quorums }
    requires voters { vec_len voter_weights ≡ coterie.now.voters }
    ensures coterie { IfOk result (λ o. IfSome o (λ p. p.system ≡ coterie.now)) }
    ensures capacities { IfOk result (λ o. IfSome o (λ p. p.capacities ≡ capacities.now)) }
    ensures certificate { IfOk result (λ o. IfSome o IsCertificate) }
    ensures optimal { IfOk result (λ o. IfSome o IsOptimal) }
    ensures lowest { IfOk result (λ o. IfSome o (λ p.
        HaveNoCommonDivisor p.quorum_weights × HaveNoCommonDivisor p.voter_weights)) }
    ensures memory { IfErr result (λ fault. fault ≡ PlannerFault.OutOfMemory) }
{
    match checked(alloc, coterie, capacities, quorum_weights, voter_weights) {
        Ok(plan) => Ok(Some(plan)),
        Err(PlannerFault::OutOfMemory) => Err(PlannerFault::OutOfMemory),
        Err(_) => Ok(None),
    }
}

/// Returns the plan of the basis that a search in floating point ended with, if its weights are one.
fn by_vertex(
    alloc: Global,
    coterie: &Coterie,
    capacities: &[u64],
    tableau: &Tableau,
    voters: &[u64],
) -> Result<Option<Plan>, PlannerFault>
    requires capacities { AreCapacities capacities.now coterie.now.voters }
    requires voters { length voters.now ≡ coterie.now.voters }
    ensures coterie { IfOk result (λ o. IfSome o (λ p. p.system ≡ coterie.now)) }
    ensures capacities { IfOk result (λ o. IfSome o (λ p. p.capacities ≡ capacities.now)) }
    ensures certificate { IfOk result (λ o. IfSome o IsCertificate) }
    ensures optimal { IfOk result (λ o. IfSome o IsOptimal) }
    ensures lowest { IfOk result (λ o. IfSome o (λ p.
        HaveNoCommonDivisor p.quorum_weights × HaveNoCommonDivisor p.voter_weights)) }
    ensures memory { IfErr result (λ fault. fault ≡ PlannerFault.OutOfMemory) }
{
    match quorum_weights(alloc, coterie, capacities, tableau)? {
        Some(quorums) => {
            let voters = voters.to_vec(alloc)?;
            accepted(alloc, coterie, capacities, quorums, voters)
        }
        None => Ok(None),
    }
}

/// Returns the plan of weights near a point inside the face of all that are as good, if there is one.
fn by_face(
    alloc: Global,
    coterie: &Coterie,
    capacities: &[u64],
    tableau: Tableau,
    voters: Vec<u64>,
) -> Result<Option<Plan>, PlannerFault>
    requires capacities { AreCapacities capacities.now coterie.now.voters }
    requires voters { vec_len voters ≡ coterie.now.voters }
    ensures coterie { IfOk result (λ o. IfSome o (λ p. p.system ≡ coterie.now)) }
    ensures capacities { IfOk result (λ o. IfSome o (λ p. p.capacities ≡ capacities.now)) }
    ensures certificate { IfOk result (λ o. IfSome o IsCertificate) }
    ensures optimal { IfOk result (λ o. IfSome o IsOptimal) }
    ensures lowest { IfOk result (λ o. IfSome o (λ p.
        HaveNoCommonDivisor p.quorum_weights × HaveNoCommonDivisor p.voter_weights)) }
    ensures memory { IfErr result (λ fault. fault ≡ PlannerFault.OutOfMemory) }
{
    match inner_weights(alloc, coterie, capacities, tableau, &voters)? {
        Some(quorums) => accepted(alloc, coterie, capacities, quorums, voters),
        None => Ok(None),
    }
}

/// Returns the plan that the simplex method finds in exact numbers.
fn by_simplex(alloc: Global, coterie: &Coterie, capacities: &[u64]) -> Result<Plan, PlannerFault>
    requires capacities { AreCapacities capacities.now coterie.now.voters }
    ensures coterie { IfOk result (λ p. p.system ≡ coterie.now) }
    ensures capacities { IfOk result (λ p. p.capacities ≡ capacities.now) }
    ensures certificate { IfOk result IsCertificate }
    ensures optimal { IfOk result IsOptimal }
    ensures lowest { IfOk result (λ p. HaveNoCommonDivisor p.quorum_weights × HaveNoCommonDivisor p.voter_weights) }
    ensures unreachable { IfErr result (CanCome capacities.now) }
{
    match solve(alloc, coterie, capacities, PIVOTS) {
        Ok(candidate) => checked(
            alloc,
            coterie,
            capacities,
            candidate.quorum_weights,
            candidate.voter_weights,
        ),
        Err(fault) => Err(PlannerFault::of_simplex(fault)),
    }
}

/// Returns the plan that the simplex method finds in exact numbers, if it finds one.
fn by_numbers(
    alloc: Global,
    coterie: &Coterie,
    capacities: &[u64],
) -> Result<Option<Plan>, PlannerFault>
    requires capacities { AreCapacities capacities.now coterie.now.voters }
    ensures coterie { IfOk result (λ o. IfSome o (λ p. p.system ≡ coterie.now)) }
    ensures capacities { IfOk result (λ o. IfSome o (λ p. p.capacities ≡ capacities.now)) }
    ensures certificate { IfOk result (λ o. IfSome o IsCertificate) }
    ensures optimal { IfOk result (λ o. IfSome o IsOptimal) }
    ensures lowest { IfOk result (λ o. IfSome o (λ p.
        HaveNoCommonDivisor p.quorum_weights × HaveNoCommonDivisor p.voter_weights)) }
    ensures memory { IfErr result (λ fault. fault ≡ PlannerFault.OutOfMemory) }
{
    match by_simplex(alloc, coterie, capacities) {
        Ok(plan) => Ok(Some(plan)),
        Err(PlannerFault::OutOfMemory) => Err(PlannerFault::OutOfMemory),
        Err(_) => Ok(None),
    }
}

/// Returns the plan that the simplex method finds in exact numbers, if there are few voters and its
/// cycle is short.
fn by_few(
    alloc: Global,
    coterie: &Coterie,
    capacities: &[u64],
) -> Result<Option<Plan>, PlannerFault>
    requires capacities { AreCapacities capacities.now coterie.now.voters }
    ensures coterie { IfOk result (λ o. IfSome o (λ p. p.system ≡ coterie.now)) }
    ensures capacities { IfOk result (λ o. IfSome o (λ p. p.capacities ≡ capacities.now)) }
    ensures certificate { IfOk result (λ o. IfSome o IsCertificate) }
    ensures optimal { IfOk result (λ o. IfSome o IsOptimal) }
    ensures lowest { IfOk result (λ o. IfSome o (λ p.
        HaveNoCommonDivisor p.quorum_weights × HaveNoCommonDivisor p.voter_weights)) }
    ensures memory { IfErr result (λ fault. fault ≡ PlannerFault.OutOfMemory) }
{
    if coterie.voters() > FEW {
        return Ok(None);
    }
    match by_numbers(alloc, coterie, capacities)? {
        Some(plan) if plan.cycle_len() <= SHORT => Ok(Some(plan)),
        _ => Ok(None),
    }
}

/// Returns a plan by a search in floating point, if it leads to one. The basis has a plan whose cycle
/// is short, or the shorter plan counts of the basis and of a point inside the face.
fn by_basis(
    alloc: Global,
    coterie: &Coterie,
    capacities: &[u64],
) -> Result<Option<Plan>, PlannerFault>
    requires capacities { AreCapacities capacities.now coterie.now.voters }
    ensures coterie { IfOk result (λ o. IfSome o (λ p. p.system ≡ coterie.now)) }
    ensures capacities { IfOk result (λ o. IfSome o (λ p. p.capacities ≡ capacities.now)) }
    ensures certificate { IfOk result (λ o. IfSome o IsCertificate) }
    ensures optimal { IfOk result (λ o. IfSome o IsOptimal) }
    ensures lowest { IfOk result (λ o. IfSome o (λ p.
        HaveNoCommonDivisor p.quorum_weights × HaveNoCommonDivisor p.voter_weights)) }
    ensures memory { IfErr result (λ fault. fault ≡ PlannerFault.OutOfMemory) }
{
    let tableau = search_basis(alloc, coterie, capacities)?;
    let Some(voters) = voter_weights(alloc, coterie, &tableau)? else {
        return Ok(None);
    };
    let Some(vertex) = by_vertex(alloc, coterie, capacities, &tableau, &voters)? else {
        return by_face(alloc, coterie, capacities, tableau, voters);
    };
    if vertex.cycle_len() <= SHORT {
        return Ok(Some(vertex));
    }
    match by_face(alloc, coterie, capacities, tableau, voters)? {
        Some(inner) if inner.cycle_len() <= vertex.cycle_len() => Ok(Some(inner)),
        _ => Ok(Some(vertex)),
    }
}

/// Returns the plan that one of the searches finds, or the fault of the last.
fn search(alloc: Global, coterie: &Coterie, capacities: &[u64]) -> Result<Plan, PlannerFault>
    requires capacities { AreCapacities capacities.now coterie.now.voters }
    ensures coterie { IfOk result (λ p. p.system ≡ coterie.now) }
    ensures capacities { IfOk result (λ p. p.capacities ≡ capacities.now) }
    ensures certificate { IfOk result IsCertificate }
    ensures optimal { IfOk result IsOptimal }
    ensures lowest { IfOk result (λ p. HaveNoCommonDivisor p.quorum_weights × HaveNoCommonDivisor p.voter_weights) }
    ensures unreachable { IfErr result (CanCome capacities.now) }
{
    match by_few(alloc, coterie, capacities) {
        Ok(Some(plan)) => return Ok(plan),
        Ok(None) => {}
        Err(fault) => return Err(fault),
    }
    match by_basis(alloc, coterie, capacities) {
        Ok(Some(plan)) => Ok(plan),
        Ok(None) => by_simplex(alloc, coterie, capacities),
        Err(fault) => Err(fault),
    }
}

/// Returns a plan of the coterie and its voters' capacities: weights of its quorums that load the
/// busiest voter least, for the voter's capacity, and the voters' weights that certify it. There has
/// to be a capacity for each voter, 1 to 1000.
///
/// All weights are 1 if and only if these are a certificate. They are one for uniform coteries whose
/// voters have the same capacity. Otherwise the simplex method looks for weights: first in exact
/// numbers if there are at most 20 voters, then as `basis` does, and last in exact numbers, with at
/// most 10,000 pivots. In each case no number above 1 divides all weights of the quorums, or all
/// weights of the voters.
///
/// Fails with `NoPlan` if no search finds a plan, with the cause of the last one. That all weights 1
/// are a certificate excludes this. It may run out of memory at any point.
pub fn plan(alloc: Global, coterie: &Coterie, capacities: &[u64]) -> Result<Plan, PlannerFault>
    requires capacities { AreCapacities capacities.now coterie.now.voters }
    ensures coterie { IfOk result (λ p. p.system ≡ coterie.now) }
    ensures capacities { IfOk result (λ p. p.capacities ≡ capacities.now) }
    ensures certificate { IfOk result IsCertificate }
    ensures optimal { IfOk result IsOptimal }
    // A uniform coterie whose voters have the same capacity gets a plan, unless memory runs out.
    ensures uniform { IfErr result (IsWarranted coterie.now capacities.now) }
    // If all weights 1 are a certificate, there is a plan, unless memory runs out.
    ensures certified { IsCertificate (all_ones coterie.now capacities.now)
        → IsOkUnless result PlannerFault.OutOfMemory }
    // All weights are 1 if these are a certificate.
    ensures ones { IfOk result (λ p.
        IsCertificate (all_ones coterie.now capacities.now) → p ≡ all_ones coterie.now capacities.now) }
    // No number above 1 divides all weights of the quorums, or all weights of the voters.
    ensures lowest { IfOk result (λ p. HaveNoCommonDivisor p.quorum_weights × HaveNoCommonDivisor p.voter_weights) }
    // There are never too few or too many weights, and P4 and P8 depend on the capacities.
    ensures unreachable { IfErr result (CanCome capacities.now) }
{
    match even(alloc, coterie, capacities) {
        Ok(plan) => Ok(plan),
        Err(PlanFault::OutOfMemory) => Err(PlannerFault::OutOfMemory),
        Err(_) => search(alloc, coterie, capacities),
    }
}
