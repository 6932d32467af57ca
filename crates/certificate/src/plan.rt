//! Plans.
ghost use Rattle.std.specs.Prelude.{◌≡◌, ◌*◌, ◌<◌, true, length, IfErr, IfOk, slice_index};
ghost use Rattle.std.specs.Int.{IsGcd};
ghost use Rattle.quorum_set.specs.Capacities.{AreCapacities, are_unit};
ghost use Rattle.certificate.specs.Bounds.{bound_of};
ghost use Rattle.certificate.specs.Certificates.{IsCertificate, IsOptimal, IsUnitOptimal, AnswersPlan, capacity_total, cycle_count, cycle_len, cycle_ratio, busiest_count, lightest_quorum, load_of, unit_load, with_weights};

use crate::fault::PlanFault;
use crate::sums::balanced_sums_of;
use crate::weights::{Weights, with_sums};
use quorum_set::Coterie;
use std::alloc::{AllocError, Global};
use std::marker::Model;

/// Weights whose load is their bound. So no weights of the coterie and the capacities have a smaller
/// load, and the voters' weights are the certificate of that. Contracts see the weights.
#[derive(Drop)]
pub struct Plan {
    weights: Weights,
}

impl Model for Plan {
    ghost use Rattle.certificate.specs.Certificates.{IsCertificate, Weighted};

    ghost Value = { Weighted };

    ghost view = { λ p. p.weights };

    ghost invariant = { λ p. IsCertificate p.weights };
}

/// Checks weights of the quorums against weights of the voters. Returns the plan that has both, a
/// copy of the coterie, and the capacities. There has to be a capacity for each voter, 1 to 1000.
///
/// Fails with the first of these faults:
///
/// - `WrongLength` if there is not one weight for each quorum and one for each voter;
/// - `TooLarge` if a sum of weights is above 1,000,000;
/// - `Empty` if a sum of weights is 0;
/// - `NotOptimal` if the weights are no certificate; `NotOptimalRatio` in its place if some capacity
///   is not 1;
/// - `OutOfMemory`.
pub fn check(
    alloc: Global,
    coterie: &Coterie,
    capacities: &[u64],
    quorum_weights: Vec<u64>,
    voter_weights: Vec<u64>,
) -> Result<Plan, PlanFault>
    requires capacities { AreCapacities capacities.now coterie.now.voters }
    ensures exact { AnswersPlan
        (with_weights coterie.now capacities.now quorum_weights.items voter_weights.items) result }
    ensures certificate { IfOk result IsCertificate }
    ensures optimal { IfOk result IsOptimal }
{
    plan_of(alloc, coterie, capacities, quorum_weights, voter_weights)
}

/// Returns the plan of these weights, or the first fault.
fn plan_of(
    alloc: Global,
    coterie: &Coterie,
    capacities: &[u64],
    quorum_weights: Vec<u64>,
    voter_weights: Vec<u64>,
) -> Result<Plan, PlanFault>
    requires capacities { AreCapacities capacities.now coterie.now.voters }
    ensures exact { AnswersPlan
        (with_weights coterie.now capacities.now quorum_weights.items voter_weights.items) result }
    ensures certificate { IfOk result IsCertificate }
{
    let sums = match balanced_sums_of(coterie, capacities, &quorum_weights, &voter_weights) {
        Ok(sums) => sums,
        Err(fault) => return Err(fault),
    };
    let weights = with_sums(
        alloc,
        coterie,
        capacities,
        quorum_weights,
        voter_weights,
        sums,
    )?;
    Ok(Plan { weights })
}

impl Weights {
    /// Returns the plan of these weights if they are a certificate, so that the load is the bound.
    /// Otherwise gives the weights back.
    pub fn into_plan(self) -> Result<Plan, Weights>
        ensures plan { IfOk result (λ p. p ≡ self) }
        ensures certificate { IfOk result IsCertificate }
        ensures optimal { IfOk result IsOptimal }
        ensures weights { IfErr result (λ w. w ≡ self) }
        ensures above { IfErr result (λ w. ¬ IsCertificate w) }
    {
        if self.is_balanced() {
            return Ok(Plan { weights: self });
        }
        Err(self)
    }
}

impl Plan {
    /// Returns the coterie.
    pub fn coterie(&self) -> &Coterie
        ensures value { result.now ≡ self.now.system }
        ensures certificate { IsCertificate self.now }
    {
        self.weights.coterie()
    }

    /// Returns the length of a cycle: the sum of the quorums' weights, 1 to 1,000,000.
    pub fn cycle_len(&self) -> u64
        ensures value { result ≡ cycle_len self.now }
        ensures certificate { IsCertificate self.now }
    {
        self.weights.cycle_len()
    }

    /// Returns how often a cycle uses its busiest voter.
    pub fn busiest(&self) -> u64
        ensures value { result ≡ busiest_count self.now }
        ensures certificate { IsCertificate self.now }
        // If all capacities are 1, no list of quorums has, for its length, a smaller busiest count.
        ensures least { are_unit self.now.capacities ≡ true → IsUnitOptimal self.now }
    {
        self.weights.busiest()
    }

    /// Returns the ratio of a cycle: how often it uses a voter, divided by the voter's capacity, for
    /// the voter of which this is greatest. It is a numerator and a denominator in lowest terms. If
    /// all capacities are 1, it is the busiest count and 1.
    pub fn ratio(&self) -> (u64, u64)
        ensures value { result ≡ cycle_ratio self.now }
        ensures certificate { IsCertificate self.now }
        // Each list of quorums uses some voter, for its length and the voter's capacity, as much.
        ensures optimal { IsOptimal self.now }
    {
        self.weights.ratio()
    }

    /// Returns the load, as a numerator and a denominator in lowest terms: the ratio of a cycle,
    /// divided by its length. If all capacities are 1, it is the share of a cycle's quorums that
    /// have the busiest voter.
    pub fn load(&self) -> (u64, u64)
        ensures value { result ≡ load_of self.now }
        ensures exact { result.0 * ((cycle_ratio self.now).1 * cycle_len self.now)
            ≡ (cycle_ratio self.now).0 * result.1 }
        ensures lowest { IsGcd result.0 result.1 1 }
        ensures certificate { IsCertificate self.now }
        ensures optimal { IsOptimal self.now }
        // If all capacities are 1, this is the least share that lists of quorums reach.
        ensures least { are_unit self.now.capacities ≡ true → (result ≡ unit_load self.now) × IsUnitOptimal self.now }
    {
        self.weights.load()
    }

    /// Returns the capacity of a voter, 1 to 1000. The voter's number has to be below the number of
    /// voters.
    pub fn capacity(&self, voter: u8) -> u64
        requires { voter < self.now.system.voters }
        ensures value { result ≡ slice_index self.now.capacities voter }
        ensures certificate { IsCertificate self.now }
    {
        self.weights.capacity(voter)
    }

    /// Returns the capacity of each voter.
    pub fn capacities(&self) -> &[u64]
        ensures value { result.now ≡ self.now.capacities }
        ensures certificate { IsCertificate self.now }
    {
        self.weights.capacities()
    }

    /// Returns the weight of a quorum: how often a cycle uses it. The quorum's number has to be
    /// below the number of quorums.
    pub fn weight(&self, quorum: usize) -> u64
        requires { quorum < length self.now.system.quorums }
        ensures value { result ≡ slice_index self.now.quorum_weights quorum }
        ensures certificate { IsCertificate self.now }
    {
        self.weights.weight(quorum)
    }

    /// Returns the weight of a voter in the certificate. The voter's number has to be below the
    /// number of voters.
    pub fn voter_weight(&self, voter: u8) -> u64
        requires { voter < self.now.system.voters }
        ensures value { result ≡ slice_index self.now.voter_weights voter }
        ensures certificate { IsCertificate self.now }
    {
        self.weights.voter_weight(voter)
    }

    /// Returns how often a cycle uses a voter: the sum of the weights of the quorums with that
    /// voter.
    pub fn count(&self, voter: u8) -> u64
        ensures value { result ≡ cycle_count self.now voter }
        ensures certificate { IsCertificate self.now }
    {
        self.weights.count(voter)
    }

    /// Returns the sum of the voters' weights in the certificate, each times the voter's capacity:
    /// 1 to 1,000,000,000.
    pub fn capacity_total(&self) -> u64
        ensures value { result ≡ capacity_total self.now }
        ensures certificate { IsCertificate self.now }
    {
        self.weights.capacity_total()
    }

    /// Returns the weight of the lightest quorum in the certificate: the smallest sum, over the
    /// quorums, of the weights of a quorum's members.
    pub fn lightest_quorum(&self) -> u64
        ensures value { result ≡ lightest_quorum self.now }
        ensures certificate { IsCertificate self.now }
    {
        self.weights.lightest_quorum()
    }

    /// Returns the weight of each quorum.
    pub(crate) fn quorum_weights(&self) -> &[u64]
        ensures { result.now ≡ self.now.quorum_weights }
    {
        self.weights.quorum_weights()
    }

    /// Returns the weight of each voter.
    pub(crate) fn voter_weights(&self) -> &[u64]
        ensures { result.now ≡ self.now.voter_weights }
    {
        self.weights.voter_weights()
    }

    /// Returns an equal plan, unless it runs out of memory.
    pub fn copy(&self, alloc: Global) -> Result<Plan, AllocError>
        ensures value { IfOk result (λ p. p ≡ self.now) }
        ensures certificate { IsCertificate self.now }
    {
        Ok(Plan {
            weights: self.weights.copy(alloc)?,
        })
    }

    /// Returns the weights.
    pub fn weights(&self) -> &Weights
        ensures value { result.now ≡ self.now }
        ensures certificate { IsCertificate self.now }
        // No weights of the coterie and the capacities have a smaller load.
        ensures load { load_of self.now ≡ bound_of self.now }
    {
        &self.weights
    }

    /// Returns the weights, without saying that they are a plan.
    pub fn into_weights(self) -> Weights
        ensures value { result ≡ self }
        ensures certificate { IsCertificate self }
        ensures load { load_of self ≡ bound_of self }
    {
        self.weights
    }
}
