//! Weights of a coterie's quorums and voters.
ghost use Rattle.std.specs.Prelude.{◌≡◌, ◌↔◌, ◌*◌, ◌<◌, ◌≤◌, true, length, IfOk, slice_index};
ghost use Rattle.std.specs.Int.{IsGcd};
ghost use Rattle.quorum_set.specs.Capacities.{AreCapacities};
ghost use Rattle.certificate.specs.Bounds.{BearsBound, IsBounded, bound_of};
ghost use Rattle.certificate.specs.Certificates.{AnswersWeights, AreSums, AreWeights, IsCertificate, capacity_total, cycle_count, cycle_len, cycle_ratio, busiest_count, lightest_quorum, load_of, with_weights};
ghost use Rattle.certificate.specs.Ratios.{IsAtMost};

use crate::fault::PlanFault;
use crate::loads::weight_on;
use crate::sums::{Sums, are_balanced, sums_of};
use divisor::lowest_terms;
use quorum_set::Coterie;
use std::alloc::{AllocError, Global};
use std::marker::Model;

/// A coterie with a capacity for each voter, a weight for each quorum, and a weight for each voter.
/// The voters' weights show how far the load is above the smallest possible one, at most. Contracts
/// see the four.
#[derive(Drop)]
pub struct Weights {
    coterie: Coterie,
    capacities: Vec<u64>,
    quorum_weights: Vec<u64>,
    voter_weights: Vec<u64>,
    sums: Sums,
}

impl Model for Weights {
    ghost use Rattle.certificate.specs.Certificates.{AreSums, AreWeights, Weighted, with_weights};

    ghost Value = { Weighted };

    ghost view = { λ w. with_weights w.coterie w.capacities.items w.quorum_weights.items w.voter_weights.items };

    ghost invariant = { λ w.
        AreWeights (with_weights w.coterie w.capacities.items w.quorum_weights.items w.voter_weights.items)
        × AreSums (with_weights w.coterie w.capacities.items w.quorum_weights.items w.voter_weights.items) w.sums };
}

/// Returns the weights that have these sums.
pub(crate) fn with_sums(
    alloc: Global,
    coterie: &Coterie,
    capacities: &[u64],
    quorum_weights: Vec<u64>,
    voter_weights: Vec<u64>,
    sums: Sums,
) -> Result<Weights, AllocError>
    requires weights { AreWeights (with_weights coterie.now capacities.now quorum_weights.items voter_weights.items) }
    requires sums { AreSums (with_weights coterie.now capacities.now quorum_weights.items voter_weights.items) sums }
    ensures { IfOk result (λ w.
        w ≡ with_weights coterie.now capacities.now quorum_weights.items voter_weights.items) }
{
    Ok(Weights {
        coterie: coterie.copy(alloc)?,
        capacities: capacities.to_vec(alloc)?,
        quorum_weights,
        voter_weights,
        sums,
    })
}

impl Weights {
    /// Returns weights of a copy of the coterie, with the capacities. There has to be a capacity for
    /// each voter, 1 to 1000.
    ///
    /// Fails with the first of these faults:
    ///
    /// - `WrongLength` if there is not one weight for each quorum and one for each voter;
    /// - `TooLarge` if a sum of weights is above 1,000,000;
    /// - `Empty` if a sum of weights is 0;
    /// - `OutOfMemory`.
    pub fn of(
        alloc: Global,
        coterie: &Coterie,
        capacities: &[u64],
        quorum_weights: Vec<u64>,
        voter_weights: Vec<u64>,
    ) -> Result<Weights, PlanFault>
        requires capacities { AreCapacities capacities.now coterie.now.voters }
        ensures exact { AnswersWeights
            (with_weights coterie.now capacities.now quorum_weights.items voter_weights.items) result }
        ensures weights { IfOk result AreWeights }
    {
        let sums = match sums_of(coterie, capacities, &quorum_weights, &voter_weights) {
            Ok(sums) => sums,
            Err(fault) => return Err(fault),
        };
        Ok(with_sums(
            alloc,
            coterie,
            capacities,
            quorum_weights,
            voter_weights,
            sums,
        )?)
    }

    /// Returns the coterie.
    pub fn coterie(&self) -> &Coterie
        ensures value { result.now ≡ self.now.system }
        ensures weights { AreWeights self.now }
    {
        &self.coterie
    }

    /// Returns the capacity of each voter.
    pub fn capacities(&self) -> &[u64]
        ensures value { result.now ≡ self.now.capacities }
        ensures weights { AreWeights self.now }
    {
        self.capacities.as_slice()
    }

    /// Returns the capacity of a voter, 1 to 1000. The voter's number has to be below the number of
    /// voters.
    pub fn capacity(&self, voter: u8) -> u64
        requires { voter < self.now.system.voters }
        ensures value { result ≡ slice_index self.now.capacities voter }
        ensures weights { AreWeights self.now }
    {
        self.capacities[usize::from(voter)]
    }

    /// Returns the weight of each quorum: how often a cycle uses it.
    pub fn quorum_weights(&self) -> &[u64]
        ensures value { result.now ≡ self.now.quorum_weights }
        ensures weights { AreWeights self.now }
    {
        self.quorum_weights.as_slice()
    }

    /// Returns the weight of a quorum. The quorum's number has to be below the number of quorums.
    pub fn weight(&self, quorum: usize) -> u64
        requires { quorum < length self.now.system.quorums }
        ensures value { result ≡ slice_index self.now.quorum_weights quorum }
        ensures weights { AreWeights self.now }
    {
        self.quorum_weights[quorum]
    }

    /// Returns the weight of each voter.
    pub fn voter_weights(&self) -> &[u64]
        ensures value { result.now ≡ self.now.voter_weights }
        ensures weights { AreWeights self.now }
    {
        self.voter_weights.as_slice()
    }

    /// Returns the weight of a voter. The voter's number has to be below the number of voters.
    pub fn voter_weight(&self, voter: u8) -> u64
        requires { voter < self.now.system.voters }
        ensures value { result ≡ slice_index self.now.voter_weights voter }
        ensures weights { AreWeights self.now }
    {
        self.voter_weights[usize::from(voter)]
    }

    /// Returns how often a cycle uses a voter: the sum of the weights of the quorums with that voter.
    pub fn count(&self, voter: u8) -> u64
        ensures value { result ≡ cycle_count self.now voter }
        ensures weights { AreWeights self.now }
    {
        weight_on(&self.coterie, &self.quorum_weights, voter)
    }

    /// Returns the length of a cycle: the sum of the quorums' weights, 1 to 1,000,000.
    pub fn cycle_len(&self) -> u64
        ensures value { result ≡ cycle_len self.now }
        ensures weights { AreWeights self.now }
    {
        self.sums.cycle_len
    }

    /// Returns how often a cycle uses its busiest voter.
    pub fn busiest(&self) -> u64
        ensures value { result ≡ busiest_count self.now }
        ensures weights { AreWeights self.now }
    {
        self.sums.busiest
    }

    /// Returns the ratio of a cycle: how often it uses a voter, divided by the voter's capacity, for
    /// the voter of which this is greatest. It is a numerator and a denominator in lowest terms.
    pub fn ratio(&self) -> (u64, u64)
        ensures value { result ≡ cycle_ratio self.now }
        ensures weights { AreWeights self.now }
    {
        self.sums.ratio
    }

    /// Returns the sum of the voters' weights, each times the voter's capacity: 1 to 1,000,000,000.
    pub fn capacity_total(&self) -> u64
        ensures value { result ≡ capacity_total self.now }
        ensures weights { AreWeights self.now }
    {
        self.sums.capacity_total
    }

    /// Returns the weight of the lightest quorum: the smallest sum, over the quorums, of the weights of
    /// a quorum's members.
    pub fn lightest_quorum(&self) -> u64
        ensures value { result ≡ lightest_quorum self.now }
        ensures weights { AreWeights self.now }
    {
        self.sums.lightest_quorum
    }

    /// Returns the load, as a numerator and a denominator in lowest terms: the ratio of a cycle,
    /// divided by its length.
    pub fn load(&self) -> (u64, u64)
        ensures value { result ≡ load_of self.now }
        ensures exact { result.0 * ((cycle_ratio self.now).1 * cycle_len self.now)
            ≡ (cycle_ratio self.now).0 * result.1 }
        ensures lowest { IsGcd result.0 result.1 1 }
        ensures weights { AreWeights self.now }
        ensures small { (result.0 ≤ 1000000) × (result.1 ≤ 1000000000) }
        // It is at least the bound.
        ensures above { IsAtMost (bound_of self.now) result }
    {
        lowest_terms(self.sums.ratio.0, self.sums.ratio.1 * self.sums.cycle_len)
    }

    /// Returns the bound, as a numerator and a denominator in lowest terms. No weights of the same
    /// coterie and capacities have a smaller load.
    pub fn bound(&self) -> (u64, u64)
        ensures value { result ≡ bound_of self.now }
        ensures weights { AreWeights self.now }
        ensures small { (result.0 ≤ 64000000) × (result.1 ≤ 1000000000) }
        // No weights of this coterie and these capacities have a load below the bound.
        ensures bounded { IsBounded self.now }
        // Each list of quorums uses some voter, for its capacity, at least as often as the bound says.
        ensures voter { BearsBound self.now }
    {
        lowest_terms(self.sums.lightest_quorum, self.sums.capacity_total)
    }

    /// Returns whether the sums are balanced. Then the load is the bound.
    pub(crate) fn is_balanced(&self) -> bool
        ensures { (result ≡ true) ↔ IsCertificate self.now }
    {
        are_balanced(&self.sums)
    }

    /// Returns equal weights, unless it runs out of memory.
    pub fn copy(&self, alloc: Global) -> Result<Weights, AllocError>
        ensures value { IfOk result (λ w. w ≡ self.now) }
        ensures weights { AreWeights self.now }
    {
        Ok(Weights {
            coterie: self.coterie.copy(alloc)?,
            capacities: self.capacities.as_slice().to_vec(alloc)?,
            quorum_weights: self.quorum_weights.as_slice().to_vec(alloc)?,
            voter_weights: self.voter_weights.as_slice().to_vec(alloc)?,
            sums: self.sums,
        })
    }
}
