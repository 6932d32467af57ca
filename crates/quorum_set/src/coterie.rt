//! Coteries, and the check that a list of sets is a coterie.
ghost use Rattle.std.specs.Prelude.{◌≡◌, ◌==◌, ◌<◌, ◌+◌, length, None, Some, IfOk, IfNone, position, slice_get, All};
ghost use Rattle.numbers.specs.Sets.{IsSet};
ghost use Rattle.quorum_set.specs.Coteries.{IsCoterie, first_outside, first_from, first_pair, are_disjoint, is_one_within, first_fault, coterie_of};

use crate::fault::CoterieFault;
use crate::qset::QSet;
use numbers::{MAX_QUORUMS, MAX_VOTERS};
use std::alloc::{AllocError, Global};
use std::marker::Model;

/// A coterie: 1 to 64 voters, numbered from 0, and 1 to 4096 quorums.
///
/// A quorum is a non-empty set of voters. Any two quorums have a common member, and none lies
/// within another. Contracts see a `QuorumSystem`: the number of voters, and each quorum as the
/// ascending list of its members.
#[derive(Drop)]
pub struct Coterie {
    voters: usize,
    quorums: Vec<QSet>,
}

impl Model for Coterie {
    ghost use Rattle.quorum_set.specs.Coteries.{QuorumSystem, IsCoterie};

    ghost Value = { QuorumSystem };

    ghost view = { λ a. record { voters = a.voters; quorums = a.quorums.items } };

    ghost invariant = { λ a. IsCoterie (record { voters = a.voters; quorums = a.quorums.items }) };
}

/// Returns the place of the first set with no members.
fn first_empty(sets: &[QSet]) -> Option<usize>
    ensures { result ≡ position (λ s. length s == 0) sets.now }
{
    sets.iter().position(|set| set.len() == 0)
}

/// Returns the smallest member that is not below n, the number of voters.
fn first_outsider(n: usize, set: &QSet) -> Option<u8>
    ensures first { result ≡ first_from n set.now }
    ensures set { IsSet set.now }
{
    let members = set.members();
    for i in members.as_slice() {
        if n <= usize::from(*i) {
            return Some(*i);
        }
    }
    None
}

/// Returns the place of the first set with a member that is not below n, and its smallest such
/// member.
fn first_stray(n: usize, sets: &[QSet]) -> Option<(usize, u8)>
    ensures first { result ≡ first_outside n 0 sets.now }
    ensures sets { IfNone result (All IsSet sets.now) }
{
    for (j, set) in sets.iter().enumerate() {
        if let Some(i) = first_outsider(n, set) {
            return Some((j, i));
        }
    }
    None
}

/// Returns the place of the first of the later sets that has no member in common with this one.
pub(crate) fn first_disjoint_from(set: &QSet, later: &[QSet]) -> Option<usize>
    ensures { result ≡ position (are_disjoint set.now) later.now }
{
    later.iter().position(|other| !set.meets(other))
}

/// Returns the place of the first of the later sets that is within this one or has this one within
/// it.
fn first_contained_with(set: &QSet, later: &[QSet]) -> Option<usize>
    ensures { result ≡ position (is_one_within set.now) later.now }
{
    later
        .iter()
        .position(|other| set.within(other) || other.within(set))
}

/// Returns the places of the first pair of sets without a common member.
fn first_disjoint(sets: &[QSet]) -> Option<(usize, usize)>
    ensures { result ≡ first_pair are_disjoint 0 sets.now }
{
    for (j, set) in sets.iter().enumerate() {
        if let Some(k) = first_disjoint_from(set, &sets[j + 1..]) {
            return Some((j, j + 1 + k));
        }
    }
    None
}

/// Returns the places of the first pair of sets with one within the other.
fn first_contained(sets: &[QSet]) -> Option<(usize, usize)>
    ensures { result ≡ first_pair is_one_within 0 sets.now }
{
    for (j, set) in sets.iter().enumerate() {
        if let Some(k) = first_contained_with(set, &sets[j + 1..]) {
            return Some((j, j + 1 + k));
        }
    }
    None
}

/// Returns the first fault of the sets, or `None` if they are a coterie.
fn fault_of(n: usize, sets: &[QSet]) -> Option<CoterieFault>
    ensures first { result ≡ first_fault n sets.now }
    ensures sets { IfNone result (All IsSet sets.now) }
{
    if n == 0 {
        return Some(CoterieFault::NoVoters);
    }
    if n > MAX_VOTERS {
        return Some(CoterieFault::TooManyVoters);
    }
    if sets.is_empty() {
        return Some(CoterieFault::NoQuorums);
    }
    if sets.len() > MAX_QUORUMS {
        return Some(CoterieFault::TooManyQuorums);
    }
    if let Some(j) = first_empty(sets) {
        return Some(CoterieFault::EmptyQuorum(j));
    }
    if let Some((j, i)) = first_stray(n, sets) {
        return Some(CoterieFault::VoterOutOfRange(j, i));
    }
    if let Some((j, k)) = first_disjoint(sets) {
        return Some(CoterieFault::Disjoint(j, k));
    }
    if let Some((j, k)) = first_contained(sets) {
        return Some(CoterieFault::Contained(j, k));
    }
    None
}

impl Coterie {
    /// Returns the coterie of this many voters and these quorums, or their first fault in the order
    /// of `CoterieFault`. Allocates nothing: a coterie keeps the list, and a fault drops it.
    pub fn of(voters: usize, sets: Vec<QSet>) -> Result<Coterie, CoterieFault>
        ensures { result ≡ coterie_of voters sets.items }
    {
        match fault_of(voters, sets.as_slice()) {
            Some(fault) => Err(fault),
            None => Ok(Coterie {
                voters,
                quorums: sets,
            }),
        }
    }

    /// Returns the number of voters, 1 to 64.
    pub fn voters(&self) -> usize
        ensures value { result ≡ self.now.voters }
        ensures coterie { IsCoterie self.now }
    {
        self.voters
    }

    /// Returns the number of quorums, 1 to 4096.
    pub fn count(&self) -> usize
        ensures value { result ≡ length self.now.quorums }
        ensures coterie { IsCoterie self.now }
    {
        self.quorums.len()
    }

    /// Returns the quorum with this number, which has to be below the number of quorums.
    pub fn quorum(&self, number: usize) -> &QSet
        requires { number < length self.now.quorums }
        ensures value { slice_get self.now.quorums number ≡ Some result.now }
        ensures set { IsSet result.now }
        ensures members { All (λ i. i < self.now.voters) result.now }
        ensures coterie { IsCoterie self.now }
    {
        &self.quorums[number]
    }

    /// Returns the quorums, in the order of their numbers.
    pub(crate) fn quorums(&self) -> &[QSet]
        ensures value { result.now ≡ self.now.quorums }
        ensures coterie { IsCoterie self.now }
    {
        self.quorums.as_slice()
    }

    /// Returns an equal coterie, unless it runs out of memory.
    pub fn copy(&self, alloc: Global) -> Result<Coterie, AllocError>
        ensures value { IfOk result (λ c. c ≡ self.now) }
    {
        let mut quorums = Vec::with_capacity(alloc, self.quorums.len())?;
        for set in self.quorums.as_slice() {
            quorums.push(set.copy())?;
        }
        Ok(Coterie {
            voters: self.voters,
            quorums,
        })
    }
}
