//! Small weights among all that are the best.
ghost use Rattle.std.specs.Prelude.{◌≡◌, ◌<◌, ◌≤◌, IfSome, length, vec_len, IfOk};

use crate::exact::put;
use crate::lattice::{Vector, bring_near, lower_whole, reduce, rounded};
use crate::tableau::Tableau;
use divisor::{gcd, lowest_terms};
use numbers::MAX_CYCLE;
use quorum_set::{Coterie, QSet};
use std::alloc::{AllocError, Global};
use std::num::nearest_u64_to_f64;

/// How many quorums that the basis does not use are looked at.
const MORE: usize = 30;

/// How much a difference of a count weighs, beside one of a quorum's weight.
const SCALE: i64 = 1000;

/// What is not above this is taken for a 0 that was rounded.
const SMALLEST: f64 = 0.000000001;

/// Quorums that weights with the best load may use, and how much a solution uses each.
#[derive(Drop)]
struct Face {
    numbers: Vec<usize>,
    sets: Vec<QSet>,
    shares: Vec<f64>,
    /// The sum of the shares.
    total: f64,
    /// How often each voter is used at most, and the busy ones exactly: this times the length of the
    /// cycle, divided by `divisor`.
    uses: Vec<u64>,
    divisor: u64,
    /// The voters of positive weight.
    busy: Vec<usize>,
}

/// Returns the sum of the weights of the members.
fn weight_of(weights: &[u64], set: &QSet) -> u64 {
    let mut sum = 0u64;
    for (voter, weight) in weights.iter().enumerate() {
        if set.has((voter % 64) as u8) {
            sum = sum.saturating_add(*weight);
        }
    }
    sum
}

/// Returns the smallest weight of a quorum.
fn lightest_of(coterie: &Coterie, weights: &[u64]) -> u64 {
    let mut least = u64::MAX;
    for number in 0..coterie.count() {
        least = least.min(weight_of(weights, coterie.quorum(number)));
    }
    least
}

/// Returns the sum of the weights, each times its capacity.
fn total_of(weights: &[u64], capacities: &[u64]) -> u64 {
    let mut sum = 0u64;
    for (weight, capacity) in weights.iter().zip(capacities.iter()) {
        sum = sum.saturating_add(weight.saturating_mul(*capacity));
    }
    sum
}

/// Returns whether the one of this place among `count` is one of `most` that are spread over them.
fn is_spread(place: usize, count: usize, most: usize) -> bool {
    let own = place.saturating_mul(most) / count.max(1);
    count <= most || place.saturating_add(1).saturating_mul(most) / count.max(1) > own
}

/// Returns the lightest quorums: those of the basis, and some of the others.
fn light_quorums(
    alloc: Global,
    coterie: &Coterie,
    weights: &[u64],
    lightest: u64,
    basis: &[usize],
) -> Result<Vec<usize>, AllocError> {
    let mut chosen = Vec::new(alloc);
    let mut others = Vec::new(alloc);
    for number in 0..coterie.count() {
        if basis.contains(&number) {
            chosen.push(number)?;
        } else if weight_of(weights, coterie.quorum(number)) == lightest {
            others.push(number)?;
        }
    }
    for (place, number) in others.iter().enumerate() {
        if is_spread(place, others.len(), MORE) {
            chosen.push(*number)?;
        }
    }
    Ok(chosen)
}

/// Returns the voters of weight 0.
fn idle_voters(weights: &[u64]) -> QSet {
    let mut idle = QSet::empty();
    for (voter, weight) in weights.iter().enumerate() {
        if *weight == 0 {
            let _ = idle.insert((voter % 64) as u8);
        }
    }
    idle
}

/// Returns the voters of positive weight.
fn busy_voters(alloc: Global, weights: &[u64]) -> Result<Vec<usize>, AllocError> {
    let mut busy = Vec::with_capacity(alloc, weights.len())?;
    for (voter, weight) in weights.iter().enumerate() {
        if *weight > 0 {
            busy.push(voter)?;
        }
    }
    Ok(busy)
}

/// Returns how often each voter may be used for a unit of `divisor` tickets.
fn uses_of(alloc: Global, capacities: &[u64], part: u64) -> Result<Vec<u64>, AllocError> {
    let mut uses = Vec::with_capacity(alloc, capacities.len())?;
    for capacity in capacities {
        uses.push(capacity.saturating_mul(part))?;
    }
    Ok(uses)
}

/// Returns the face of the voters' weights, with a point inside it. It is `None` if no other quorums
/// than those of the basis are as light.
fn face_of(
    alloc: Global,
    coterie: &Coterie,
    capacities: &[u64],
    tableau: Tableau,
    weights: &[u64],
) -> Result<Option<Face>, AllocError> {
    let lightest = lightest_of(coterie, weights);
    let (part, divisor) = lowest_terms(lightest, total_of(weights, capacities));
    let basis = tableau.basis(alloc)?;
    let chosen = light_quorums(alloc, coterie, weights, lightest, &basis)?;
    let points = tableau.even_shares(alloc, coterie, &chosen, &idle_voters(weights))?;
    let mut numbers = Vec::with_capacity(alloc, chosen.len())?;
    let mut sets = Vec::with_capacity(alloc, chosen.len())?;
    let mut shares = Vec::with_capacity(alloc, chosen.len())?;
    let mut total = 0.0;
    for (number, share) in chosen.iter().zip(points.iter()) {
        if *number < coterie.count() && *share > SMALLEST {
            numbers.push(*number)?;
            sets.push(coterie.quorum(*number).copy())?;
            shares.push(*share)?;
            total += *share;
        }
    }
    Ok(Some(Face {
        numbers,
        sets,
        shares,
        total,
        uses: uses_of(alloc, capacities, part)?,
        divisor,
        busy: busy_voters(alloc, weights)?,
    }))
}

impl Face {
    /// Returns how often a voter may be used in a cycle of this length.
    fn use_of(&self, voter: usize, cycle: u64) -> u64 {
        match self.uses.get(voter) {
            Some(uses) => uses.saturating_mul(cycle) / self.divisor.max(1),
            None => 0,
        }
    }

    /// Returns a number of which the length of each cycle with the best load is a multiple.
    fn step(&self) -> u64 {
        let mut step = 1u64;
        for voter in self.busy.as_slice() {
            let uses = match self.uses.get(*voter) {
                Some(uses) => *uses,
                None => 0,
            };
            let own = self.divisor / gcd(self.divisor, uses).max(1);
            step = (step / gcd(step, own).max(1)).saturating_mul(own);
            step = step.min(MAX_CYCLE + 1);
        }
        step
    }

    /// Returns the vector of a quorum: which busy voters it has, and that it is this quorum.
    fn vector_of(&self, alloc: Global, place: usize, set: &QSet) -> Result<Vector, AllocError> {
        let mut whole = Vec::with_capacity(alloc, self.busy.len() + self.sets.len())?;
        for voter in self.busy.as_slice() {
            whole.push(if set.has((*voter % 64) as u8) {
                SCALE
            } else {
                0
            })?;
        }
        for other in 0..self.sets.len() {
            whole.push(i64::from(other == place))?;
        }
        Vector::of(alloc, whole, self.sets.len())
    }

    /// Returns the vectors of all quorums.
    fn vectors(&self, alloc: Global) -> Result<Vec<Vector>, AllocError> {
        let mut vectors = Vec::with_capacity(alloc, self.sets.len())?;
        for (place, set) in self.sets.iter().enumerate() {
            vectors.push(self.vector_of(alloc, place, set)?)?;
        }
        Ok(vectors)
    }

    /// Returns weights in nearly the proportions of the point, for a cycle of this length.
    fn starts(&self, alloc: Global, cycle: u64) -> Result<Vec<i64>, AllocError> {
        let scale = nearest_u64_to_f64(cycle) / self.total;
        let mut starts = Vec::with_capacity(alloc, self.shares.len())?;
        for share in self.shares.as_slice() {
            starts.push(rounded(*share * scale))?;
        }
        Ok(starts)
    }

    /// Returns how often these weights use a voter.
    fn count(&self, weights: &[i64], voter: usize) -> i64 {
        let mut count = 0i64;
        for (set, weight) in self.sets.iter().zip(weights.iter()) {
            if set.has((voter % 64) as u8) {
                count = count.saturating_add(*weight);
            }
        }
        count
    }

    /// Returns what these weights lack: of each busy voter's count, and nothing of the weights.
    fn lacks(&self, alloc: Global, weights: &[i64], cycle: u64) -> Result<Vec<i64>, AllocError> {
        let mut lacks = Vec::with_capacity(alloc, self.busy.len() + weights.len())?;
        for voter in self.busy.as_slice() {
            let wanted = self.use_of(*voter, cycle).cast_signed();
            let lack = wanted.saturating_sub(self.count(weights, *voter));
            lacks.push(lack.saturating_mul(SCALE))?;
        }
        for _ in weights {
            lacks.push(0)?;
        }
        Ok(lacks)
    }

    /// Returns whether these weights use no voter too often in a cycle of this length.
    fn is_within(&self, weights: &[i64], cycle: u64) -> bool {
        for voter in 0..self.uses.len() {
            if self.count(weights, voter) > self.use_of(voter, cycle).cast_signed() {
                return false;
            }
        }
        true
    }

    /// Returns weights with the best load and a cycle of this length, if there are some near the
    /// point.
    fn weights_of(
        &self,
        alloc: Global,
        vectors: &[Vector],
        cycle: u64,
    ) -> Result<Option<Vec<u64>>, AllocError> {
        let mut weights = self.starts(alloc, cycle)?;
        let mut rest = self.lacks(alloc, &weights, cycle)?;
        bring_near(&mut rest, vectors);
        let (lacks, changes) = rest.split_at(self.busy.len().min(rest.len()));
        lower_whole(&mut weights, 1, changes);
        if !lacks.iter().all(|lack| *lack == 0) || !self.is_within(&weights, cycle) {
            return Ok(None);
        }
        whole_weights(alloc, &weights)
    }
}

/// Returns the weights, if none is below 0.
fn whole_weights(alloc: Global, weights: &[i64]) -> Result<Option<Vec<u64>>, AllocError> {
    let mut whole = Vec::with_capacity(alloc, weights.len())?;
    for weight in weights {
        if *weight < 0 {
            return Ok(None);
        }
        whole.push(weight.unsigned_abs())?;
    }
    Ok(Some(whole))
}

/// Returns weights of the quorums with the best load and a short cycle, if some are found. They are
/// near a point inside the face of all solutions that are as good: those that use only the quorums
/// that are lightest by the voters' weights. Nothing is claimed of the numbers except how many there
/// are.
pub fn inner_weights(
    alloc: Global,
    coterie: &Coterie,
    capacities: &[u64],
    tableau: Tableau,
    voter_weights: &[u64],
) -> Result<Option<Vec<u64>>, AllocError>
    ensures { IfOk result (λ o. IfSome o (λ v. vec_len v ≡ length coterie.now.quorums)) }
{
    let Some(face) = face_of(alloc, coterie, capacities, tableau, voter_weights)? else {
        return Ok(None);
    };
    let step = face.step();
    let mut vectors = face.vectors(alloc)?;
    if step > MAX_CYCLE || !reduce(&mut vectors) {
        return Ok(None);
    }
    let mut times = 1u64;
    for _ in 0..80u32 {
        let cycle = step.saturating_mul(times);
        if cycle > MAX_CYCLE {
            return Ok(None);
        }
        if let Some(found) = face.weights_of(alloc, &vectors, cycle)? {
            let mut weights = vec![in alloc; 0u64; coterie.count()]?;
            put(&mut weights, &face.numbers, &found);
            return Ok(Some(weights));
        }
        times = times.saturating_add(times.saturating_add(4) / 5);
    }
    Ok(None)
}
