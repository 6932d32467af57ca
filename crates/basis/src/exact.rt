//! The exact weights of a basis.
ghost use Rattle.std.specs.Prelude.{◌≡◌, ◌<◌, ◌≤◌, IfSome, length, vec_len, IfOk};

use crate::ratio::whole;
use crate::system::solution;
use crate::tableau::Tableau;
use quorum_set::{Coterie, QSet};
use std::alloc::{AllocError, Global};

/// Which quorums and which voters are above 0 in a solution.
#[derive(Drop)]
struct Basis {
    /// The quorums' numbers.
    quorums: Vec<usize>,
    /// The quorums.
    sets: Vec<QSet>,
    /// The voters that are used as much as their capacities allow.
    voters: Vec<usize>,
}

/// Returns the voters whose slack is not among the columns.
fn busy_voters(
    alloc: Global,
    coterie: &Coterie,
    columns: &[usize],
) -> Result<Vec<usize>, AllocError> {
    let mut voters = Vec::with_capacity(alloc, coterie.voters())?;
    for voter in 0..coterie.voters() {
        let slack = coterie.count() + voter;
        if !columns.contains(&slack) {
            voters.push(voter)?;
        }
    }
    Ok(voters)
}

/// Returns the basis with these columns.
fn basis_of(alloc: Global, coterie: &Coterie, columns: &[usize]) -> Result<Basis, AllocError> {
    let mut quorums = Vec::with_capacity(alloc, columns.len())?;
    let mut sets = Vec::with_capacity(alloc, columns.len())?;
    for column in columns {
        if *column < coterie.count() {
            quorums.push(*column)?;
            sets.push(coterie.quorum(*column).copy())?;
        }
    }
    let voters = busy_voters(alloc, coterie, columns)?;
    Ok(Basis {
        quorums,
        sets,
        voters,
    })
}

/// Returns the equation that uses a voter as much as its capacity allows.
fn voter_row(
    alloc: Global,
    basis: &Basis,
    voter: usize,
    capacity: u64,
) -> Result<Vec<u64>, AllocError> {
    let mut row = Vec::with_capacity(alloc, basis.sets.len() + 1)?;
    for set in basis.sets.as_slice() {
        row.push(u64::from(set.has((voter % 64) as u8)))?;
    }
    row.push(capacity)?;
    Ok(row)
}

/// Returns the equation that makes the weights of a quorum's busy voters sum to 1.
fn quorum_row(alloc: Global, basis: &Basis, set: &QSet) -> Result<Vec<u64>, AllocError> {
    let mut row = Vec::with_capacity(alloc, basis.voters.len() + 1)?;
    for voter in basis.voters.as_slice() {
        row.push(u64::from(set.has((*voter % 64) as u8)))?;
    }
    row.push(1)?;
    Ok(row)
}

/// Returns the equations of all busy voters.
fn voter_rows(
    alloc: Global,
    basis: &Basis,
    capacities: &[u64],
) -> Result<Vec<Vec<u64>>, AllocError> {
    let mut rows = Vec::with_capacity(alloc, basis.voters.len())?;
    for voter in basis.voters.as_slice() {
        let capacity = match capacities.get(*voter) {
            Some(capacity) => *capacity,
            None => 1,
        };
        rows.push(voter_row(alloc, basis, *voter, capacity)?)?;
    }
    Ok(rows)
}

/// Returns the equations of all quorums.
fn quorum_rows(alloc: Global, basis: &Basis) -> Result<Vec<Vec<u64>>, AllocError> {
    let mut rows = Vec::with_capacity(alloc, basis.sets.len())?;
    for set in basis.sets.as_slice() {
        rows.push(quorum_row(alloc, basis, set)?)?;
    }
    Ok(rows)
}

/// Writes each number at its place.
pub(crate) fn put(weights: &mut [u64], places: &[usize], numbers: &[u64])
    ensures { length weights.new ≡ length weights.old }
{
    for (place, number) in places.iter().zip(numbers.iter()) {
        if *place < weights.len() {
            weights[*place] = *number;
        }
    }
}

/// Returns whole numbers in the proportions of the solution, at these places of a list of zeros.
fn placed(
    alloc: Global,
    rows: Vec<Vec<u64>>,
    places: &[usize],
    len: usize,
) -> Result<Option<Vec<u64>>, AllocError>
    ensures { IfOk result (λ o. IfSome o (λ v. vec_len v ≡ len)) }
{
    let Some(residues) = solution(alloc, rows)? else {
        return Ok(None);
    };
    let Some(numbers) = whole(alloc, &residues)? else {
        return Ok(None);
    };
    let mut weights = vec![in alloc; 0u64; len]?;
    put(&mut weights, places, &numbers);
    Ok(Some(weights))
}

/// Returns the exact weights of the quorums by the basis of a search, if they are small. Nothing is
/// claimed of the numbers except how many there are.
pub fn quorum_weights(
    alloc: Global,
    coterie: &Coterie,
    capacities: &[u64],
    tableau: &Tableau,
) -> Result<Option<Vec<u64>>, AllocError>
    ensures { IfOk result (λ o. IfSome o (λ v. vec_len v ≡ length coterie.now.quorums)) }
{
    let columns = tableau.basis(alloc)?;
    let basis = basis_of(alloc, coterie, &columns)?;
    let rows = voter_rows(alloc, &basis, capacities)?;
    placed(alloc, rows, &basis.quorums, coterie.count())
}

/// Returns the exact weights of the voters by the basis of a search, if they are small. Nothing is
/// claimed of the numbers except how many there are.
pub fn voter_weights(
    alloc: Global,
    coterie: &Coterie,
    tableau: &Tableau,
) -> Result<Option<Vec<u64>>, AllocError>
    ensures { IfOk result (λ o. IfSome o (λ v. vec_len v ≡ coterie.now.voters)) }
{
    let columns = tableau.basis(alloc)?;
    let basis = basis_of(alloc, coterie, &columns)?;
    let rows = quorum_rows(alloc, &basis)?;
    placed(alloc, rows, &basis.voters, coterie.voters())
}
