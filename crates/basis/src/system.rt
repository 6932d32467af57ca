//! Square systems of linear equations, modulo a prime.
ghost use Rattle.std.specs.Prelude.{◌≡◌, ◌<◌, ◌≤◌, IfSome, length, vec_len, IfOk};

use crate::residue::{difference, inverse, product};
use std::alloc::{AllocError, Global};

/// Returns the number of a row at a place, or 0 behind its end.
fn cell(row: &[u64], place: usize) -> u64 {
    match row.get(place) {
        Some(number) => *number,
        None => 0,
    }
}

/// Multiplies the numbers of a row.
fn scale(row: &mut [u64], factor: u64) {
    for number in row.iter_mut() {
        if *number != 0 {
            *number = product(*number, factor);
        }
    }
}

/// Subtracts the other row, times a number, from a row.
fn subtract(row: &mut [u64], times: u64, other: &[u64]) {
    for (number, theirs) in row.iter_mut().zip(other.iter()) {
        if *theirs != 0 {
            *number = difference(*number, product(times, *theirs));
        }
    }
}

/// Removes a variable from some rows, by a row in which it has the factor 1.
fn eliminate(rows: &mut [Vec<u64>], solved: &[u64], variable: usize) {
    for row in rows.iter_mut() {
        let times = cell(row, variable);
        if times != 0 {
            subtract(row, times, solved);
        }
    }
}

/// Takes out of the rows one that has the variable, and solves it for the variable.
fn take_solved(rows: &mut Vec<Vec<u64>>, variable: usize) -> Option<Vec<u64>> {
    let number = rows.iter().position(|row| cell(row, variable) != 0)?;
    let mut row = rows.swap_remove(number);
    let factor = inverse(cell(&row, variable));
    scale(&mut row, factor);
    Some(row)
}

/// Returns the solution of as many equations as variables, modulo the prime, if there is only one.
/// Each row has the variables' factors and then the right side.
pub(crate) fn solution(
    alloc: Global,
    mut rows: Vec<Vec<u64>>,
) -> Result<Option<Vec<u64>>, AllocError>
    ensures { IfOk result (λ o. IfSome o (λ v. vec_len v ≡ vec_len rows)) }
{
    let variables = rows.len();
    let mut solved: Vec<Vec<u64>> = Vec::with_capacity(alloc, variables)?;
    for variable in 0..variables {
        let Some(row) = take_solved(&mut rows, variable) else {
            return Ok(None);
        };
        eliminate(&mut rows, &row, variable);
        eliminate(&mut solved, &row, variable);
        solved.push(row)?;
    }
    let mut values = Vec::with_capacity(alloc, variables)?;
    for row in solved.as_slice() {
        values.push(cell(row, variables))?;
    }
    Ok(Some(values))
}
