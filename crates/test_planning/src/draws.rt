//! Random coteries, and capacities of their voters.
ghost use Rattle.std.specs.Prelude.{◌<◌};

use quorum_set::QSet;
use rand_core::Rng;
use rand_pcg::Pcg64;
use std::alloc::{AllocError, Global};

/// Returns a number below the bound.
fn below(rng: &mut Pcg64, bound: u64) -> u64
    requires { 0 < bound }
    ensures { result < bound }
{
    rng.next_u64() % bound
}

/// Draws a set of more than half of the voters.
fn draw_majority(rng: &mut Pcg64, voters: u8) -> QSet {
    let mut set = QSet::empty();
    for _ in 0..10_000 {
        if set.len() <= usize::from(voters / 2) {
            let voter = below(rng, 64) as u8;
            if voter < voters {
                set.insert(voter);
            }
        }
    }
    set
}

/// Draws sets of more than half of the voters.
pub(crate) fn draw_sets(
    rng: &mut Pcg64,
    alloc: Global,
    size: (u8, usize),
) -> Result<Vec<QSet>, AllocError> {
    let mut sets = Vec::new(alloc);
    for _ in 0..size.1 {
        sets.push(draw_majority(rng, size.0))?;
    }
    Ok(sets)
}

/// Draws capacities of the voters, from 1 to the greatest one.
pub(crate) fn draw_capacities(
    rng: &mut Pcg64,
    alloc: Global,
    voters: u8,
    greatest: u64,
) -> Result<Vec<u64>, AllocError> {
    let mut capacities = Vec::new(alloc);
    for _ in 0..voters {
        capacities.push(below(rng, greatest.clamp(1, 1000)) + 1)?;
    }
    Ok(capacities)
}
