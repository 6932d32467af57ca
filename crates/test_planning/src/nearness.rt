//! How near weights are to the best.
use crate::draws::{draw_capacities, draw_sets};
use near::{is_within, near};
use quorum_set::Coterie;
use rand_core::SeedableRng;
use rand_pcg::Pcg64;
use std::alloc::Global;
use std::test::Fail;
use test_plans::are_capacities;

/// How many voters the coteries have, and how many quorums.
const SIZES: [(u8, usize); 6] = [(20, 60), (25, 60), (30, 90), (40, 90), (52, 120), (64, 120)];

/// The greatest capacities of the voters. They are drawn from 1 on.
const CAPACITIES: [u64; 3] = [1, 8, 1000];

/// How many coteries there are of each size and greatest capacity.
const SEEDS: u64 = 5;

/// Returns whether the weights for the coterie of a seed are near the best, in short cycles and in long ones.
fn are_found(alloc: Global, size: (u8, usize), greatest: u64, seed: u64) -> Result<bool, Fail> {
    let mut rng = Pcg64::seed_from_u64(seed);
    let voters = usize::from(size.0);
    let coterie = Coterie::of(voters, draw_sets(&mut rng, alloc, size)?)?;
    let capacities = draw_capacities(&mut rng, alloc, size.0, greatest)?;
    if !are_capacities(&capacities, coterie.voters()) {
        return Ok(false);
    }
    let short = near(alloc, &coterie, &capacities, 1000)?;
    let long = near(alloc, &coterie, &capacities, 100_000)?;
    Ok(is_within(&short, 3500) & is_within(&long, 200))
}

/// Returns whether this holds for each seed.
fn are_all_found(alloc: Global, size: (u8, usize), greatest: u64) -> Result<bool, Fail> {
    for seed in 0..SEEDS {
        if !are_found(alloc, size, greatest, seed)? {
            return Ok(false);
        }
    }
    Ok(true)
}

#[test]
fn random_coteries_have_near_weights(rt: HostRuntime) -> Result<(), Fail> {
    for size in &SIZES {
        for greatest in &CAPACITIES {
            assert!(rt; are_all_found(rt.alloc(), *size, *greatest)?);
        }
    }
    Ok(())
}
