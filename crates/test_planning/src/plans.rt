//! The loads of trees and wheels of each size, and a search that ends without a plan.
use crate::shapes::{Shape, built};
use planner::{Cause, PlannerFault, plan};
use quorum_set::{Coterie, QSet};
use std::alloc::{AllocError, Global};

/// Returns 33 of 64 voters: `start`, and then each time five times the last one plus `step`, modulo
/// 64.
fn walk(start: u8, step: u8) -> QSet {
    let mut set = QSet::empty();
    let mut voter = start;
    for _ in 0..33 {
        if voter < 64 {
            set.insert(voter);
        }
        voter = voter.wrapping_mul(5).wrapping_add(step) % 64;
    }
    set
}

/// Returns 63 such walks.
fn walks(alloc: Global) -> Result<Vec<QSet>, AllocError> {
    let mut sets = Vec::new(alloc);
    for number in 0..63u8 {
        let start = number.wrapping_mul(9) % 64;
        let step = number.wrapping_mul(4).wrapping_add(5);
        sets.push(walk(start, step))?;
    }
    Ok(sets)
}

/// Returns the fault of a coterie of 64 voters, if no plan is found.
fn fault_of(alloc: Global, coterie: &Coterie) -> Option<PlannerFault> {
    if coterie.voters() != 64 {
        return None;
    }
    plan(alloc, coterie, &[1; 64]).err()
}

/// Returns the fault of the coterie of all walks, if no plan is found.
fn fault_of_walks(alloc: Global) -> Option<PlannerFault> {
    fault_of(alloc, &Coterie::of(64, walks(alloc).ok()?).ok()?)
}

#[test]
fn numbers_that_grow_too_large_end_the_search(rt: HostRuntime) {
    assert!(rt; fault_of_walks(rt.alloc()) == Some(PlannerFault::NoPlan(Cause::Overflow)));
}

/// Returns the load of the plan of a coterie whose voters all have capacity 1, if there is a plan.
fn load(alloc: Global, coterie: &Coterie) -> Option<(u64, u64)> {
    let capacities = &[1; 64][..coterie.voters()];
    match plan(alloc, coterie, capacities) {
        Ok(plan) => Some(plan.load()),
        Err(_) => None,
    }
}

/// Returns the same of the coterie of a shape.
fn load_of(alloc: Global, shape: Shape) -> Option<(u64, u64)> {
    load(alloc, &built(alloc, shape).ok()?)
}

/// Returns whether this load is `share / all`.
fn is_share(load: Option<(u64, u64)>, share: u64, all: u64) -> bool {
    let Some((part, whole)) = load else {
        return false;
    };
    u128::from(part) * u128::from(all) == u128::from(whole) * u128::from(share)
}

/// Returns whether a tree of this height has the load 2 / (h + 2).
fn tree_has_its_load(alloc: Global, height: u32) -> bool {
    is_share(
        load_of(alloc, Shape::Tree(height)),
        2,
        u64::from(height) + 2,
    )
}

/// Returns whether a wheel with k voters on its rim has the load k / (2 k - 1).
fn wheel_has_its_load(alloc: Global, rims: u32) -> bool {
    let share = u64::from(rims);
    is_share(
        load_of(alloc, Shape::Wheel(rims)),
        share,
        share.saturating_mul(2).saturating_sub(1),
    )
}

/// Returns whether a grid of these sizes has the load (r + c - 1) / (r * c).
fn grid_has_its_load(alloc: Global, rows: u32, columns: u32) -> bool {
    is_share(
        load_of(alloc, Shape::Grid(rows, columns)),
        u64::from(rows)
            .saturating_add(u64::from(columns))
            .saturating_sub(1),
        u64::from(rows).saturating_mul(u64::from(columns)),
    )
}

/// Returns whether the majorities of n voters have the load h / n, where h = n / 2 + 1.
fn majority_has_its_load(alloc: Global, voters: u32) -> bool {
    is_share(
        load_of(alloc, Shape::Majority(voters)),
        u64::from(voters / 2) + 1,
        u64::from(voters),
    )
}

/// Returns whether a cyclic coterie over a base of c places on a ring of n has the load c / n.
fn cycle_has_its_load(alloc: Global, voters: u32, base: &'static [u32]) -> bool {
    is_share(
        load_of(alloc, Shape::Cyclic(voters, base)),
        base.len() as u64,
        u64::from(voters),
    )
}

/// Bases whose differences cover their rings.
const RINGS: [(u32, &[u32]); 5] = [
    (7, &[0, 1, 3]),
    (13, &[0, 1, 3, 9]),
    (6, &[0, 1, 3]),
    (21, &[0, 1, 4, 14, 16]),
    (57, &[0, 1, 3, 13, 32, 36, 43, 52]),
];

#[test]
fn grids_have_their_load(rt: HostRuntime) {
    for rows in 2..8 {
        for columns in 2..9 {
            assert!(rt; grid_has_its_load(rt.alloc(), rows, columns));
        }
    }
}

#[test]
fn majorities_have_their_load(rt: HostRuntime) {
    for voters in 1..15 {
        assert!(rt; majority_has_its_load(rt.alloc(), voters));
    }
}

#[test]
fn cycles_have_their_load(rt: HostRuntime) {
    for (voters, base) in &RINGS {
        assert!(rt; cycle_has_its_load(rt.alloc(), *voters, *base));
    }
}

/// Every size of a tree has the load of Agrawal and El Abbadi's trees.
#[test]
fn all_trees_have_their_load(rt: HostRuntime) {
    for height in 0..4 {
        assert!(rt; tree_has_its_load(rt.alloc(), height));
    }
}

/// Every size of a wheel has the load that Naor and Wool determine.
#[test]
fn all_wheels_have_their_load(rt: HostRuntime) {
    for rims in 2..64 {
        assert!(rt; wheel_has_its_load(rt.alloc(), rims));
    }
}
