//! What is left of weights when voters are down.
use certificate::{Plan, Weights};
use losses::{Failure, bears_losses, load_left, regret_bound, regret_of, tickets_left};
use quorum_set::QSet;
use std::alloc::{AllocError, Global};
use test_plans::{plan_with, wheel_plan};

/// The hub 0 with each of three rims, and the rims.
const SPOKES: [&[u8]; 4] = [&[0, 1], &[0, 2], &[0, 3], &[1, 2, 3]];

/// A set of voters as bits, how many tickets are left without them, and their load as a numerator and a
/// denominator, which are 0 if no ticket is left.
type Left = (u64, u64, u64, u64);

/// What is left of the plan of the wheel, whose cycle has 5 tickets: the hub with each rim once, and the
/// rims twice.
const OF_WHEEL: [Left; 6] = [
    (0b0000, 5, 3, 5),
    (0b0001, 2, 1, 1),
    (0b0010, 2, 1, 1),
    (0b0110, 1, 1, 1),
    (0b0011, 0, 0, 0),
    (0b1110, 0, 0, 0),
];

/// What is left of the plan for a hub of capacity 2, whose cycle has 7 tickets: the hub with each rim twice,
/// and the rims once.
const OF_HEAVY_HUB: [Left; 5] = [
    (0b0000, 7, 3, 7),
    (0b0001, 1, 1, 1),
    (0b1000, 4, 1, 2),
    (0b1100, 2, 1, 1),
    (0b1001, 0, 0, 0),
];

/// What is left of a plan for a hub of capacity 3, which does not use the quorum of all rims: the hub with each
/// rim once.
const OF_HUB_ALONE: [Left; 4] = [
    (0b0000, 3, 1, 3),
    (0b0001, 0, 0, 0),
    (0b0100, 2, 1, 2),
    (0b0110, 1, 1, 1),
];

/// Voters that are down, what is taken as the best load without them, and the multipliers of a bound.
type Row = (u64, (u64, u64), [u64; 4]);

/// Each of the wheel's voters down. Without the hub the best load is 1, and it is taken as 1/4 without a rim.
const ONE_DOWN: [Row; 4] = [
    (0b0001, (1, 1), [0, 1, 0, 0]),
    (0b0010, (1, 4), [10, 0, 0, 0]),
    (0b0100, (1, 4), [10, 0, 0, 0]),
    (0b1000, (1, 4), [10, 0, 0, 0]),
];

/// The hub and a rim down, which no quorum survives.
const NONE_LEFT: [Row; 1] = [(0b0011, (1, 1), [1, 1, 1, 1])];

/// Nothing down: the best load is that of the plan.
const NOTHING_DOWN: [Row; 1] = [(0b0000, (3, 5), [2, 1, 1, 1])];

/// Returns whether this is left of the weights, for each of the sets.
fn is_left(weights: &Weights, wanted: &[Left]) -> bool {
    let mut is_so = true;
    for (down, tickets, numerator, denominator) in wanted {
        let down = QSet::of_bits(*down);
        let load = load_left(weights, &down).unwrap_or((0, 0));
        is_so &= tickets_left(weights, &down) == *tickets;
        is_so &= load == (*numerator, *denominator);
    }
    is_so
}

/// Returns whether this is left of the plan, if there is one.
fn is_left_of(plan: Option<Plan>, wanted: &[Left]) -> bool {
    match plan {
        Some(plan) => is_left(&plan.into_weights(), wanted),
        None => false,
    }
}

/// Returns the plan of the wheel whose hub has capacity 2.
fn heavy_hub(alloc: Global) -> Option<Plan> {
    plan_with(alloc, &SPOKES, &[2, 1, 1, 1], &[2, 2, 2, 1], &[2, 1, 1, 1])
}

/// Returns a plan of the wheel whose hub has capacity 3.
fn hub_alone(alloc: Global) -> Option<Plan> {
    plan_with(alloc, &SPOKES, &[3, 1, 1, 1], &[1, 1, 1, 0], &[0, 1, 1, 1])
}

#[test]
fn what_is_left_of_weights_is_as_by_hand(rt: HostRuntime) {
    assert!(rt; is_left_of(wheel_plan(rt.alloc()), &OF_WHEEL));
    assert!(rt; is_left_of(heavy_hub(rt.alloc()), &OF_HEAVY_HUB));
    assert!(rt; is_left_of(hub_alone(rt.alloc()), &OF_HUB_ALONE));
}

/// Returns the failures of these rows.
fn failures_of(alloc: Global, rows: &[Row]) -> Result<Vec<Failure>, AllocError> {
    let mut failures = Vec::new(alloc);
    for (down, best, multipliers) in rows {
        failures.push(Failure {
            down: QSet::of_bits(*down),
            best: *best,
            is_best: true,
            multipliers: multipliers.to_vec(alloc)?,
        })?;
    }
    Ok(failures)
}

/// Returns the regret of a plan at the failures of these rows, or 0/0 if there is none.
fn regret_at(alloc: Global, plan: Option<Plan>, rows: &[Row]) -> (u64, u64) {
    let (Some(plan), Ok(failures)) = (plan, failures_of(alloc, rows)) else {
        return (0, 0);
    };
    regret_of(&plan.into_weights(), &failures).unwrap_or((0, 0))
}

/// Returns the bound that these rows show of the weights of a plan's coterie whose load is at most the limit.
fn bound_of(
    alloc: Global,
    plan: Option<Plan>,
    limit: (u64, u64),
    multipliers: &[u64],
    rows: &[Row],
) -> Option<u128> {
    let failures = failures_of(alloc, rows).ok()?;
    regret_bound(&plan?.into_weights(), limit, multipliers, &failures)
}

/// Returns whether a plan bears the loss of any so many voters.
fn bears(plan: Option<Plan>, most: usize) -> bool {
    match plan {
        Some(plan) => bears_losses(&plan.into_weights(), most),
        None => false,
    }
}

#[test]
fn losses_are_borne_if_a_used_quorum_is_left(rt: HostRuntime) {
    let alloc = rt.alloc();
    assert!(rt; bears(wheel_plan(alloc), 4));
    assert!(rt; bears(hub_alone(alloc), 0));
    assert!(rt; !bears(hub_alone(alloc), 1));
}

#[test]
fn regrets_are_as_by_hand(rt: HostRuntime) {
    let alloc = rt.alloc();
    assert!(rt; regret_at(alloc, heavy_hub(alloc), &ONE_DOWN) == (2, 1));
    assert!(rt; regret_at(alloc, wheel_plan(alloc), &NOTHING_DOWN) == (1, 1));
    assert!(rt; regret_at(alloc, hub_alone(alloc), &ONE_DOWN) == (0, 0));
}

#[test]
fn bounds_of_regret_are_as_by_hand(rt: HostRuntime) {
    let alloc = rt.alloc();
    let limits = [0, 1, 1, 1];
    assert!(rt; bound_of(alloc, heavy_hub(alloc), (3, 7), &limits, &ONE_DOWN) == Some(1_971_428));
    assert!(rt;
        bound_of(alloc, wheel_plan(alloc), (1, 1), &[0; 4], &NOTHING_DOWN) == Some(1_000_000)
    );
}

#[test]
fn bounds_of_regret_need_failures_that_leave_a_quorum(rt: HostRuntime) {
    let alloc = rt.alloc();
    assert!(rt; bound_of(alloc, wheel_plan(alloc), (1, 1), &[0; 4], &NONE_LEFT).is_none());
    assert!(rt; bound_of(alloc, wheel_plan(alloc), (1, 1), &[0; 4], &[]).is_none());
    assert!(rt; bound_of(alloc, wheel_plan(alloc), (0, 1), &[0; 4], &NOTHING_DOWN).is_none());
    assert!(rt; bound_of(alloc, wheel_plan(alloc), (1, 1), &[0; 3], &NOTHING_DOWN).is_none());
}
