//! Two plans that can't be put together.
use certificate::Plan;
use dealer::Plans;
use quorum_set::BridgeFault;
use std::alloc::Global;
use test_plans::{majority_plan, plan_of};

/// Returns the plan of voter 0 alone, out of three, or `None` if memory runs out.
fn first_of_three(alloc: Global) -> Option<Plan> {
    plan_of(alloc, &[&[0]], &[1], &[1, 0, 0])
}

/// Returns why these plans can't be put together.
fn refusal(alloc: Global, old: Plan, new: Plan) -> Option<BridgeFault> {
    if old.coterie().voters() != new.coterie().voters() {
        return None;
    }
    match Plans::bridged(alloc, old, new) {
        Ok(_) => None,
        Err((_, _, fault)) => Some(fault),
    }
}

/// Returns why the majorities of three voters and voter 0 alone can't be put together.
fn refusal_of_one(alloc: Global) -> Option<BridgeFault> {
    refusal(alloc, majority_plan(alloc)?, first_of_three(alloc)?)
}

#[test]
fn apart_plans_are_refused(rt: HostRuntime) {
    assert!(rt; refusal_of_one(rt.alloc()) == Some(BridgeFault::NotBridged(2, 0)));
}
