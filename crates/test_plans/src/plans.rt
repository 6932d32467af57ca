//! Coteries and plans from lists of numbers.
ghost use Rattle.std.specs.Prelude.{◌≡◌, IfOk, IsTrue};
ghost use Rattle.quorum_set.specs.Capacities.{AreCapacities, unit_capacities};

use certificate::{Plan, check};
use dealer::Plans;
use numbers::MAX_CAPACITY;
use quorum_set::{Coterie, QSet};
use std::alloc::{AllocError, Global};
use std::test::Fail;

/// Any two of three voters.
const MAJORITIES: [&[u8]; 3] = [&[0, 1], &[0, 2], &[1, 2]];

/// A row and a column of two by two voters.
const CROSSES: [&[u8]; 4] = [&[0, 1, 2], &[0, 1, 3], &[0, 2, 3], &[1, 2, 3]];

/// The hub 0 with each of three rims, and the rims.
const SPOKES: [&[u8]; 4] = [&[0, 1], &[0, 2], &[0, 3], &[1, 2, 3]];

/// Returns the set of these numbers. Numbers of 64 or more are left out.
pub fn set_of(members: &[u8]) -> QSet {
    let mut set = QSet::empty();
    for i in members {
        if *i < 64 {
            set.insert(*i);
        }
    }
    set
}

/// Returns the list of these sets.
pub fn sets_of(alloc: Global, quorums: &[&[u8]]) -> Result<Vec<QSet>, AllocError> {
    let mut sets = Vec::new(alloc);
    for members in quorums {
        sets.push(set_of(members))?;
    }
    Ok(sets)
}

/// Returns the coterie of these quorums. Fails if they are not one, or out of memory.
pub fn coterie_of(alloc: Global, voters: usize, quorums: &[&[u8]]) -> Result<Coterie, Fail>
    ensures voters { IfOk result (λ coterie. coterie.voters ≡ voters) }
{
    Ok(Coterie::of(voters, sets_of(alloc, quorums)?)?)
}

/// Returns capacity 1 for each of this many voters.
#[tactic(auto, using(crate::proofs::Units::unit_capacities_of))]
pub fn unit_capacities(alloc: Global, voters: usize) -> Result<Vec<u64>, AllocError>
    ensures unit { IfOk result (λ v. v.items ≡ unit_capacities voters) }
    ensures capacities { IfOk result (λ v. AreCapacities v.items voters) }
{
    vec![in alloc; 1; voters]
}

/// Returns whether there is a capacity for each of this many voters, 1 to 1000.
pub fn are_capacities(capacities: &[u64], voters: usize) -> bool
    ensures { IsTrue result → AreCapacities capacities.now voters }
{
    capacities.len() == voters && capacities.iter().all(|c| 1 <= *c && *c <= MAX_CAPACITY)
}

/// Returns the plan with these capacities and these weights of the quorums and of the voters, or
/// `None` if it is not a plan or memory runs out.
pub fn plan_with(
    alloc: Global,
    quorums: &[&[u8]],
    capacities: &[u64],
    quorum_weights: &[u64],
    voter_weights: &[u64],
) -> Option<Plan> {
    let coterie = Coterie::of(voter_weights.len(), sets_of(alloc, quorums).ok()?).ok()?;
    if !are_capacities(capacities, coterie.voters()) {
        return None;
    }
    let quorum_weights = quorum_weights.to_vec(alloc).ok()?;
    let voter_weights = voter_weights.to_vec(alloc).ok()?;
    check(alloc, &coterie, capacities, quorum_weights, voter_weights).ok()
}

/// Returns the plan with these weights of the quorums and of the voters, all of capacity 1, or
/// `None` if it is not a plan or memory runs out.
pub fn plan_of(
    alloc: Global,
    quorums: &[&[u8]],
    quorum_weights: &[u64],
    voter_weights: &[u64],
) -> Option<Plan> {
    let capacities = unit_capacities(alloc, voter_weights.len()).ok()?;
    plan_with(alloc, quorums, &capacities, quorum_weights, voter_weights)
}

/// Returns the plan in which each quorum and each voter has weight 1, or `None` if it is not a plan
/// or memory runs out.
pub fn even_plan(alloc: Global, voters: usize, quorums: &[&[u8]]) -> Option<Plan> {
    let quorum_weights = vec![in alloc; 1; quorums.len()].ok()?;
    let voter_weights = vec![in alloc; 1; voters].ok()?;
    plan_of(alloc, quorums, &quorum_weights, &voter_weights)
}

/// Returns the plan of one voter alone, or `None` if memory runs out.
pub fn lone_plan(alloc: Global) -> Option<Plan> {
    even_plan(alloc, 1, &[&[0]])
}

/// Returns the plan of any two of three voters, or `None` if memory runs out.
pub fn majority_plan(alloc: Global) -> Option<Plan> {
    even_plan(alloc, 3, &MAJORITIES)
}

/// Returns the plan of a row and a column of two by two voters, or `None` if memory runs out.
pub fn grid_plan(alloc: Global) -> Option<Plan> {
    even_plan(alloc, 4, &CROSSES)
}

/// Returns the plan of the wheel with three rims, or `None` if memory runs out. Its last quorum,
/// the rims, is used twice as often as each of the others.
pub fn wheel_plan(alloc: Global) -> Option<Plan> {
    plan_of(alloc, &SPOKES, &[1, 1, 1, 2], &[2, 1, 1, 1])
}

/// Returns the plan of three voters as one quorum, or `None` if memory runs out.
pub fn whole_plan(alloc: Global) -> Option<Plan> {
    even_plan(alloc, 3, &[&[0, 1, 2]])
}

/// Returns both plans: the old one is in use first. Returns `None` if one of them is missing, if they
/// have different voters or no bridge, or if memory runs out.
pub fn bridged_plans(alloc: Global, old: Option<Plan>, new: Option<Plan>) -> Option<Plans> {
    let old = old?;
    let new = new?;
    if old.coterie().voters() != new.coterie().voters() {
        return None;
    }
    Plans::bridged(alloc, old, new).ok()
}
