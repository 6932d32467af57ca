//! The figures by which coteries are compared.
ghost use Rattle.std.specs.Prelude.{◌≡◌, ◌-◌, ◌<◌, ◌≤◌, ℕ, All, List, length, map, true, IfNone, IfOk, IfSome};
ghost use Rattle.numbers.specs.Sets.{IsSet};
ghost use Rattle.quorum_set.specs.Capacities.{AreCapacities, are_unit};
ghost use Rattle.certificate.specs.Bounds.{bound_of};
ghost use Rattle.certificate.specs.Certificates.{load_of};
ghost use Rattle.failures.specs.Failures.{Bears, IsSmallest, IsTransversal, MeetsEach, system_without};
ghost use Rattle.known_loads.specs.SmallestQuorums.{smallest_size};
ghost use Rattle.show_failures.specs.Groups.{groups_of};
ghost use Rattle.show_figures.specs.Comparisons.{AreLoads, IsLoss, IsOfWeights, largest_size};

use crate::bounds::smallest_size;
use crate::sizes::largest_size;
use certificate::Weights;
use coterie_file::Named;
use failures::coterie_without;
use losses::{OneDown, worst_one_down};
use near::near;
use planner::{PlannerFault, plan};
use quorum_set::{Coterie, QSet, are_unit};
use show_failures::{Resilience, groups_of, resilience_of};
use std::alloc::{AllocError, Global};

/// At most how long the cycles are whose load is shown where the planner finds no plan.
const LONGEST: u64 = 100_000;

/// The load of weights of a coterie, and a bound. Each is a numerator and a denominator in lowest
/// terms.
#[derive(Clone, Copy)]
pub struct Loads {
    /// The load.
    pub load: (u64, u64),
    /// No weights of the coterie have a load below this.
    pub bound: (u64, u64),
}

/// What the failure of a whole group of voters does to a coterie.
#[derive(Drop)]
pub struct Loss {
    /// The voters that fail.
    pub group: QSet,
    /// The loads of what is left, or `None` if no quorum is left.
    pub left: Option<Loads>,
}

/// The figures of a coterie.
#[derive(Drop)]
pub struct Comparison {
    /// How many voters there are, 1 to 64.
    pub voters: usize,
    /// How many quorums there are, 1 to 4096.
    pub quorums: usize,
    /// How many members the smallest quorum has.
    pub smallest: usize,
    /// How many members the largest quorum has.
    pub largest: usize,
    /// Whether all capacities are 1.
    pub is_unit: bool,
    /// The load, and a bound.
    pub loads: Loads,
    /// What the same weights leave when one voter is down, at worst.
    pub one_down: OneDown,
    /// How many voters may fail.
    pub borne: Resilience,
    /// For each group of voters, what its failure does, in the order of their first voters.
    pub losses: Vec<Loss>,
}

/// Returns the load of weights, and its bound.
pub fn loads_of_weights(weights: &Weights) -> Loads
    ensures load { result.load ≡ load_of weights.now }
    ensures bound { result.bound ≡ bound_of weights.now }
    ensures loads { AreLoads weights.now.system weights.now.capacities result }
{
    Loads {
        load: weights.load(),
        bound: weights.bound(),
    }
}

/// Returns the weights of the plan that the planner finds. If it finds none, returns those that `near`
/// finds.
fn weights_of(alloc: Global, coterie: &Coterie, capacities: &[u64]) -> Result<Weights, AllocError>
    requires { AreCapacities capacities.now coterie.now.voters }
    ensures coterie { IfOk result (λ w. w.system ≡ coterie.now) }
    ensures capacities { IfOk result (λ w. w.capacities ≡ capacities.now) }
{
    match plan(alloc, coterie, capacities) {
        Ok(plan) => Ok(plan.into_weights()),
        Err(PlannerFault::OutOfMemory) => Err(AllocError),
        Err(_) => near(alloc, coterie, capacities, LONGEST),
    }
}

/// Returns the load of the weights that are found, and its bound.
fn loads_of(alloc: Global, coterie: &Coterie, capacities: &[u64]) -> Result<Loads, AllocError>
    requires { AreCapacities capacities.now coterie.now.voters }
    ensures { IfOk result (AreLoads coterie.now capacities.now) }
{
    let weights = weights_of(alloc, coterie, capacities)?;
    Ok(loads_of_weights(&weights))
}

/// Returns the loads of what is left when a group fails, or `None` if no quorum is left. All voters
/// keep their numbers and capacities, and no quorum has one that failed.
fn left_of(alloc: Global, named: &Named, group: &QSet) -> Result<Option<Loads>, AllocError>
    ensures left { IfOk result (λ left.
        IfSome left (AreLoads (system_without group.now named.now.system) named.now.capacities)) }
    ensures none { IfOk result (λ left. IfNone left (MeetsEach named.now.system.quorums group.now)) }
{
    match coterie_without(alloc, named.coterie(), group)? {
        Some(left) => Ok(Some(loads_of(alloc, &left, named.capacities())?)),
        None => Ok(None),
    }
}

/// Returns what the failure of a group does.
fn loss_of(alloc: Global, named: &Named, group: &QSet) -> Result<Loss, AllocError>
    ensures group { IfOk result (λ loss. loss.group ≡ group.now) }
    ensures loss { IfOk result (IsLoss named.now) }
{
    let left = left_of(alloc, named, group)?;
    Ok(Loss {
        group: group.copy(),
        left,
    })
}

/// Returns for each group of voters what its failure does, in the order of their first voters. Fails only
/// if it runs out of memory.
pub fn losses_of(alloc: Global, named: &Named) -> Result<Vec<Loss>, AllocError>
    ensures groups { IfOk result (λ v. map (λ loss. loss.group) v.items ≡ groups_of named.now.names) }
    ensures losses { IfOk result (λ v. All (IsLoss named.now) v.items) }
{
    let groups = groups_of(alloc, named)?;
    let mut losses = Vec::with_capacity(alloc, groups.len())?;
    for group in &groups {
        losses.push(loss_of(alloc, named, group)?)?;
    }
    Ok(losses)
}

/// Returns the figures of a coterie. Fails only if it runs out of memory.
pub fn comparison_of(alloc: Global, named: &Named) -> Result<Comparison, AllocError>
    ensures voters { IfOk result (λ c. c.voters ≡ named.now.system.voters) }
    ensures quorums { IfOk result (λ c. c.quorums ≡ length named.now.system.quorums) }
    ensures smallest { IfOk result (λ c. c.smallest ≡ smallest_size named.now.system) }
    ensures largest { IfOk result (λ c. c.largest ≡ largest_size named.now.system) }
    ensures unit { IfOk result (λ c. c.is_unit ≡ are_unit named.now.capacities) }

    // Of the load and its bound.
    ensures loads { IfOk result (λ c. AreLoads named.now.system named.now.capacities c.loads) }

    // What weights with this load leave when one voter is down, at worst.
    ensures one_down { IfOk result (λ c.
        IsOfWeights named.now.system named.now.capacities c.loads c.one_down) }

    // How many voters may fail, as `resilience_of` says.
    ensures blocking { IfOk result (λ c. IsTransversal named.now.system c.borne.blocking) }
    ensures least { IfOk result (λ c.
        c.borne.is_smallest ≡ true → IsSmallest named.now.system.quorums c.borne.blocking) }
    ensures borne { IfOk result (λ c. c.borne.borne ≡ length c.borne.blocking - 1) }
    ensures bears { IfOk result (λ c. c.borne.is_smallest ≡ true → (failed : List ℕ) → IsSet failed
        → length failed ≤ c.borne.borne → Bears named.now.system.quorums failed) }

    // What the failure of each group does.
    ensures groups { IfOk result (λ c. map (λ loss. loss.group) c.losses.items ≡ groups_of named.now.names) }
    ensures losses { IfOk result (λ c. All (IsLoss named.now) c.losses.items) }
{
    let coterie = named.coterie();
    let capacities = named.capacities();
    let weights = weights_of(alloc, coterie, capacities)?;
    Ok(Comparison {
        voters: coterie.voters(),
        quorums: coterie.count(),
        smallest: smallest_size(coterie),
        largest: largest_size(coterie),
        is_unit: are_unit(capacities),
        loads: loads_of_weights(&weights),
        one_down: worst_one_down(&weights),
        borne: resilience_of(coterie),
        losses: losses_of(alloc, named)?,
    })
}
