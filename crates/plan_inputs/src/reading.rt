//! Reading a coterie, and a plan or weights of it.
ghost use Rattle.std.specs.Prelude.{◌≡◌, IfErr, IfOk};
ghost use Rattle.plan_inputs.specs.Faults.{Gives, IsOfFile};
ghost use Rattle.plan_inputs.specs.Inputs.{coterie_in, parts_of, plan_in, planned_by, weighed_by, weighed_parts, weights_in};

use crate::fault::InputFault;
use crate::planned::{Planned, Weighed};
use certificate::{Plan, Weights};
use coterie_file::{FileFault, Named, read_coterie};
use plan_texts::{read_plan, read_weights};
use std::alloc::Global;

/// Returns the coterie that a text describes. A text that is not UTF-8 fails with `NotToml`.
pub fn coterie_of(alloc: Global, text: &[u8]) -> Result<Named, InputFault>
    ensures exact { Gives (λ n. n) result (coterie_in text.now) }
    ensures file { IfErr result IsOfFile }
{
    let Ok(text) = std::str::from_utf8(text) else {
        return Err(InputFault::File(FileFault::NotToml));
    };
    match read_coterie(alloc, text) {
        Ok(named) => Ok(named),
        Err(fault) => Err(InputFault::from(fault)),
    }
}

/// Returns the plan of a coterie and its voters' capacities that a text describes.
fn plan_of(alloc: Global, named: &Named, text: &[u8]) -> Result<Plan, InputFault>
    ensures exact { Gives (λ p. p) result (plan_in named.now text.now) }
    ensures coterie { IfOk result (λ p. p.system ≡ named.now.system) }
{
    match read_plan(alloc, named.coterie(), named.capacities(), text) {
        Ok(plan) => Ok(plan),
        Err(fault) => Err(InputFault::from(fault)),
    }
}

/// Returns what two texts describe: a coterie, and a plan of it.
#[tactic(auto, unfolding(crate::specs::Inputs::planned_by))]
pub fn planned_of(alloc: Global, coterie: &[u8], plan: &[u8]) -> Result<Planned, InputFault>
    ensures exact { Gives parts_of result (planned_by coterie.now plan.now) }
{
    let named = match coterie_of(alloc, coterie) {
        Ok(named) => named,
        Err(fault) => return Err(fault),
    };
    let plan = match plan_of(alloc, &named, plan) {
        Ok(plan) => plan,
        Err(fault) => return Err(fault),
    };
    Ok(Planned { named, plan })
}

/// Returns the weights of a coterie and its voters' capacities that a text describes: theirs, or a
/// plan's.
fn weights_of(alloc: Global, named: &Named, text: &[u8]) -> Result<Weights, InputFault>
    ensures exact { Gives (λ w. w) result (weights_in named.now text.now) }
    ensures coterie { IfOk result (λ w. w.system ≡ named.now.system) }
{
    match read_weights(alloc, named.coterie(), named.capacities(), text) {
        Ok(weights) => Ok(weights),
        Err(fault) => Err(InputFault::from(fault)),
    }
}

/// Returns what two texts describe: a coterie, and weights of it, which may be a plan's.
#[tactic(auto, unfolding(crate::specs::Inputs::weighed_by))]
pub fn weighed_of(alloc: Global, coterie: &[u8], weights: &[u8]) -> Result<Weighed, InputFault>
    ensures exact { Gives weighed_parts result (weighed_by coterie.now weights.now) }
{
    let named = match coterie_of(alloc, coterie) {
        Ok(named) => named,
        Err(fault) => return Err(fault),
    };
    let weights = match weights_of(alloc, &named, weights) {
        Ok(weights) => weights,
        Err(fault) => return Err(fault),
    };
    Ok(Weighed { named, weights })
}
