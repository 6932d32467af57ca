//! Planning for a coterie that is read.
ghost use Rattle.std.specs.Prelude.{◌≡◌, ◌<◌, ◌≤◌, ◌⊎◌, IfOk, string_bytes};
ghost use Rattle.numbers.specs.Bounds.{max_cycle};
ghost use Rattle.certificate.specs.Certificates.{IsCertificate};
ghost use Rattle.plan_texts.specs.PlanTexts.{plan_text, weights_text};
ghost use Rattle.plan_inputs.specs.Inputs.{FindsWeights, Plans};

use crate::fault::InputFault;
use crate::reading::coterie_of;
use certificate::Weights;
use near::weights;
use plan_texts::{write_plan, write_weights};
use planner::plan;
use std::alloc::{AllocError, Global};

/// Returns the text of a plan of the coterie that a text describes.
#[tactic(auto, using(crate::proofs::InputLemmas::unplanned_refused, crate::proofs::InputLemmas::unread_refused))]
pub fn plan_text_of(alloc: Global, coterie: &[u8]) -> Result<String, InputFault>
    ensures { Plans string_bytes coterie.now result }
{
    let named = match coterie_of(alloc, coterie) {
        Ok(named) => named,
        Err(fault) => return Err(fault),
    };
    let plan = match plan(alloc, named.coterie(), named.capacities()) {
        Ok(plan) => plan,
        Err(fault) => return Err(InputFault::from(fault)),
    };
    match write_plan(alloc, &plan) {
        Ok(text) => Ok(text),
        Err(_) => Err(InputFault::OutOfMemory),
    }
}

/// Returns the text of weights: that of a plan if they are one.
fn text_of(alloc: Global, weights: Weights) -> Result<String, AllocError>
    ensures { IfOk result (λ text.
        (IsCertificate weights × (string_bytes text ≡ plan_text weights))
        ⊎ ((¬ IsCertificate weights) × (string_bytes text ≡ weights_text weights))) }
{
    match weights.into_plan() {
        Ok(plan) => write_plan(alloc, &plan),
        Err(weights) => write_weights(alloc, &weights),
    }
}

/// Returns the text of weights of the coterie that a text describes, with a cycle of at most `most`
/// tickets: that of a plan if one with so short a cycle was found.
pub fn weights_text_of(alloc: Global, coterie: &[u8], most: u64) -> Result<String, InputFault>
    requires { (0 < most) × (most ≤ max_cycle) }
    ensures { FindsWeights string_bytes coterie.now most result }
{
    let named = match coterie_of(alloc, coterie) {
        Ok(named) => named,
        Err(fault) => return Err(fault),
    };
    let Ok(weights) = weights(alloc, named.coterie(), named.capacities(), most) else {
        return Err(InputFault::OutOfMemory);
    };
    match text_of(alloc, weights) {
        Ok(text) => Ok(text),
        Err(_) => Err(InputFault::OutOfMemory),
    }
}
