//! Writing plans and weights as text.
ghost use Rattle.std.specs.Prelude.{◌≡◌, IfOk, string_bytes};
ghost use Rattle.texts.specs.Lines.{text_of_lines};
ghost use Rattle.plan_texts.specs.PlanTexts.{bound_lines, capacity_lines, with_spaces, written_capacities, title_line, version_of, plan_text, text_with, weights_text};

use certificate::{Plan, Weights};
use quorum_set::are_unit;
use std::alloc::{AllocError, Global};

/// Returns the numbers as text, with a space between each two.
fn with_spaces(alloc: Global, numbers: &[u64]) -> Result<String, AllocError>
    ensures { IfOk result (λ text. string_bytes text ≡ with_spaces numbers.now) }
{
    let mut text = String::new(alloc);
    for (k, n) in numbers.iter().enumerate() {
        if k > 0 {
            text.push(' ')?;
        }
        write!(text, "{n}")?;
    }
    Ok(text)
}

/// Returns the line of the capacities, or no text if all are 1.
fn capacity_line(alloc: Global, capacities: &[u64]) -> Result<String, AllocError>
    ensures { IfOk result (λ text.
        string_bytes text ≡ text_of_lines (capacity_lines (written_capacities capacities.now))) }
{
    if are_unit(capacities) {
        return Ok(String::new(alloc));
    }
    let numbers = with_spaces(alloc, capacities)?;
    format!(in alloc; "capacity {numbers}\n")
}

/// Returns the first line of a text of weights, or of a plan, with these capacities.
fn title_line(alloc: Global, bounded: bool, capacities: &[u64]) -> Result<String, AllocError>
    ensures { IfOk result (λ text.
        string_bytes text ≡ title_line bounded (version_of (written_capacities capacities.now))) }
{
    match (bounded, are_unit(capacities)) {
        (true, true) => format!(in alloc; "quorum-weights 1"),
        (true, false) => format!(in alloc; "quorum-weights 2"),
        (false, true) => format!(in alloc; "quorum-plan 1"),
        (false, false) => format!(in alloc; "quorum-plan 2"),
    }
}

/// Returns the line of a bound, or no text if there is none.
fn bound_line(alloc: Global, bound: Option<(u64, u64)>) -> Result<String, AllocError>
    ensures { IfOk result (λ text. string_bytes text ≡ text_of_lines (bound_lines bound)) }
{
    match bound {
        Some((numerator, denominator)) => { format!(in alloc; "bound {numerator}/{denominator}\n") }
        None => Ok(String::new(alloc)),
    }
}

/// Returns the text of weights with this bound, or of a plan, which has none.
fn text_with(
    alloc: Global,
    weights: &Weights,
    bound: Option<(u64, u64)>,
) -> Result<String, AllocError>
    ensures { IfOk result (λ text. string_bytes text ≡ text_with bound weights.now) }
{
    let title = title_line(alloc, bound.is_some(), weights.capacities())?;
    let (numerator, denominator) = weights.load();
    let cycle_len = weights.cycle_len();
    let bound_line = bound_line(alloc, bound)?;
    let capacity_line = capacity_line(alloc, weights.capacities())?;
    let quorum_weights = with_spaces(alloc, weights.quorum_weights())?;
    let voter_weights = with_spaces(alloc, weights.voter_weights())?;
    format!(in alloc;
        "{title}\nload {numerator}/{denominator}\n{bound_line}cycle {cycle_len}\n{capacity_line}quorum {quorum_weights}\nvoter {voter_weights}\n"
    )
}

/// Returns the text of a plan. Each plan has exactly one: of version 1 if all capacities are 1,
/// else of version 2.
pub fn write_plan(alloc: Global, plan: &Plan) -> Result<String, AllocError>
    ensures { IfOk result (λ text. string_bytes text ≡ plan_text plan.now) }
{
    text_with(alloc, plan.weights(), None)
}

/// Returns the text of weights. They have exactly one: of version 1 if all capacities are 1, else of
/// version 2.
pub fn write_weights(alloc: Global, weights: &Weights) -> Result<String, AllocError>
    ensures { IfOk result (λ text. string_bytes text ≡ weights_text weights.now) }
{
    text_with(alloc, weights, Some(weights.bound()))
}
