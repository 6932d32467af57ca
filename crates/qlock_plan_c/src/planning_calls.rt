//! The calls that read a coterie, and perhaps a plan or weights: names of voters, planning and checking.
ghost use Rattle.std.specs.Prelude.{◌≡◌, ◌++◌, ◌∷◌, [], IfOk, OnOk, string_bytes};
ghost use Rattle.qlock_plan_c.specs.Calls.{CheckCall, CheckWeightsCall, NamesCall, PlanCall, WeightsCall, measures, names_text, three};
ghost use Rattle.qlock_plan_c.specs.Numbers.{Returns};
ghost use Rattle.qlock_plan_c.specs.Outputs.{output};

use crate::outcome::Outcome;
use crate::output::{put, put_fault};
use coterie_file::Named;
use numbers::MAX_CYCLE;
use plan_inputs::{coterie_of, plan_text_of, planned_of, weighed_of, weights_text_of};
use std::alloc::{AllocError, Global};

/// Adds a name and a newline.
fn push_name(text: &mut String, name: &str) -> Result<(), AllocError>
    ensures { OnOk result (string_bytes text.new ≡ string_bytes text.old ++ (name.now ++ 10 ∷ [])) }
{
    write!(text, "{name}\n")
}

/// Returns the names of the voters, each with a newline.
fn names_of(alloc: Global, named: &Named) -> Result<String, AllocError>
    ensures { IfOk result (λ text. string_bytes text ≡ names_text named.now.names) }
{
    let mut text = String::new(alloc);
    for voter in 0..named.coterie().voters() {
        push_name(&mut text, named.name(voter))?;
    }
    Ok(text)
}

fn names(alloc: Global, coterie: &[u8], out: &mut [u8], written: &mut usize) -> Outcome
    ensures { NamesCall coterie.now (output out.old out.new written.old written.new) result }
{
    let named = match coterie_of(alloc, coterie) {
        Ok(named) => named,
        Err(fault) => return put_fault(&fault, out, written),
    };
    match names_of(alloc, &named) {
        Ok(text) => put(text.as_str(), out, written),
        Err(_) => Outcome::NoMemory,
    }
}

fn plan_call(alloc: Global, coterie: &[u8], out: &mut [u8], written: &mut usize) -> Outcome
    ensures { PlanCall coterie.now (output out.old out.new written.old written.new) result }
{
    match plan_text_of(alloc, coterie) {
        Ok(text) => put(text.as_str(), out, written),
        Err(fault) => put_fault(&fault, out, written),
    }
}

fn weights_call(
    alloc: Global,
    coterie: &[u8],
    most: u64,
    out: &mut [u8],
    written: &mut usize,
) -> Outcome
    ensures { WeightsCall coterie.now most (output out.old out.new written.old written.new) result }
{
    if most == 0 || most > MAX_CYCLE {
        return Outcome::BadArgument;
    }
    match weights_text_of(alloc, coterie, most) {
        Ok(text) => put(text.as_str(), out, written),
        Err(fault) => put_fault(&fault, out, written),
    }
}

fn check_weights(
    alloc: Global,
    coterie: &[u8],
    weights: &[u8],
    load_p: &mut u64,
    load_q: &mut u64,
    bound_p: &mut u64,
    bound_q: &mut u64,
    cycle: &mut u64,
    out: &mut [u8],
    written: &mut usize,
) -> Outcome
    ensures { CheckWeightsCall coterie.now weights.now
        (measures load_p.old load_q.old bound_p.old bound_q.old cycle.old)
        (measures load_p.new load_q.new bound_p.new bound_q.new cycle.new)
        (output out.old out.new written.old written.new) result }
{
    match weighed_of(alloc, coterie, weights) {
        Ok(weighed) => {
            (*load_p, *load_q) = weighed.weights.load();
            (*bound_p, *bound_q) = weighed.weights.bound();
            *cycle = weighed.weights.cycle_len();
            *written = 0;
            Outcome::Done
        }
        Err(fault) => put_fault(&fault, out, written),
    }
}

fn check(
    alloc: Global,
    coterie: &[u8],
    plan: &[u8],
    load_p: &mut u64,
    load_q: &mut u64,
    cycle: &mut u64,
    out: &mut [u8],
    written: &mut usize,
) -> Outcome
    ensures { CheckCall coterie.now plan.now
        (three load_p.old load_q.old cycle.old) (three load_p.new load_q.new cycle.new)
        (output out.old out.new written.old written.new) result }
{
    match planned_of(alloc, coterie, plan) {
        Ok(planned) => {
            (*load_p, *load_q) = planned.plan.load();
            *cycle = planned.plan.cycle_len();
            *written = 0;
            Outcome::Done
        }
        Err(fault) => put_fault(&fault, out, written),
    }
}

/// Writes the names of the voters of the coterie that a text describes, each with a newline.
#[unsafe(no_mangle)]
pub extern "C" fn qlock_names(
    alloc: Global,
    coterie: &[u8],
    out: &mut [u8],
    written: &mut usize,
) -> i32
    ensures { Returns result (NamesCall coterie.now (output out.old out.new written.old written.new)) }
{
    names(alloc, coterie, out, written).number()
}

/// Writes the text of an optimal plan of the coterie that a text describes.
#[unsafe(no_mangle)]
pub extern "C" fn qlock_plan(
    alloc: Global,
    coterie: &[u8],
    out: &mut [u8],
    written: &mut usize,
) -> i32
    ensures { Returns result (PlanCall coterie.now (output out.old out.new written.old written.new)) }
{
    plan_call(alloc, coterie, out, written).number()
}

/// Writes the text of weights of the coterie that a text describes, with a cycle of at most `most`
/// tickets: that of an optimal plan if one with so short a cycle is found.
#[unsafe(no_mangle)]
pub extern "C" fn qlock_weights(
    alloc: Global,
    coterie: &[u8],
    most: u64,
    out: &mut [u8],
    written: &mut usize,
) -> i32
    ensures { Returns result (WeightsCall coterie.now most (output out.old out.new written.old written.new)) }
{
    weights_call(alloc, coterie, most, out, written).number()
}

/// Checks the text of a plan, and writes its load in lowest terms and the length of its cycle.
#[unsafe(no_mangle)]
pub extern "C" fn qlock_check(
    alloc: Global,
    coterie: &[u8],
    plan: &[u8],
    load_p: &mut u64,
    load_q: &mut u64,
    cycle: &mut u64,
    out: &mut [u8],
    written: &mut usize,
) -> i32
    ensures { Returns result (CheckCall coterie.now plan.now
        (three load_p.old load_q.old cycle.old) (three load_p.new load_q.new cycle.new)
        (output out.old out.new written.old written.new)) }
{
    check(alloc, coterie, plan, load_p, load_q, cycle, out, written).number()
}

/// Checks the text of weights or of a plan, and writes load and bound in lowest terms, and the length of
/// the cycle.
#[unsafe(no_mangle)]
pub extern "C" fn qlock_check_weights(
    alloc: Global,
    coterie: &[u8],
    weights: &[u8],
    load_p: &mut u64,
    load_q: &mut u64,
    bound_p: &mut u64,
    bound_q: &mut u64,
    cycle: &mut u64,
    out: &mut [u8],
    written: &mut usize,
) -> i32
    ensures { Returns result (CheckWeightsCall coterie.now weights.now
        (measures load_p.old load_q.old bound_p.old bound_q.old cycle.old)
        (measures load_p.new load_q.new bound_p.new bound_q.new cycle.new)
        (output out.old out.new written.old written.new)) }
{
    check_weights(
        alloc, coterie, weights, load_p, load_q, bound_p, bound_q, cycle, out, written,
    )
    .number()
}
