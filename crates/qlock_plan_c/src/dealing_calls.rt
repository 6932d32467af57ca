//! The calls that deal: the quorums of tickets in both orders, and how even the second one is.
ghost use Rattle.std.specs.Prelude.{◌≡◌, ◌≤◌, ◌↔◌, IsTrue, length};
ghost use Rattle.qlock_plan_c.specs.Calls.{IsAllowed, QuorumsCall, SlackCall, question_of, three};
ghost use Rattle.qlock_plan_c.specs.Numbers.{Returns};
ghost use Rattle.qlock_plan_c.specs.Orders.{IsEvenOrder};
ghost use Rattle.qlock_plan_c.specs.Outputs.{output};
ghost use Rattle.qlock_plan_c.specs.Texts.{GivesFrom, GivesOrder};
ghost use Rattle.plan_inputs.specs.Inputs.{planned_by, weighed_by};

use crate::order::Order;
use crate::outcome::Outcome;
use crate::output::put_fault;
use dealer::Cycle;
use even::EvenCycle;
use numbers::MAX_TICKETS;
use plan_inputs::{InputFault, planned_of, weighed_of};
use std::alloc::Global;
use words::write_words;

/// Returns whether there is an order with this number, the bytes are whole masks, and the tickets
/// from the first one on, one for each mask, are tickets.
fn is_allowed(order: u32, first: u64, bytes: usize) -> bool
    ensures { IsTrue result ↔ IsAllowed (question_of order first bytes) }
{
    order <= 1 && bytes % 8 == 0 && first <= MAX_TICKETS - (bytes / 8) as u64
}

/// Returns the order by rounds of the plan that two texts describe.
fn rounds_in(alloc: Global, coterie: &[u8], plan: &[u8]) -> Result<Cycle, InputFault>
    ensures { GivesFrom (λ planned cycle. cycle ≡ planned.plan) (planned_by coterie.now plan.now) result }
{
    let planned = match planned_of(alloc, coterie, plan) {
        Ok(planned) => planned,
        Err(fault) => return Err(fault),
    };
    match Cycle::from_plan(alloc, planned.plan) {
        Ok(cycle) => Ok(cycle),
        Err(_) => Err(InputFault::OutOfMemory),
    }
}

/// Returns the even cycle of the weights that two texts describe.
fn even_in(alloc: Global, coterie: &[u8], weights: &[u8]) -> Result<EvenCycle, InputFault>
    ensures { GivesFrom (λ weighed cycle. IsEvenOrder weighed.weights cycle) (weighed_by coterie.now weights.now) result }
{
    let weighed = match weighed_of(alloc, coterie, weights) {
        Ok(weighed) => weighed,
        Err(fault) => return Err(fault),
    };
    match EvenCycle::of(alloc, weighed.weights) {
        Ok(cycle) => Ok(cycle),
        Err(_) => Err(InputFault::OutOfMemory),
    }
}

/// Returns the order with this number of what two texts describe.
fn order_in(alloc: Global, coterie: &[u8], weights: &[u8], order: u32) -> Result<Order, InputFault>
    requires { order ≤ 1 }
    ensures { GivesOrder order coterie.now weights.now result }
{
    if order == 0 {
        return match rounds_in(alloc, coterie, weights) {
            Ok(cycle) => Ok(Order::Rounds(cycle)),
            Err(fault) => Err(fault),
        };
    }
    match even_in(alloc, coterie, weights) {
        Ok(cycle) => Ok(Order::Even(cycle)),
        Err(fault) => Err(fault),
    }
}

fn quorums(
    alloc: Global,
    coterie: &[u8],
    weights: &[u8],
    order: u32,
    first: u64,
    masks: &mut [u8],
    out: &mut [u8],
    written: &mut usize,
) -> Outcome
    ensures { QuorumsCall coterie.now weights.now (question_of order first (length masks.old)) masks.old masks.new
        (output out.old out.new written.old written.new) result }
{
    if !is_allowed(order, first, masks.len()) {
        return Outcome::BadArgument;
    }
    let by = match order_in(alloc, coterie, weights, order) {
        Ok(by) => by,
        Err(fault) => return put_fault(&fault, out, written),
    };
    match by.masks(alloc, first, masks.len() / 8) {
        Ok(words) => {
            write_words(&words, masks);
            *written = 0;
            Outcome::Done
        }
        Err(_) => Outcome::NoMemory,
    }
}

fn slack(
    alloc: Global,
    coterie: &[u8],
    weights: &[u8],
    stride: &mut u64,
    excess: &mut u64,
    unit: &mut u64,
    out: &mut [u8],
    written: &mut usize,
) -> Outcome
    ensures { SlackCall coterie.now weights.now
        (three stride.old excess.old unit.old) (three stride.new excess.new unit.new)
        (output out.old out.new written.old written.new) result }
{
    match even_in(alloc, coterie, weights) {
        Ok(cycle) => {
            let slack = cycle.slack();
            *stride = cycle.stride();
            *excess = slack.excess;
            *unit = slack.unit;
            *written = 0;
            Outcome::Done
        }
        Err(fault) => put_fault(&fault, out, written),
    }
}

/// Fills `masks` with the masks of the quorums of tickets in a row, from the first one on: numbers
/// of 64 bits, bit i 1 if voter i is a member. Order 0 is by rounds, of a plan alone, and 1 is even.
#[unsafe(no_mangle)]
pub extern "C" fn qlock_quorums(
    alloc: Global,
    coterie: &[u8],
    weights: &[u8],
    order: u32,
    first: u64,
    masks: &mut [u8],
    out: &mut [u8],
    written: &mut usize,
) -> i32
    ensures { Returns result (QuorumsCall coterie.now weights.now (question_of order first (length masks.old))
        masks.old masks.new (output out.old out.new written.old written.new)) }
{
    quorums(alloc, coterie, weights, order, first, masks, out, written).number()
}

/// Writes the stride of the even order, and its slack as a numerator and a denominator.
#[unsafe(no_mangle)]
pub extern "C" fn qlock_slack(
    alloc: Global,
    coterie: &[u8],
    weights: &[u8],
    stride: &mut u64,
    excess: &mut u64,
    unit: &mut u64,
    out: &mut [u8],
    written: &mut usize,
) -> i32
    ensures { Returns result (SlackCall coterie.now weights.now
        (three stride.old excess.old unit.old) (three stride.new excess.new unit.new)
        (output out.old out.new written.old written.new)) }
{
    slack(alloc, coterie, weights, stride, excess, unit, out, written).number()
}
