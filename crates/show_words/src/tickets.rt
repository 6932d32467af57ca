//! The page of dealt tickets: for each the names of the voters to ask.
ghost use Rattle.std.specs.Prelude.{◌≡◌, ◌≤◌, length};
ghost use Rattle.numbers.specs.Bounds.{max_dealt};

use crate::names::push_quorum_members;
use crate::share::push_mark;
use certificate::Weights;
use commands::{Weighed, push_account, push_ratio};
use coterie_file::Named;
use dealer::Receipt;
use even::Slack;
use quorum_set::are_unit;
use show_figures::{Dealt, Evenness, Loads, dealt_tickets, loads_of_weights};
use std::alloc::{AllocError, Global};

/// The figures of a cycle of weights.
#[derive(Clone, Copy)]
struct CycleFigures {
    /// How many tickets it has.
    len: u64,
    /// The load and its bound.
    loads: Loads,
}

/// Returns the figures of a cycle of weights.
fn figures_of(weights: &Weights) -> CycleFigures {
    CycleFigures {
        len: weights.cycle_len(),
        loads: loads_of_weights(weights),
    }
}

/// Appends the line of a ticket: its number, its quorum, and the names of the voters to ask, if there is
/// a quorum of this number.
fn push_ticket(text: &mut String, named: &Named, receipt: &Receipt) -> Result<(), AllocError> {
    let ticket = receipt.ticket;
    let quorum = receipt.quorum;
    write!(text, "{ticket} {quorum} ")?;
    push_quorum_members(text, named, quorum)?;
    text.push('\n')
}

/// Appends the line of a load that is above its bound. Appends nothing if it is its bound.
fn push_load(text: &mut String, loads: Loads) -> Result<(), AllocError> {
    if loads.load == loads.bound {
        return Ok(());
    }
    let (part, whole) = loads.load;
    write!(text, "load {part}/{whole}")?;
    push_mark(text, loads)?;
    text.push('\n')
}

/// Appends the lines of the stride and the slack of an even order, of voters with these capacities, and
/// that of a load above its bound.
fn push_evenness(
    text: &mut String,
    capacities: &[u64],
    figures: CycleFigures,
    evenness: Evenness,
) -> Result<(), AllocError> {
    let CycleFigures { len, loads } = figures;
    let (part, whole) = loads.load;
    let Evenness {
        stride,
        slack: Slack { excess, unit },
    } = evenness;
    let for_capacity = if are_unit(capacities) {
        ""
    } else {
        ", for its capacity,"
    };
    write!(
        text,
        "stride {stride}: the cycle is a ring of length {len}, and each ticket goes {stride} further\n"
    )?;
    write!(
        text,
        "slack {excess}/{unit}: any n tickets in a row use no voter more often{for_capacity} than n * {part}/{whole} + {excess}/{unit}\n"
    )?;
    push_load(text, loads)
}

/// Appends the lines of these tickets, of their account, and of the order if it is the even one.
fn push_page(
    text: &mut String,
    named: &Named,
    figures: CycleFigures,
    dealt: &Dealt,
) -> Result<(), AllocError>
    requires one_each { length dealt.now.account.voters ≡ named.now.system.voters }
{
    let _ = named.coterie();
    for receipt in &dealt.receipts {
        push_ticket(text, named, receipt)?;
    }
    push_account(text, named, &dealt.account)?;
    push_ratio(text, named.capacities(), &dealt.account)?;
    match dealt.evenness {
        Some(evenness) => push_evenness(text, named.capacities(), figures, evenness),
        None => Ok(()),
    }
}

/// Returns the page of the tickets below `count`, dealt in the even order, or by rounds if the weights are
/// a plan and this order is not asked for: for each its quorum and the names of the voters to ask, then
/// the account of these tickets, and in the even order its stride and its slack, and a load above its
/// bound. Fails only if it runs out of memory.
pub fn tickets_page(
    alloc: Global,
    weighed: Weighed,
    count: u64,
    is_even: bool,
) -> Result<String, AllocError>
    requires count { count ≤ max_dealt }
{
    let Weighed { named, weights } = weighed;
    let figures = figures_of(&weights);
    let dealt = dealt_tickets(alloc, weights, count, is_even)?;
    let mut text = String::new(alloc);
    push_page(&mut text, &named, figures, &dealt)?;
    Ok(text)
}
