//! What the columns of the page mean.

use crate::entries::{Entry, have_capacities};
use losses::OneDown;
use std::alloc::{AllocError, Global};

/// Returns whether all capacities of some candidates are 1, and not of others.
fn have_two_units(entries: &[Entry]) -> bool {
    have_capacities(entries) && entries.iter().any(|entry| entry.compared.is_unit)
}

/// Returns whether the loss of some voter leaves one of the candidates a quorum, but no ticket.
fn has_mark(entries: &[Entry]) -> bool {
    entries.iter().any(|entry| matches!(entry.compared.one_down, OneDown::NoTicket))
}

/// Appends what the column of one voter down means.
fn push_one_down_legend(
    text: &mut String,
    entries: &[Entry],
    has_throughput: bool,
) -> Result<(), AllocError> {
    let figure = if has_throughput { "throughput" } else { "load" };
    write!(
        text,
        "one down: the worst {figure} of the tickets that are left when one voter is down and a quorum is left\n"
    )?;
    if has_mark(entries) {
        text.push_str(
            "no ticket: some voter is in all quorums that are used, though not in all of the coterie\n",
        )?;
    }
    Ok(())
}

/// Returns what the columns mean.
pub(crate) fn legend_text(alloc: Global, entries: &[Entry]) -> Result<String, AllocError> {
    let has_throughput = have_capacities(entries);
    let mut text = String::new(alloc);
    text.push_str(
        "\nmay fail: how many voters may fail, whichever they are, so that a quorum is left\n",
    )?;
    text.push_str(if has_throughput {
        "load: the share of the requests that the busiest voter gets, divided by its capacity\nthroughput: 1 divided by the load, in the unit of the capacities\n"
    } else {
        "load: the share of the requests that the busiest voter gets\n"
    })?;
    push_one_down_legend(&mut text, entries, has_throughput)?;
    if have_two_units(entries) {
        text.push_str(
            "a coterie without capacities counts each voter as 1: compare throughputs only if the unit is the same\n",
        )?;
    }
    Ok(text)
}
