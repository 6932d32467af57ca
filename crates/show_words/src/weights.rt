//! A plan or other weights in words: how often to ask which voters, and why no load is below the bound.

use crate::names::push_quorum_members;
use crate::reasons::push_reasons;
use crate::share::{push_fraction, push_mark, push_percent, push_quotient};
use crate::voters::push_voters;
use certificate::Weights;
use coterie_file::Named;
use show_figures::{
    QuorumFigure, Totals, quorum_figures, totals_of, voter_figures, weight_figures,
};
use std::alloc::{AllocError, Global};

/// Appends the load, and how far it is above its bound at most.
fn push_load(text: &mut String, totals: &Totals) -> Result<(), AllocError> {
    let (part, whole) = totals.loads.load;
    write!(text, "load {part}/{whole}")?;
    if totals.is_unit {
        text.push_str(", ")?;
        push_percent(text, part, whole)?;
    }
    push_mark(text, totals.loads)
}

/// Appends the load, and what a cycle asks of its busiest voter. For capacities that are not all 1
/// the throughput follows: 1 divided by the load.
fn push_summary(text: &mut String, totals: &Totals) -> Result<(), AllocError> {
    let (part, whole) = totals.loads.load;
    let (count, capacity) = totals.ratio;
    let len = totals.cycle_len;
    push_load(text, totals)?;
    if totals.is_unit {
        return write!(
            text,
            ": of {len} requests, one cycle, the busiest voter gets {count}\n"
        );
    }
    write!(
        text,
        ": of {len} requests, one cycle, no voter gets more than "
    )?;
    push_fraction(text, count, capacity)?;
    text.push_str(" times its capacity\nthroughput ")?;
    push_quotient(text, whole, part)?;
    text.push_str(", in the unit of the capacities: if these are requests per second, so is this\n")
}

/// Appends the table of these quorums: the share of the requests, the weight, the number and the
/// members.
fn push_quorums(
    text: &mut String,
    named: &Named,
    weights: &Weights,
    figures: &[QuorumFigure],
) -> Result<(), AllocError> {
    text.push_str("\n  share     uses  quorum  ask these voters\n")?;
    for figure in figures {
        let QuorumFigure { quorum, weight } = *figure;
        push_percent(text, weight, weights.cycle_len())?;
        write!(text, " {weight:>8} {quorum:>7}  ")?;
        push_quorum_members(text, named, quorum)?;
        text.push('\n')?;
    }
    Ok(())
}

/// Returns weights in words: their load, how often a cycle uses each quorum and each voter, and why no
/// load is below the bound. If the load is the bound, the weights are a plan, and the page is about one.
/// The weights are of the named coterie. Fails only if memory runs out.
pub fn weights_words(
    alloc: Global,
    named: &Named,
    weights: &Weights,
) -> Result<String, AllocError> {
    let totals = totals_of(weights);
    let quorums = quorum_figures(alloc, weights)?;
    let voters = voter_figures(alloc, weights)?;
    let weighing = weight_figures(alloc, weights)?;
    let mut text = String::new(alloc);
    push_summary(&mut text, &totals)?;
    push_quorums(&mut text, named, weights, quorums.as_slice())?;
    push_voters(&mut text, named, &totals, voters.as_slice())?;
    push_reasons(&mut text, named, &totals, weighing.as_slice())?;
    Ok(text)
}
