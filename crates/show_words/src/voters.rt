//! The table of the voters: how busy each is.

use crate::share::{push_bar, push_percent};
use coterie_file::Named;
use show_figures::{Totals, VoterFigure, busy_part, name_of};
use std::alloc::AllocError;

/// Appends the line of a voter: its share of the requests, how often a cycle uses it, a bar, and its
/// name. The bar is for its share if all capacities are 1. For other capacities it is for how busy the
/// voter is, behind its capacity and how busy it is in percent.
fn push_voter(
    text: &mut String,
    named: &Named,
    totals: &Totals,
    figure: VoterFigure,
) -> Result<(), AllocError> {
    let VoterFigure {
        voter,
        count,
        capacity,
        ..
    } = figure;
    push_percent(text, count, totals.cycle_len)?;
    write!(text, " {count:>8}  ")?;
    if totals.is_unit {
        push_bar(text, count, totals.cycle_len)?;
    } else {
        let (part, whole) = busy_part(totals.ratio, figure);
        write!(text, "{capacity:>8} ")?;
        push_percent(text, part, whole)?;
        text.push_str("  ")?;
        push_bar(text, part, whole)?;
    }
    let name = name_of(named, voter);
    write!(text, "  {name}\n")
}

/// Returns whether a voter is less busy than the busiest.
fn is_less_busy(totals: &Totals, figure: VoterFigure) -> bool {
    let (part, whole) = busy_part(totals.ratio, figure);
    part < whole
}

/// Appends the table of these voters, what its figures mean, and whether by a plan some voters are less
/// busy than the busiest.
pub(crate) fn push_voters(
    text: &mut String,
    named: &Named,
    totals: &Totals,
    figures: &[VoterFigure],
) -> Result<(), AllocError> {
    text.push_str(if totals.is_unit {
        "\n   load     uses  voter\n"
    } else {
        "\n  share     uses  capacity    busy  voter\n"
    })?;
    for figure in figures {
        push_voter(text, named, totals, *figure)?;
    }
    if !totals.is_unit {
        text.push_str(
            "  Busy: uses divided by capacity, beside the busiest voter, which has 100 %.\n",
        )?;
    }
    if totals.is_plan() && figures.iter().any(|figure| is_less_busy(totals, *figure)) {
        text.push_str(
            "  Some voters are less busy: a plan keeps the busiest as low as possible, and does not even out the others.\n",
        )?;
    }
    Ok(())
}
