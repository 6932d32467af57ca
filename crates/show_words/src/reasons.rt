//! Why no load is below the bound.

use coterie_file::Named;
use show_figures::{Totals, WeightFigure, name_of};
use std::alloc::AllocError;

/// Appends the names and weights of these voters, with commas between them.
fn push_weights(
    text: &mut String,
    named: &Named,
    figures: &[WeightFigure],
) -> Result<(), AllocError> {
    let mut before = "";
    for figure in figures {
        let weight = figure.weight;
        text.push_str(before)?;
        text.push_str(name_of(named, figure.voter))?;
        write!(text, " {weight}")?;
        before = ", ";
    }
    Ok(())
}

/// Appends the sums by which the load is bounded.
fn push_sums(text: &mut String, totals: &Totals) -> Result<(), AllocError> {
    let (sum, share) = if totals.is_unit {
        (". That is ", " of the N requests")
    } else {
        (
            ". Each times its capacity, that is ",
            " of N times its capacity",
        )
    };
    let total = totals.weight_total;
    let least = totals.lightest_quorum;
    let (part, whole) = totals.loads.bound;
    write!(text, "{sum}{total} in all.\n")?;
    write!(
        text,
        "  Every quorum weighs at least {least}, so N requests weigh at least {least} N.\n"
    )?;
    write!(
        text,
        "  Some voter then gets at least {part}/{whole}{share}, whichever quorums they use.\n"
    )
}

/// Appends the loads below which no coterie of these sizes can go.
fn push_bounds(text: &mut String, totals: &Totals) -> Result<(), AllocError> {
    let voters = totals.voters;
    let size = totals.smallest_size;
    let all = totals.capacity_sum;
    let least = totals.smallest_capacity;
    if totals.is_unit {
        write!(
            text,
            "\nNo coterie of {voters} voters whose smallest quorum has {size} has a load below {size}/{voters} or 1/{size}.\n"
        )
    } else {
        write!(
            text,
            "\nThe capacities add up to {all}, those of the weakest quorum to {least}; the smallest quorum has {size} members.\nNo coterie with these three numbers has a load below {size}/{all} or 1/{least}.\n"
        )
    }
}

/// Appends what the sums are for: why no plan has a smaller load, or why no load is below the bound.
fn push_heading(text: &mut String, totals: &Totals) -> Result<(), AllocError> {
    if totals.is_plan() {
        return text.push_str("\nWhy no plan has a smaller load:\n");
    }
    let (part, whole) = totals.loads.bound;
    write!(
        text,
        "\nThese weights are no plan. Why no weights of these quorums have a load below {part}/{whole}:\n"
    )
}

/// Appends why no load is below the bound: the sums in sentences, and what holds of every coterie of these
/// sizes.
pub(crate) fn push_reasons(
    text: &mut String,
    named: &Named,
    totals: &Totals,
    weights: &[WeightFigure],
) -> Result<(), AllocError> {
    push_heading(text, totals)?;
    text.push_str("  Weigh the voters: ")?;
    push_weights(text, named, weights)?;
    push_sums(text, totals)?;
    push_bounds(text, totals)
}
