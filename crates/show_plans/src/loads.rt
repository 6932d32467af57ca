//! The picture of the load.

use crate::bars::{Bars, ROOM};
use crate::columns::Columns;
use crate::dots::Dots;
use certificate::Weights;
use coterie_file::Named;
use quorum_set::are_unit;
use show_figures::{QuorumFigure, VoterFigure, quorum_figures, voter_figures};
use show_svg::{Drawing, Point, open_picture, words};
use std::alloc::{AllocError, Global};

/// How far the bars' upper ends are from the upper edge at least.
const TOP: u64 = 128;

/// How far the bars' lower ends are from the upper edge.
const BASE: u64 = TOP + ROOM;

/// How high the row above the dots is.
const HEADS: u64 = 18;

/// How wide a picture is at least, for its heading.
const LEAST_WIDTH: u64 = 680;

/// Returns what the picture is about.
fn title_of(unit: bool) -> &'static str {
    if unit {
        "How much each voter is used"
    } else {
        "How busy each voter is for its capacity"
    }
}

/// What bars and dots are, if all capacities are 1.
const UNIT_LINES: [&str; 3] = [
    "Bar: a voter's load, the share of all requests that use it.",
    "Row of dots: a quorum with its voters, the most used first.",
    "A dot's area shows how many of a cycle's requests use the quorum.",
];

/// What they are for other capacities.
const CAPACITY_LINES: [&str; 4] = [
    "Bar: a voter's uses, divided by its capacity. The busiest voter has 100 %.",
    "Number in a bar: the share of all requests that use the voter.",
    "Row of dots: a quorum with its voters, the most used first.",
    "A dot's area shows how many of a cycle's requests use the quorum.",
];

/// Appends the heading, which says what bars and dots are.
fn push_heading(out: &mut String, unit: bool) -> Result<(), AllocError> {
    words(
        out,
        Point::at(20, 26),
        "font-size=\"15\" font-weight=\"bold\"",
        title_of(unit),
    )?;
    if unit {
        push_lines(out, &UNIT_LINES)
    } else {
        push_lines(out, &CAPACITY_LINES)
    }
}

/// Appends lines below the title.
fn push_lines(out: &mut String, lines: &[&str]) -> Result<(), AllocError> {
    let mut y: u64 = 44;
    for line in lines {
        words(out, Point::at(20, y), "", line)?;
        y = y.saturating_add(16);
    }
    Ok(())
}

/// Returns how wide the picture is.
fn width_of(columns: &Columns) -> u64 {
    columns.right().saturating_add(120).max(LEAST_WIDTH)
}

/// Appends all of the picture but its end.
fn push_load(
    out: &mut String,
    named: &Named,
    weights: &Weights,
    voters: &[VoterFigure],
    quorums: &[QuorumFigure],
) -> Result<(), AllocError> {
    let columns = Columns::of(named, voters);
    let bars = Bars::of(weights, BASE);
    let top = columns.name_height().saturating_add(BASE + HEADS);
    let dots = Dots::of(weights, &columns, quorums, top);
    let height = dots.foot(quorums.len());
    let unit = are_unit(weights.capacities());
    open_picture(out, width_of(&columns), height, title_of(unit))?;
    push_heading(out, unit)?;
    bars.push_axis(out, &columns)?;
    bars.push_voters(out, named, &columns, voters)?;
    bars.push_limit(out, &columns, weights)?;
    columns.push_names(out, named, voters, BASE)?;
    dots.push_heads(out, &columns)?;
    dots.push_rows(out, named, &columns, quorums)?;
    dots.push_rest(out, &columns, quorums.len())
}

/// Returns a picture of how much a plan, or other weights, use each voter: a bar for each voter's load, the
/// line below which no load is, and the quorums that a cycle uses as rows of dots, the most used
/// first. If some capacity is not 1, a bar is how busy the voter is for its capacity, beside the
/// busiest voter. The weights are of the named coterie. Fails only if memory runs out.
pub fn load_picture(
    alloc: Global,
    named: &Named,
    weights: &Weights,
) -> Result<Drawing, AllocError> {
    let voters = voter_figures(alloc, weights)?;
    let quorums = quorum_figures(alloc, weights)?;
    let mut out = String::new(alloc);
    push_load(&mut out, named, weights, &voters, &quorums)?;
    Drawing::finish(out)
}
