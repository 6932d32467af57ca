//! The tables of a report: the quorums, the voters, and the certificate that a person can add up.
//! Names have no sign that means something in HTML
//! ([`names_are_plain_in_html`](crate::names_are_plain_in_html)).

use certificate::Weights;
use coterie_file::Named;
use show_figures::{QuorumFigure, Totals, VoterFigure, WeightFigure, busy_part, name_of};
use show_words::{push_mark, push_percent, push_quorum_members};
use std::alloc::AllocError;

/// Appends the table of these quorums: whom to ask, and how often.
pub(crate) fn push_quorums(
    text: &mut String,
    named: &Named,
    weights: &Weights,
    figures: &[QuorumFigure],
) -> Result<(), AllocError> {
    text.push_str(
        "<h2>Whom to ask, and how often</h2>\n<div class=\"wide\"><table>\n<tr><th class=\"n\">Share</th><th class=\"n\">Uses</th><th class=\"n\">Quorum</th><th>Ask these voters</th></tr>\n",
    )?;
    for figure in figures {
        let QuorumFigure { quorum, weight } = *figure;
        text.push_str("<tr><td class=\"n\">")?;
        push_percent(text, weight, weights.cycle_len())?;
        write!(
            text,
            "</td><td class=\"n\">{weight}</td><td class=\"n\">{quorum}</td><td>"
        )?;
        push_quorum_members(text, named, quorum)?;
        text.push_str("</td></tr>\n")?;
    }
    text.push_str("</table></div>\n")
}

/// Appends the row of a voter: its share, its uses, its capacity, and how busy it is for this.
fn push_voter(
    text: &mut String,
    named: &Named,
    totals: &Totals,
    figure: VoterFigure,
) -> Result<(), AllocError> {
    let VoterFigure {
        voter,
        count,
        capacity,
        ..
    } = figure;
    let (part, whole) = busy_part(totals.ratio, figure);
    let name = name_of(named, voter);
    write!(text, "<tr><td>{name}</td><td class=\"n\">")?;
    push_percent(text, count, totals.cycle_len)?;
    write!(
        text,
        "</td><td class=\"n\">{count}</td><td class=\"n\">{capacity}</td><td><meter max=\"{whole}\" value=\"{part}\"></meter>"
    )?;
    push_percent(text, part, whole)?;
    text.push_str("</td></tr>\n")
}

/// Appends the table of these voters: how busy each is for its capacity.
pub(crate) fn push_voters(
    text: &mut String,
    named: &Named,
    totals: &Totals,
    figures: &[VoterFigure],
) -> Result<(), AllocError> {
    text.push_str(
        "<h2>How busy each voter is for its capacity</h2>\n<div class=\"wide\"><table>\n<tr><th>Voter</th><th class=\"n\">Share</th><th class=\"n\">Uses</th><th class=\"n\">Capacity</th><th>Beside the busiest</th></tr>\n",
    )?;
    for figure in figures {
        push_voter(text, named, totals, *figure)?;
    }
    text.push_str("</table></div>\n")
}

/// Appends that the bound is the load of the plan, or how far the load of the weights is above it at most.
fn push_end(text: &mut String, totals: &Totals) -> Result<(), AllocError> {
    if totals.is_plan() {
        return text.push_str("That is the load of this plan.</li>\n");
    }
    let (part, whole) = totals.loads.load;
    write!(text, "The load of these weights is {part}/{whole}")?;
    push_mark(text, totals.loads)?;
    text.push_str(".</li>\n")
}

/// Appends the steps from the weights of the voters to the bound.
fn push_steps(text: &mut String, totals: &Totals) -> Result<(), AllocError> {
    let (weights, share) = if totals.is_unit {
        ("The weights", "of N requests")
    } else {
        (
            "The weights, each times the voter's capacity,",
            "of N requests for its capacity",
        )
    };
    let total = totals.weight_total;
    let least = totals.lightest_quorum;
    let (part, whole) = totals.loads.bound;
    write!(text, "<li>{weights} add up to <b>{total}</b>.</li>\n")?;
    write!(
        text,
        "<li>The members of every quorum together weigh at least <b>{least}</b>, so N requests weigh at least {least} N.</li>\n"
    )?;
    write!(
        text,
        "<li>So some voter gets at least <b>{part}/{whole}</b> {share}, whichever quorums they use. "
    )?;
    push_end(text, totals)
}

/// Appends the certificate: the weights of these voters, and the steps.
pub(crate) fn push_certificate(
    text: &mut String,
    named: &Named,
    totals: &Totals,
    figures: &[WeightFigure],
) -> Result<(), AllocError> {
    let heading = if totals.is_plan() {
        "Why no plan has a smaller load"
    } else {
        "How far the load is from the smallest at most"
    };
    write!(
        text,
        "<h2>{heading}</h2>\n<div class=\"wide\"><table>\n<tr><th>Voter</th><th class=\"n\">Weight</th></tr>\n"
    )?;
    for figure in figures {
        let WeightFigure { voter, weight } = *figure;
        let name = name_of(named, voter);
        write!(
            text,
            "<tr><td>{name}</td><td class=\"n\">{weight}</td></tr>\n"
        )?;
    }
    text.push_str("</table></div>\n<ol>\n")?;
    push_steps(text, totals)?;
    text.push_str("</ol>\n")
}
