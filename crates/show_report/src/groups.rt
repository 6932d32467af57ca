//! What the loss of a whole group of voters does, such as a rack.

use coterie_file::Named;
use failures::bears;
use quorum_set::Coterie;
use show_figures::{Loss, Totals};
use show_words::{push_gap, push_members, push_percent, push_tenths};
use std::alloc::AllocError;

/// Appends the load of the best plan of what is left, if a quorum is. If some capacity is not 1, appends
/// its throughput instead: 1 divided by the load. If no plan was found, it is that of weights near the
/// best, and how near follows.
fn push_left(text: &mut String, loss: &Loss, is_unit: bool) -> Result<(), AllocError> {
    let Some(loads) = loss.left else {
        return text.push_str("no quorum is left");
    };
    let (part, whole) = loads.load;
    if is_unit {
        push_percent(text, part, whole)?;
    } else {
        push_tenths(text, whole, part)?;
    }
    push_gap(text, loads, !is_unit)
}

/// Appends the table of these losses, if there are several groups and one has several voters. `used` are
/// the quorums that a cycle uses.
pub(crate) fn push_groups(
    text: &mut String,
    named: &Named,
    used: &Coterie,
    losses: &[Loss],
    totals: &Totals,
) -> Result<(), AllocError> {
    if losses.len() < 2 || losses.len() >= named.coterie().voters() {
        return Ok(());
    }
    let figure = if totals.is_unit { "Load" } else { "Throughput" };
    let question = if totals.is_plan() {
        "This plan goes on"
    } else {
        "These weights go on"
    };
    write!(
        text,
        "<h2>When a whole group fails</h2>\n<div class=\"wide\"><table>\n<tr><th>Group, by names</th><th class=\"n\">{figure} of a new plan</th><th>{question}</th></tr>\n"
    )?;
    for loss in losses {
        text.push_str("<tr><td>")?;
        push_members(text, named, &loss.group, " ")?;
        text.push_str("</td><td class=\"n\">")?;
        push_left(text, loss, totals.is_unit)?;
        let goes_on = if bears(used, &loss.group) {
            "with fewer quorums"
        } else {
            "no: plan again"
        };
        write!(text, "</td><td>{goes_on}</td></tr>\n")?;
    }
    text.push_str("</table></div>\n")
}
