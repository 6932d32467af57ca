//! The figures of a plan, or of other weights, at a glance.

use certificate::lowest_terms;
use coterie_file::Named;
use even::Slack;
use show_failures::Resilience;
use show_figures::Totals;
use show_svg::push_escaped;
use show_words::{push_mark, push_members, push_percent, push_quotient};
use std::alloc::AllocError;

/// Appends the load, and before it the throughput if some capacity is not 1: 1 divided by the load.
fn push_load(text: &mut String, totals: &Totals) -> Result<(), AllocError> {
    let (part, whole) = totals.loads.load;
    if totals.is_unit {
        write!(text, "<div><dt>Load</dt><dd><b>{part}/{whole}</b>, ")?;
        push_percent(text, part, whole)?;
        text.push_str(" of the requests use the busiest voter")?;
        push_mark(text, totals.loads)?;
        return text.push_str("</dd></div>\n");
    }
    text.push_str("<div><dt>Throughput</dt><dd><b>")?;
    push_quotient(text, whole, part)?;
    write!(
        text,
        "</b> requests, in the unit of the capacities</dd></div>\n<div><dt>Load</dt><dd><b>{part}/{whole}</b>, the inverse of the throughput"
    )?;
    push_mark(text, totals.loads)?;
    text.push_str("</dd></div>\n")
}

/// How many voters may fail.
#[derive(Drop)]
pub(crate) struct Borne {
    /// Until no quorum of the coterie is left.
    pub(crate) of_all: Resilience,
    /// Until none of the quorums is left that a cycle uses.
    pub(crate) of_plan: Resilience,
}

/// Appends how many failures some quorums bear, and voters without which none of them is left.
fn push_failures(
    text: &mut String,
    named: &Named,
    title: &str,
    resilience: &Resilience,
    end: &str,
) -> Result<(), AllocError> {
    let borne = resilience.borne;
    let words = if resilience.is_smallest {
        ", whichever voters fail"
    } else {
        " at most"
    };
    write!(
        text,
        "<div><dt>{title}</dt><dd><b>{borne}</b>{words}; without "
    )?;
    push_members(text, named, &resilience.blocking, " ")?;
    write!(text, " {end}</dd></div>\n")
}

/// Appends how even the even order is.
fn push_evenness(text: &mut String, slack: Slack) -> Result<(), AllocError> {
    text.push_str("<div><dt>Evenness</dt><dd><b>")?;
    let (excess, unit) = lowest_terms(slack.excess, slack.unit);
    push_quotient(text, excess, unit)?;
    text.push_str(
        "</b>, the slack: in the even order any n requests in a row use no voter more often, for its capacity, than n times the load plus this</dd></div>\n",
    )
}

/// Appends the title: how many voters there are, and the file that the coterie comes from.
fn push_title(text: &mut String, totals: &Totals, file: Option<&str>) -> Result<(), AllocError> {
    let subject = if totals.is_plan() {
        "A plan"
    } else {
        "Weights"
    };
    let voters = totals.voters;
    write!(text, "<h1>{subject} for {voters} voters")?;
    if let Some(file) = file {
        text.push_str(": ")?;
        push_escaped(text, file)?;
    }
    text.push_str("</h1>\n")
}

/// Returns what a plan, or what other weights, say.
fn purpose_of(totals: &Totals) -> &'static str {
    if totals.is_plan() {
        "The plan says how often to use each quorum, so that the busiest voter gets as few requests as possible."
    } else {
        "The weights say how often to use each quorum. They are no plan: their load may be above the smallest possible one."
    }
}

/// Returns what bears failures beside the coterie: a plan, or other weights.
fn bearer_of(totals: &Totals) -> &'static str {
    if totals.is_plan() {
        "Failures borne by this plan"
    } else {
        "Failures borne by these weights"
    }
}

/// Appends the title and the figures of a plan, or of other weights, at a glance.
pub(crate) fn push_summary(
    text: &mut String,
    named: &Named,
    totals: &Totals,
    borne: &Borne,
    slack: Slack,
    file: Option<&str>,
) -> Result<(), AllocError> {
    let len = totals.cycle_len;
    let purpose = purpose_of(totals);
    push_title(text, totals, file)?;
    write!(
        text,
        "<p>A client takes the lock with the votes of all voters of one quorum. {purpose}</p>\n<dl>\n"
    )?;
    push_load(text, totals)?;
    write!(
        text,
        "<div><dt>Cycle</dt><dd><b>{len}</b> requests: over whole cycles the shares below are exact</dd></div>\n"
    )?;
    push_failures(
        text,
        named,
        "Failures borne by the coterie",
        &borne.of_all,
        "no quorum is left",
    )?;
    push_failures(
        text,
        named,
        bearer_of(totals),
        &borne.of_plan,
        "none of its own quorums is left, and a new plan is needed",
    )?;
    push_evenness(text, slack)?;
    text.push_str("</dl>\n")
}
