//! The picture of a story.

use crate::arrows::{push_all_lost, push_arrows};
use crate::chart::{Chart, shown_moments};
use crate::kinds::{Kind, lost, push_heads, push_kinds};
use crate::rows::{INSIDE, MAKER, push_bars, push_crash, push_makers, push_rows};
use coterie_file::Named;
use dealer::Plans;
use show_svg::{Area, Drawing, Point, circle, close_text, open_picture, open_text, rect, words};
use std::alloc::{AllocError, Global};
use stories::{Story, StoryScript, story_of};

/// How much room the heading takes.
const HEADING: u64 = 96;

/// How much room there is on the right of the last column, for labels.
const LABELS: u64 = 84;

/// How wide a picture is at least, for its heading.
const LEAST_WIDTH: u64 = 790;

/// Appends what the other signs are, at this height.
fn push_signs(out: &mut String, y: u64) -> Result<(), AllocError> {
    let area = Area {
        x: 20,
        y: y.saturating_sub(6),
        width: 36,
        height: 12,
    };
    let low = y.saturating_add(4);
    rect(out, area, INSIDE)?;
    words(out, Point::at(62, low), "", "a client is inside")?;
    lost(out, Point::at(180, y), Point::at(206, y), Kind::Request)?;
    words(out, Point::at(218, low), "", "never arrives")?;
    circle(out, Point::at(328, y), 35, MAKER)?;
    words(
        out,
        Point::at(340, low),
        "",
        "acts by itself: asks, leaves, gives up or repeats",
    )?;
    push_crash(out, Point::at(644, y))?;
    words(out, Point::at(656, low), "", "crashes, and restarts")
}

/// Appends the heading, which says what the lines and bars are.
fn push_heading(out: &mut String) -> Result<(), AllocError> {
    words(
        out,
        Point::at(20, 26),
        "font-size=\"15\" font-weight=\"bold\"",
        "What the script does, step by step",
    )?;
    words(
        out,
        Point::at(20, 44),
        "",
        "Time goes down. An arrow goes from where a message was sent to where it arrives. Its number is a stamp or a grant.",
    )?;
    push_kinds(out, 62)?;
    push_signs(out, 80)
}

/// Appends how many steps have no row, if some have none.
fn push_rest(out: &mut String, story: &Story, foot: u64) -> Result<(), AllocError> {
    let rows = shown_moments(story).len();
    let rest = story.moments.len().saturating_sub(rows);
    if rest == 0 {
        return Ok(());
    }
    open_text(
        out,
        Point::at(20, foot.saturating_add(16)),
        "font-style=\"italic\"",
    )?;
    write!(
        out,
        "and {rest} more steps, with what is sent and arrives in them"
    )?;
    close_text(out)
}

/// Appends the columns and the rows of a chart, with all that is in them.
fn push_chart(
    alloc: Global,
    out: &mut String,
    named: &Named,
    story: &Story,
    chart: &Chart,
) -> Result<(), AllocError> {
    let foot = chart.foot(shown_moments(story).len());
    let heights = (chart.top, foot);
    push_rows(out, named, story, chart)?;
    chart.lanes.push_clients(alloc, out, named, heights)?;
    chart.lanes.push_voters(out, named, heights)?;
    push_bars(out, story, chart)?;
    push_makers(out, story, chart)?;
    push_all_lost(alloc, out, named, story, chart)?;
    push_arrows(alloc, out, named, story, chart)?;
    push_rest(out, story, foot)
}

/// Appends all of the picture but its end.
fn push_story(
    alloc: Global,
    out: &mut String,
    named: &Named,
    story: &Story,
) -> Result<(), AllocError> {
    let chart = Chart::of(alloc, named, story, HEADING)?;
    let width = chart.lanes.right().saturating_add(LABELS).max(LEAST_WIDTH);
    let height = chart.foot(shown_moments(story).len()).saturating_add(30);
    open_picture(out, width, height, "What the script does, step by step")?;
    push_heads(out)?;
    push_heading(out)?;
    push_chart(alloc, out, named, story, &chart)
}

/// Returns a picture of a story as a sequence chart: a column for each client and each voter that
/// occurs, a row for each turn, an arrow for each arrival of a message, a cross for each message that
/// never arrives, and a bar where a client is inside. The plans are of coteries with these names. Fails
/// only if memory runs out.
pub fn world_picture(
    alloc: Global,
    named: &Named,
    plans: Plans,
    script: &StoryScript,
) -> Result<Drawing, AllocError> {
    let story = story_of(alloc, plans, script)?;
    let mut out = String::new(alloc);
    push_story(alloc, &mut out, named, &story)?;
    Drawing::finish(out)
}
