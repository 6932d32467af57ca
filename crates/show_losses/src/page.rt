//! The page of weights and their losses.

use crate::rows::{Row, rows_of, thousandths};
use certificate::Weights;
use coterie_file::Named;
use losses::{Failure, regret_bound};
use robust::{Down, Found};
use show_words::{push_members, push_percent, weights_words};
use std::alloc::{AllocError, Global};

/// The most losses that have a line.
const MOST_ROWS: usize = 100;

/// Appends thousandths as a number with three digits after the point, as `1.173`.
fn push_thousandths(text: &mut String, thousandths: u64) -> Result<(), AllocError> {
    let ones = thousandths / 1000;
    let rest = thousandths % 1000;
    write!(text, "{ones}.{rest:03}")
}

/// Appends a fraction with three digits after the point.
fn push_decimal(text: &mut String, fraction: (u64, u64)) -> Result<(), AllocError> {
    push_thousandths(text, thousandths(fraction.0, fraction.1))
}

/// Returns which losses the page is about.
fn losses_text(down: Down) -> &'static str {
    match down {
        Down::One => "one voter is down",
        Down::OneOrTwo => "one or two voters are down",
    }
}

/// Appends what the worst loss costs. Each row's quotient is rounded down, so it is below the next thousandth.
fn push_worst(text: &mut String, found: &Found, rows: &[Row]) -> Result<(), AllocError> {
    let losses = losses_text(found.down);
    if rows.len() < found.failures.len() {
        return write!(
            text,
            "\nIf {losses}, a quorum may be left, but no ticket.\n"
        );
    }
    match rows.first() {
        Some(worst) => {
            write!(
                text,
                "\nIf {losses}, the load of the tickets that are left is below "
            )?;
            push_thousandths(text, worst.times.saturating_add(1))?;
            text.push_str(" times that of new weights.\n")
        }
        None => write!(text, "\nIf {losses}, no quorum is left.\n"),
    }
}

/// Appends below which quotient no weights with a load up to the limit are, if something is shown of that.
fn push_bound(text: &mut String, found: &Found) -> Result<(), AllocError> {
    let bound = regret_bound(
        &found.weights,
        found.limit,
        &found.multipliers,
        &found.failures,
    );
    match bound {
        Some(millionths) if millionths > 0 => {
            text.push_str("No weights with a load of at most ")?;
            push_decimal(text, found.limit)?;
            text.push_str(" keep it below ")?;
            push_thousandths(text, (millionths / 1000).min(1_000_000_000) as u64)?;
            text.push_str(match found.down {
                Down::One => " times for each voter.\n",
                Down::OneOrTwo => " times for each loss of one or two voters.\n",
            })
        }
        _ => Ok(()),
    }
}

/// Appends the load of new weights. One that may not be the best is marked.
fn push_best(text: &mut String, row: &Row) -> Result<(), AllocError> {
    text.push_str(if row.is_best { "  " } else { "<=" })?;
    push_decimal(text, row.best)
}

/// Appends the line of a loss.
fn push_row(
    text: &mut String,
    named: &Named,
    weights: &Weights,
    failure: &Failure,
    row: &Row,
) -> Result<(), AllocError> {
    push_percent(text, row.tickets, weights.cycle_len())?;
    text.push_str("   ")?;
    push_decimal(text, row.load)?;
    text.push_str("      ")?;
    push_best(text, row)?;
    text.push_str("  ")?;
    push_thousandths(text, row.times)?;
    text.push_str("  ")?;
    push_members(text, named, &failure.down, " ")?;
    text.push('\n')
}

/// Appends how many losses have no line, and what marks mean, if there are some.
fn push_notes(text: &mut String, rows: &[Row]) -> Result<(), AllocError> {
    let others = rows.len().saturating_sub(MOST_ROWS);
    if others > 0 {
        write!(text, "and {others} others, of which none is worse\n")?;
    }
    if rows.iter().take(MOST_ROWS).any(|row| !row.is_best) {
        text.push_str(
            "\n<=: new weights with this load were found, and some with a smaller one may be possible\n",
        )?;
    }
    Ok(())
}

/// Appends the table of the worst losses.
fn push_rows(
    text: &mut String,
    named: &Named,
    found: &Found,
    rows: &[Row],
) -> Result<(), AllocError> {
    if rows.is_empty() {
        return Ok(());
    }
    text.push_str("\n   left    load  new weights  times  down\n")?;
    for row in rows.iter().take(MOST_ROWS) {
        if let Some(failure) = found.failures.get(row.place) {
            push_row(text, named, &found.weights, failure, row)?;
        }
    }
    push_notes(text, rows)
}

/// Returns weights that were found for when voters are down, in words: the page of the weights, what the
/// worst loss costs, a bound of that, and what the worst losses leave, up to a hundred. The weights are of the
/// named coterie. Fails only if memory runs out.
pub fn losses_words(alloc: Global, named: &Named, found: &Found) -> Result<String, AllocError> {
    let rows = rows_of(alloc, &found.weights, &found.failures)?;
    let mut text = weights_words(alloc, named, &found.weights)?;
    push_worst(&mut text, found, &rows)?;
    push_bound(&mut text, found)?;
    push_rows(&mut text, named, found, &rows)?;
    Ok(text)
}
