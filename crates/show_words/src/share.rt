//! Parts of a whole, in percent and as bars.

use show_figures::{Loads, parts_above, share, tenths};
use std::alloc::AllocError;

/// How many characters a bar of the whole has.
const BAR: u64 = 40;

/// Appends a part of a whole in percent, with one digit after the point, as ` 60.0 %`. The whole counts
/// as 1 at least and as 2^32 - 1 at most, and a part that is greater as the whole.
pub fn push_percent(text: &mut String, part: u64, whole: u64) -> Result<(), AllocError> {
    let tenths = share(part, whole, 1_000);
    let ones = tenths / 10;
    let tenth = tenths % 10;
    write!(text, "{ones:>3}.{tenth} %")
}

/// Appends a quotient as a fraction, as `6125/3`, or as a number if it is divided by 1.
pub fn push_fraction(text: &mut String, part: u64, whole: u64) -> Result<(), AllocError> {
    if whole == 1 {
        write!(text, "{part}")
    } else {
        write!(text, "{part}/{whole}")
    }
}

/// Appends a quotient with one digit after the point, as `2041.7`. Both numbers count as 2^32 - 1 at
/// most, and a divisor of 0 as 1.
pub fn push_tenths(text: &mut String, part: u64, whole: u64) -> Result<(), AllocError> {
    let tenths = tenths(part, whole);
    let ones = tenths / 10;
    let tenth = tenths % 10;
    write!(text, "{ones}.{tenth}")
}

/// Appends a quotient as a fraction and with one digit after the point, as `6125/3, about 2041.7`.
pub fn push_quotient(text: &mut String, part: u64, whole: u64) -> Result<(), AllocError> {
    push_fraction(text, part, whole)?;
    text.push_str(", about ")?;
    push_tenths(text, part, whole)
}

/// Appends how far a load is above its bound at most, in percent, rounded up to thousandths.
pub fn push_excess(text: &mut String, loads: Loads) -> Result<(), AllocError> {
    let thousandths = parts_above(loads.load, loads.bound, 100_000);
    let ones = thousandths / 1000;
    let rest = thousandths % 1000;
    write!(text, "{ones}.{rest:03} %")
}

/// Appends behind a load, or behind a throughput, how far it is from the best one at most. Appends
/// nothing if the load is its bound: it is the smallest possible one.
pub fn push_gap(text: &mut String, loads: Loads, is_throughput: bool) -> Result<(), AllocError> {
    if loads.load == loads.bound {
        return Ok(());
    }
    text.push_str(", at most ")?;
    push_excess(text, loads)?;
    text.push_str(if is_throughput {
        " below the greatest"
    } else {
        " above the smallest"
    })
}

/// Appends behind a load, in brackets, how far it is above its bound at most. Appends nothing if the load
/// is its bound.
pub fn push_mark(text: &mut String, loads: Loads) -> Result<(), AllocError> {
    if loads.load == loads.bound {
        return Ok(());
    }
    text.push_str(" (at most ")?;
    push_excess(text, loads)?;
    text.push_str(" above the best)")
}

/// Appends a bar for a part of a whole: of the whole it has 40 characters.
pub(crate) fn push_bar(text: &mut String, part: u64, whole: u64) -> Result<(), AllocError> {
    let filled = share(part, whole, BAR);
    for place in 0..BAR {
        text.push(if place < filled { '#' } else { '.' })?;
    }
    Ok(())
}
