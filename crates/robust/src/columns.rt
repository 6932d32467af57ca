//! The columns of the game: one for each quorum.

use crate::rows::{Cells, PACE};
use numbers::MAX_VOTERS;
use quorum_set::QSet;
use std::alloc::{AllocError, Global};

/// A quorum, and how much it is used.
#[derive(Clone, Copy, Drop)]
pub(crate) struct Column {
    members: QSet,
    /// What its rows weighed, in all steps together.
    sum: f64,
    /// The same in the last step.
    last: f64,
    /// How much it is used in this step.
    now: f64,
    /// How much it was used, in all steps together. Later steps count more.
    all: f64,
}

impl Column {
    /// Returns the column of a quorum before the first step.
    pub(crate) fn of(members: QSet) -> Column {
        Column {
            members,
            sum: 0.0,
            last: 0.0,
            now: 0.0,
            all: 0.0,
        }
    }
}

/// Forgets what was summed up.
pub(crate) fn restart(columns: &mut [Column]) {
    for column in columns.iter_mut() {
        column.sum = 0.0;
        column.last = 0.0;
        column.all = 0.0;
    }
}

/// Returns the smallest sum of a column, with the last step counted twice.
fn least_of(columns: &[Column]) -> f64 {
    let mut least = f64::INFINITY;
    for column in columns {
        let sum = column.sum + column.last;
        if sum < least {
            least = sum;
        }
    }
    least
}

/// Sets how much each quorum is used, and counts it.
pub(crate) fn choose(columns: &mut [Column], step: f64) {
    let least = least_of(columns);
    let mut total = 0.0;
    for column in columns.iter_mut() {
        column.now = (PACE * (least - column.sum - column.last)).exp();
        total += column.now;
    }
    for column in columns.iter_mut() {
        column.now /= total;
        column.all += step * column.now;
    }
}

/// Returns how much each voter is used by the quorums that are left, and how much these are used.
pub(crate) fn counts_left(columns: &[Column], down: &QSet) -> (Cells, f64) {
    let mut counts = [0.0; MAX_VOTERS];
    let mut left = 0.0;
    for column in columns {
        if !column.members.meets(down) {
            left += column.now;
            for voter in column.members.members().as_slice() {
                counts[usize::from(*voter) % MAX_VOTERS] += column.now;
            }
        }
    }
    (counts, left)
}

/// Begins a step: nothing has been paid yet.
pub(crate) fn clear(columns: &mut [Column]) {
    for column in columns.iter_mut() {
        column.last = 0.0;
    }
}

/// Has the quorums that are left pay for each member, and save an amount.
pub(crate) fn pay(columns: &mut [Column], down: &QSet, prices: &Cells, saved: f64) {
    for column in columns.iter_mut() {
        if !column.members.meets(down) {
            let mut paid = -saved;
            for voter in column.members.members().as_slice() {
                paid += prices[usize::from(*voter) % MAX_VOTERS];
            }
            column.last += paid;
        }
    }
}

/// Ends a step: adds what was paid to the sums.
pub(crate) fn add_up(columns: &mut [Column]) {
    for column in columns.iter_mut() {
        column.sum += column.last;
    }
}

/// Returns how much each quorum was used, with a part of other shares mixed in.
pub(crate) fn mixed_shares(
    alloc: Global,
    columns: &[Column],
    others: &[f64],
    part: f64,
) -> Result<Vec<f64>, AllocError> {
    let mut total = 0.0;
    for column in columns {
        total += column.all;
    }
    let mut shares = Vec::with_capacity(alloc, columns.len())?;
    for (place, column) in columns.iter().enumerate() {
        let other = match others.get(place) {
            Some(share) => *share,
            None => 0.0,
        };
        shares.push((1.0 - part) * column.all / total + part * other)?;
    }
    Ok(shares)
}
