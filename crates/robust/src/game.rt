//! The game of quorums against rows.

use crate::columns::{Column, add_up, choose, clear, counts_left, pay, restart};
use crate::rows::{Cells, Rows};

/// Sets how much each row weighs, and counts it.
fn weigh(rows: &mut [Rows], voters: usize, step: f64) {
    let mut greatest = f64::NEG_INFINITY;
    for one in rows.iter() {
        let own = one.greatest();
        if own > greatest {
            greatest = own;
        }
    }
    let mut total = 0.0;
    for one in rows.iter_mut() {
        total += one.weigh(greatest, voters);
    }
    for one in rows.iter_mut() {
        one.count(total, step);
    }
}

/// Notes for all rows by how much they are exceeded, and for all quorums what their rows weigh.
fn see(rows: &mut [Rows], columns: &mut [Column], units: &Cells, regret: f64) {
    clear(columns);
    for one in rows.iter_mut() {
        let (prices, saved) = one.prices(units, regret);
        pay(columns, &one.down, &prices, saved);
        let (counts, left) = counts_left(columns, &one.down);
        one.note(&counts, left, units, regret);
    }
    add_up(columns);
}

/// Plays so many steps from the beginning, for a regret that is wanted.
pub(crate) fn play(
    rows: &mut [Rows],
    columns: &mut [Column],
    units: &Cells,
    voters: usize,
    regret: f64,
    steps: u32,
) {
    for one in rows.iter_mut() {
        one.restart();
    }
    restart(columns);
    for step in 0..steps {
        let weight = f64::from(step) + 1.0;
        choose(columns, weight);
        weigh(rows, voters, weight);
        see(rows, columns, units, regret);
    }
}
