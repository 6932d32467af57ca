//! The tableau of the simplex method, in floating point.
ghost use Rattle.std.specs.Prelude.{◌≡◌, ◌+◌, ◌<◌, ◌≤◌, length, vec_len, IfOk, IfSome};
ghost use Rattle.std.specs.List.{All};
ghost use Rattle.numbers.specs.Bounds.{max_quorums, max_voters};
ghost use Rattle.quorum_set.specs.Capacities.{AreCapacities, IsCapacity};

use numbers::MAX_VOTERS;
use quorum_set::{Coterie, QSet};
use std::alloc::{AllocError, Global};

/// The most pivots that are made.
const PIVOTS: u32 = 10_000;

/// The column of the right sides. Before it there is a column for the slack of each voter.
const RIGHT: usize = MAX_VOTERS;

/// By which part of a capacity each voter's is taken as greater than that of the voter before. So
/// few rows limit a column equally, and the method does not turn in a circle.
const TILT: f64 = 0.0000001;

/// What is not above this is taken for a 0 that was rounded.
const SMALLEST: f64 = 0.000000001;

/// The numbers of a row: one for each column.
type Cells = [f64; MAX_VOTERS + 1];

/// The row of a voter. It says that the quorums with the voter, and its slack, sum to the right
/// side.
#[derive(Clone, Copy, Drop)]
struct Row {
    cells: Cells,
    /// The column that the row is solved for: a quorum's number, or behind the quorums a voter's
    /// slack.
    basis: usize,
}

/// The tableau after the last pivot.
#[derive(Drop)]
pub struct Tableau {
    rows: Vec<Row>,
    prices: Cells,
}

/// A column that may enter. It is a sum of the voters' slacks, each times a factor.
#[derive(Clone, Copy)]
struct Column {
    number: usize,
    factors: Cells,
    /// By how much a unit of it improves the solution.
    price: f64,
}

/// Returns the row of a voter before the first pivot. `basis` is the number of its slack.
fn start_row(voter: usize, basis: usize, capacity: u64) -> Row
    requires voter { voter < max_voters }
    requires capacity { IsCapacity capacity }
{
    let mut cells = [0.0; MAX_VOTERS + 1];
    cells[voter] = 1.0;
    cells[RIGHT] = f64::from(capacity as u32) * (1.0 + TILT * f64::from(voter as u32));
    Row { cells, basis }
}

/// Returns the rows before the first pivot: no quorum is used.
fn start_rows(alloc: Global, quorums: usize, capacities: &[u64]) -> Result<Vec<Row>, AllocError>
    requires voters { length capacities.now ≤ max_voters }
    requires quorums { quorums ≤ max_quorums }
    requires capacities { All IsCapacity capacities.now }
{
    let mut rows = Vec::with_capacity(alloc, capacities.len())?;
    for (voter, capacity) in capacities.iter().enumerate() {
        rows.push(start_row(voter, quorums + voter, *capacity))?;
    }
    Ok(rows)
}

/// Returns the sum of the members' cells.
fn sum_over(cells: &Cells, members: &QSet) -> f64 {
    let mut sum = 0.0;
    let mut rest = members.bits();
    for _ in 0..MAX_VOTERS {
        if rest == 0 {
            return sum;
        }
        sum += cells[rest.trailing_zeros() as usize % MAX_VOTERS];
        rest &= rest - 1;
    }
    sum
}

/// Divides the cells by a number.
fn divide(cells: &mut Cells, divisor: f64) {
    for cell in cells.iter_mut() {
        *cell /= divisor;
    }
}

/// Subtracts the other cells, times a number, from these.
fn subtract(cells: &mut Cells, times: f64, other: &Cells) {
    for column in 0..=RIGHT {
        cells[column] -= times * other[column];
    }
}

/// Returns the sum of the cells, each times a factor.
fn entry_of(cells: &Cells, factors: &Cells) -> f64 {
    let mut sum = 0.0;
    for voter in 0..MAX_VOTERS {
        sum += cells[voter] * factors[voter];
    }
    sum
}

/// Adds a quorum to the factors of a column.
fn add_members(factors: &mut Cells, members: &QSet) {
    for voter in 0..MAX_VOTERS {
        if members.has(voter as u8) {
            factors[voter] += 1.0;
        }
    }
}

/// Returns the column of a quorum, or of the slack of a voter whose number is behind those of the
/// quorums.
fn column_of(coterie: &Coterie, number: usize, price: f64) -> Column {
    let mut factors = [0.0; MAX_VOTERS + 1];
    if number < coterie.count() {
        add_members(&mut factors, coterie.quorum(number));
    } else if number - coterie.count() < MAX_VOTERS {
        factors[number - coterie.count()] = 1.0;
    }
    Column {
        number,
        factors,
        price,
    }
}

/// Returns the column of which a unit improves the solution most, if one does.
fn entering(coterie: &Coterie, prices: &Cells) -> Option<Column> {
    let mut best = None;
    let mut most = SMALLEST;
    for number in 0..coterie.count() {
        let price = 1.0 + sum_over(prices, coterie.quorum(number));
        if price > most {
            most = price;
            best = Some(number);
        }
    }
    for voter in 0..coterie.voters() {
        let price = prices[voter];
        if price > most {
            most = price;
            best = Some(coterie.count() + voter);
        }
    }
    match best {
        Some(number) => Some(column_of(coterie, number, most)),
        None => None,
    }
}

/// Returns the number of the row that limits a column most, if one does.
fn leaving(rows: &[Row], column: &Column) -> Option<usize>
    ensures { IfSome result (λ number. number < length rows.now) }
{
    let mut best = None;
    let mut least = 0.0;
    for (number, row) in rows.iter().enumerate() {
        let entry = entry_of(&row.cells, &column.factors);
        if entry > SMALLEST {
            let limit = row.cells[RIGHT] / entry;
            if best.is_none() || limit < least {
                best = Some(number);
                least = limit;
            }
        }
    }
    best
}

/// Solves a row for a column.
fn pivot(rows: &mut [Row], prices: &mut Cells, number: usize, column: &Column)
    requires { number < length rows.old }
{
    let mut solved = rows[number].cells;
    let entry = entry_of(&solved, &column.factors);
    divide(&mut solved, entry);
    for row in rows.iter_mut() {
        let times = entry_of(&row.cells, &column.factors);
        if times != 0.0 {
            subtract(&mut row.cells, times, &solved);
        }
    }
    subtract(prices, column.price, &solved);
    rows[number] = Row {
        cells: solved,
        basis: column.number,
    };
}

/// Pivots until no column improves the solution, at most 10,000 times.
fn improve(coterie: &Coterie, rows: &mut [Row], prices: &mut Cells) {
    for _ in 0..PIVOTS {
        let Some(column) = entering(coterie, prices) else {
            return;
        };
        let Some(number) = leaving(rows, &column) else {
            return;
        };
        pivot(rows, prices, number, &column);
    }
}

/// Returns the column of some quorums together. Its number is behind those of all others.
fn sum_column(coterie: &Coterie, quorums: &[usize]) -> Column {
    let mut factors = [0.0; MAX_VOTERS + 1];
    for number in quorums {
        if *number < coterie.count() {
            add_members(&mut factors, coterie.quorum(*number));
        }
    }
    Column {
        number: coterie.count() + coterie.voters(),
        factors,
        price: 1.0,
    }
}

/// Returns of these quorums, and of the slacks of these voters, the column of which a unit improves
/// the solution most, if one does.
fn entering_among(
    coterie: &Coterie,
    prices: &Cells,
    quorums: &[usize],
    voters: &QSet,
) -> Option<Column> {
    let mut best = None;
    let mut most = SMALLEST;
    for number in quorums {
        if *number < coterie.count() {
            let price = sum_over(prices, coterie.quorum(*number));
            if price > most {
                most = price;
                best = Some(*number);
            }
        }
    }
    for voter in 0..MAX_VOTERS {
        if voters.has(voter as u8) && prices[voter] > most {
            most = prices[voter];
            best = Some(coterie.count() + voter);
        }
    }
    match best {
        Some(number) => Some(column_of(coterie, number, most)),
        None => None,
    }
}

/// Makes the smallest use of some quorums as great as possible, while the solution stays as good as it
/// is. No other quorums may be used, and only the slacks of these voters.
fn even_out(coterie: &Coterie, rows: &mut [Row], quorums: &[usize], voters: &QSet) {
    let mut prices = [0.0; MAX_VOTERS + 1];
    let mut column = sum_column(coterie, quorums);
    for _ in 0..PIVOTS {
        let Some(number) = leaving(rows, &column) else {
            return;
        };
        pivot(rows, &mut prices, number, &column);
        let Some(next) = entering_among(coterie, &prices, quorums, voters) else {
            return;
        };
        column = next;
    }
}

/// Returns the tableau of a coterie and its voters' capacities when no column improves the solution,
/// or after 10,000 pivots.
pub fn search(alloc: Global, coterie: &Coterie, capacities: &[u64]) -> Result<Tableau, AllocError>
    requires { AreCapacities capacities.now coterie.now.voters }
{
    let mut rows = start_rows(alloc, coterie.count(), capacities)?;
    let mut prices = [0.0; MAX_VOTERS + 1];
    improve(coterie, &mut rows, &mut prices);
    Ok(Tableau { rows, prices })
}

impl Tableau {
    /// Returns how much the solution uses each quorum.
    pub fn quorum_shares(&self, alloc: Global, quorums: usize) -> Result<Vec<f64>, AllocError>
        ensures { IfOk result (λ v. vec_len v ≡ quorums) }
    {
        let mut shares = vec![in alloc; 0.0; quorums]?;
        for row in self.rows.as_slice() {
            if row.basis < shares.len() {
                shares[row.basis] = row.cells[RIGHT];
            }
        }
        Ok(shares)
    }

    /// Returns what a unit of each voter's capacity is worth to the solution.
    pub fn voter_shares(&self, alloc: Global, voters: usize) -> Result<Vec<f64>, AllocError>
        requires { voters ≤ max_voters }
        ensures { IfOk result (λ v. vec_len v ≡ voters) }
    {
        let mut shares = Vec::with_capacity(alloc, voters)?;
        for voter in 0..voters {
            shares.push(-self.prices[voter])?;
        }
        Ok(shares)
    }

    /// Returns the columns that the rows are solved for: quorums' numbers, and behind these the
    /// voters' slacks.
    pub(crate) fn basis(&self, alloc: Global) -> Result<Vec<usize>, AllocError> {
        let mut columns = Vec::with_capacity(alloc, self.rows.len())?;
        for row in self.rows.as_slice() {
            columns.push(row.basis)?;
        }
        Ok(columns)
    }

    /// Returns how much a solution of the same worth uses each of these quorums, where the smallest
    /// use is as great as possible. Only the voters of the set may have a slack.
    pub(crate) fn even_shares(
        mut self,
        alloc: Global,
        coterie: &Coterie,
        quorums: &[usize],
        voters: &QSet,
    ) -> Result<Vec<f64>, AllocError> {
        even_out(coterie, &mut self.rows, quorums, voters);
        let behind = coterie.count() + coterie.voters();
        let all = self.quorum_shares(alloc, behind + 1)?;
        let least = share_at(&all, behind);
        let mut shares = Vec::with_capacity(alloc, quorums.len())?;
        for number in quorums {
            shares.push(share_at(&all, *number) + least)?;
        }
        Ok(shares)
    }
}

/// Returns the share at a place, or 0 behind the end.
fn share_at(shares: &[f64], place: usize) -> f64 {
    match shares.get(place) {
        Some(share) => *share,
        None => 0.0,
    }
}
