//! The tableau of the revised simplex method.
ghost use Rattle.std.specs.Prelude.{◌≡◌, ◌+◌, ◌<◌, ◌≤◌, ℕ, length, IfOk};
ghost use Rattle.std.specs.List.{All};
ghost use Rattle.numbers.specs.Bounds.{max_voters};
ghost use Rattle.fraction.specs.Tables.{row_of, entry_at};
ghost use Rattle.simplex.specs.Starts.{IsStartRow, AreStartRows};

use fraction::{FracFault, Shared};
use std::alloc::{AllocError, Global};

/// A row for each voter and one for the objective, over one denominator. The columns are a slack
/// for each voter, the right side, the unit, and the column that enters. A voter's row says that
/// the quorums with the voter, and its slack, sum to the right side. The objective's row has the
/// prices: by how much the sum of all quorums grows for each unit of a column.
///
/// The columns of the quorums are not stored. The unit is 1 in the objective's row and 0 in the
/// others, before each pivot and after it. So a quorum's column is the sum of its members' slacks
/// and of the unit.
#[derive(Drop)]
pub(crate) struct Tableau {
    voters: usize,
    cells: Shared,
    ghost few_voters: { voters ≤ max_voters },
    ghost rows: { length cells.rows ≡ voters + 1 },
    ghost columns: { (i : ℕ) → i < voters + 1 → length (row_of cells i) ≡ voters + 3 },
}

/// Returns an entry before the first pivot: no quorum is used, and each voter's slack is the voter's
/// capacity. The right side of the objective's row is 0.
fn start_entry(capacities: &[u64], row: usize, column: usize) -> i64
    requires { length capacities.now ≤ max_voters }
{
    let voters = capacities.len();
    if row == voters {
        return i64::from(column == voters + 1);
    }
    match capacities.get(row) {
        Some(capacity) if column == voters => capacity.cast_signed(),
        _ => i64::from(column == row),
    }
}

/// Returns a row before the first pivot.
fn start_row(alloc: Global, capacities: &[u64], row: usize) -> Result<Vec<i128>, AllocError>
    requires { length capacities.now ≤ max_voters }
    ensures { IfOk result (λ v. IsStartRow (length capacities.now + 3) v.items) }
{
    let mut entries = Vec::with_capacity(alloc, capacities.len() + 3)?;
    for column in 0..capacities.len() + 3 {
        entries.push(i128::from(start_entry(capacities, row, column)))?;
    }
    Ok(entries)
}

/// Returns the rows before the first pivot.
fn start_rows(alloc: Global, capacities: &[u64]) -> Result<Vec<Vec<i128>>, AllocError>
    requires { length capacities.now ≤ max_voters }
    ensures { IfOk result (λ v. AreStartRows (length capacities.now + 1) (length capacities.now + 3) v.items) }
{
    let mut rows = Vec::with_capacity(alloc, capacities.len() + 1)?;
    for row in 0..capacities.len() + 1 {
        rows.push(start_row(alloc, capacities, row)?)?;
    }
    Ok(rows)
}

impl Tableau {
    /// Returns the tableau before the first pivot, for voters of these capacities.
    pub(crate) fn of(alloc: Global, capacities: &[u64]) -> Result<Tableau, AllocError>
        requires { length capacities.now ≤ max_voters }
        ensures { IfOk result (λ t. t.voters ≡ length capacities.now) }
    {
        let rows = start_rows(alloc, capacities)?;
        Ok(Tableau {
            voters: capacities.len(),
            cells: Shared::of(rows, 1),
        })
    }

    /// Returns the number of voters.
    pub(crate) fn voters(&self) -> usize
        ensures value { result ≡ self.now.voters }
        ensures few { result ≤ max_voters }
    {
        self.voters
    }

    /// Returns the entry at a place: a whole number over the denominator.
    fn entry(&self, row: usize, column: usize) -> i128
        requires row { row ≤ self.now.voters }
        requires column { column < self.now.voters + 3 }
        ensures { result ≡ entry_at self.now.cells row column }
    {
        self.cells.entry(row, column)
    }

    /// Returns the right side of a row: a whole number over the denominator, as are all entries.
    pub(crate) fn right_side(&self, row: usize) -> i128
        requires { row ≤ self.now.voters }
    {
        self.entry(row, self.voters)
    }

    /// Returns a row's entry in the column that enters.
    pub(crate) fn entering(&self, row: usize) -> i128
        requires { row ≤ self.now.voters }
    {
        self.entry(row, self.voters + 2)
    }

    /// Returns the price of a voter's slack.
    pub(crate) fn slack_price(&self, voter: usize) -> i128
        requires { voter < self.now.voters }
    {
        self.entry(self.voters, voter)
    }

    /// Returns the price of the sum of some columns.
    pub(crate) fn price(&self, columns: &[usize]) -> Result<i128, FracFault>
        requires { All (λ j. j < self.now.voters + 3) columns.now }
    {
        self.cells.sum(self.voters, columns)
    }

    /// Makes the sum of some columns the column that enters.
    pub(crate) fn enter(&mut self, columns: &[usize]) -> Result<(), FracFault>
        requires { All (λ j. j < self.old.voters + 3) columns.now }
        ensures { self.new.voters ≡ self.old.voters }
    {
        self.cells.sum_columns(columns, self.voters + 2)
    }

    /// Solves a voter's row for the column that enters. Fails with `Overflow` if the row's entry
    /// there is not positive, or if a number does not fit.
    pub(crate) fn pivot(&mut self, row: usize) -> Result<(), FracFault>
        requires { row < self.old.voters }
        ensures { self.new.voters ≡ self.old.voters }
    {
        if self.entry(row, self.voters + 2) <= 0 {
            return Err(FracFault::Overflow);
        }
        self.cells.pivot(row, self.voters + 2)
    }
}
