//! Grids.
ghost use Rattle.std.specs.Prelude.{◌≡◌, ◌==◌, ◌&&◌, ◌*◌, ◌/◌, ◌%◌, ◌<◌, ◌≤◌, nat_lt, map, Err, IfErr, IfOk};
ghost use Rattle.numbers.specs.Bounds.{max_voters};
ghost use Rattle.numbers.specs.Sets.{set_where};
ghost use Rattle.construct.specs.Answers.{Gives};
ghost use Rattle.construct.specs.Grid.{row_with_column, grid_quorums, grid_at};

use crate::fault::ConstructFault;
use crate::set::coterie_of;
use numbers::MAX_VOTERS;
use quorum_set::{Coterie, QSet, set_where};
use std::alloc::{AllocError, Global};

/// Returns the voters of row i of a grid.
fn row(rows: u32, columns: u32, i: u32) -> QSet
    requires some { 0 < columns }
    requires few { rows * columns ≤ max_voters }
    ensures { result ≡ set_where (λ v. nat_lt v (rows * columns) && (v / columns == i)) }
{
    let voters = rows * columns;
    set_where(|v| u32::from(v) < voters && u32::from(v) / columns == i)
}

/// Returns the voters of column k of a grid.
fn column(rows: u32, columns: u32, k: u32) -> QSet
    requires some { 0 < columns }
    requires few { rows * columns ≤ max_voters }
    ensures { result ≡ set_where (λ v. nat_lt v (rows * columns) && (v % columns == k)) }
{
    let voters = rows * columns;
    set_where(|v| u32::from(v) < voters && u32::from(v) % columns == k)
}

/// Returns row i of a grid joined with its column k.
fn row_with_column(rows: u32, columns: u32, i: u32, k: u32) -> QSet
    requires some { 0 < columns }
    requires few { rows * columns ≤ max_voters }
    ensures { result ≡ row_with_column rows columns i k }
{
    row(rows, columns, i).join(&column(rows, columns, k))
}

/// Returns for each voter its row with its column.
fn quorums_of(alloc: Global, rows: u32, columns: u32) -> Result<Vec<QSet>, AllocError>
    requires some { 0 < columns }
    requires few { rows * columns ≤ max_voters }
    ensures { IfOk result (λ v. v.items ≡ grid_quorums rows columns) }
{
    (0..rows * columns)
        .map(|j| row_with_column(rows, columns, j / columns, j % columns))
        .collect(alloc)
}

/// Returns the grid of `rows` rows of `columns` voters (Maekawa, ACM TOCS 3(2), 1985).
///
/// Row i has the voters i * columns to (i + 1) * columns - 1, and quorum i * columns + k is row i
/// with column k. There are rows * columns quorums of rows + columns - 1 members each. Fails with
/// `BadSize` if `rows` or `columns` is below 2, and with `TooLarge` if there are more than 64
/// voters.
#[tactic(auto, using(crate::proofs::GridLemmas::grid_is_coterie))]
pub fn grid(alloc: Global, rows: u32, columns: u32) -> Result<Coterie, ConstructFault>
    ensures exact { Gives result (grid_at rows columns) }
    ensures sizes { IfErr (grid_at rows columns) (λ fault. result ≡ Err fault) }
{
    if rows < 2 || columns < 2 {
        return Err(ConstructFault::BadSize);
    }
    if u64::from(rows) * u64::from(columns) > MAX_VOTERS as u64 {
        return Err(ConstructFault::TooLarge);
    }
    let quorums = quorums_of(alloc, rows, columns)?;
    coterie_of((rows * columns) as usize, quorums)
}
