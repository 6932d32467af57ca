//! All rows of a table.
ghost use Rattle.std.specs.Prelude.{◌≡◌, ◌≢◌, ◌↔◌, ◌<◌, ℕ, ℤ, pos, ◌<ℤ◌, length, IsTrue, IsOk, IfErr};
ghost use Rattle.fraction.specs.Fractions.{Fits};
ghost use Rattle.fraction.specs.Tables.{IsTable, IsPlace, IsPivoted, PivotFits, entry_at};
ghost use Rattle.fraction.specs.Rows.{lists_of, table_of, row_at, entry_of, IsSmall, AllEliminateFit, IsEliminated, EachRow, DividesAll, IsDivided, IsDivisorOfAll, IsLevelWith, OthersFit, IsUnreduced, IsLowest, HaveColumn, AllSumsFit, IsSummedRow};
ghost use Rattle.std.specs.List.{All};

use crate::checked::product;
use crate::fault::FracFault;
use crate::row;
use crate::signed::{quotient, signed};

/// Returns a row by its number.
pub(crate) fn row_of(rows: &[Vec<i128>], row: usize) -> &[i128]
    requires { row < length rows.now }
    ensures { result.now ≡ row_at (lists_of rows.now) row }
{
    rows[row].as_slice()
}

/// Returns whether each entry of each row is small.
pub(crate) fn are_small(rows: &[Vec<i128>]) -> bool
    ensures { IsTrue result → (i : ℕ) → i < length (lists_of rows.now) → IsSmall (row_at (lists_of rows.now) i) }
{
    for i in 0..rows.len() {
        if !row::is_small(row_of(rows, i)) {
            return false;
        }
    }
    true
}

/// Subtracts the pivot's row, times the row's entry in the column, from `scale` times each row.
fn eliminate_each(rows: &mut [Vec<i128>], scale: i128, pivot_row: &[i128], column: usize)
    requires { AllEliminateFit (lists_of rows.old) scale pivot_row.now column }
    ensures { EachRow (λ old new. IsEliminated old new scale pivot_row.now column)
        (lists_of rows.old) (lists_of rows.new) }
{
    for row in rows.iter_mut() {
        row::eliminate(row, scale, pivot_row, column);
    }
}

/// Tests that the numbers fit that a pivot computes for all rows except its own.
fn test_others(rows: &[Vec<i128>], scale: i128, row: usize, column: usize) -> Result<(), FracFault>
    requires row { row < length rows.now }
    requires level { IsLevelWith (lists_of rows.now) row }
    requires column { column < length (row_at (lists_of rows.now) row) }
    ensures fits { IsOk result ↔ OthersFit (lists_of rows.now) scale row column }
    ensures overflow { IfErr result (λ e. e ≡ FracFault.Overflow) }
{
    for i in 0..rows.len() {
        if i != row {
            row::test_eliminate(row_of(rows, i), scale, row_of(rows, row), column)?;
        }
    }
    Ok(())
}

/// Tests that the numbers fit that the pivot at a place computes.
pub(crate) fn test_pivot(
    rows: &[Vec<i128>],
    den: i128,
    row: usize,
    column: usize,
) -> Result<(), FracFault>
    requires row { row < length rows.now }
    requires level { IsLevelWith (lists_of rows.now) row }
    requires column { column < length (row_at (lists_of rows.now) row) }
    ensures fits { IsOk result ↔ PivotFits (table_of rows.now den) row column }
    ensures overflow { IfErr result (λ e. e ≡ FracFault.Overflow) }
{
    if row::is_small_number(den) && are_small(rows) {
        return Ok(());
    }
    let pivot_row = row_of(rows, row);
    let entry = row::entry(pivot_row, column);
    product(den, entry)?;
    row::test_scale(pivot_row, den)?;
    test_others(rows, entry, row, column)
}

/// Computes the entries of the pivot at a place, before they are divided.
fn pivot(rows: &mut [Vec<i128>], den: i128, row: usize, column: usize)
    requires row { row < length rows.old }
    requires level { IsLevelWith (lists_of rows.old) row }
    requires column { column < length (row_at (lists_of rows.old) row) }
    requires fits { PivotFits (table_of rows.old den) row column }
    ensures { IsUnreduced (table_of rows.old den) (lists_of rows.new) row column }
{
    let (above, rest) = rows.split_at_mut(row);
    let (own, below) = rest.split_at_mut(1);
    let pivot_row = &mut own[0];
    let entry = row::entry(pivot_row, column);
    eliminate_each(above, entry, pivot_row, column);
    eliminate_each(below, entry, pivot_row, column);
    row::scale(pivot_row, den);
}

/// Divides the entries and the denominator by the greatest common divisor of them all. Returns the
/// new denominator.
fn reduce(rows: &mut [Vec<i128>], den: i128) -> i128
    requires positive { pos 0 <ℤ den }
    requires den_fits { Fits den }
    requires fits { (i j : ℕ) → i < length rows.old → j < length (row_at (lists_of rows.old) i)
        → Fits (entry_of (row_at (lists_of rows.old) i) j) }
    ensures { IsLowest (lists_of rows.old) (lists_of rows.new) den result }
{
    let size = den.unsigned_abs();
    let common = divisor_of(rows, size);
    divide(rows, common);
    signed(true, quotient(size, common))
}

/// Returns the greatest common divisor of a number and all entries.
fn divisor_of(rows: &[Vec<i128>], start: u128) -> u128
    ensures { IsDivisorOfAll start (lists_of rows.now) result }
{
    let mut common = start;
    for i in 0..rows.len() {
        common = row::divisor_of(row_of(rows, i), common);
    }
    common
}

/// Divides each entry by a number that divides it.
fn divide(rows: &mut [Vec<i128>], divisor: u128)
    requires some { divisor ≢ 0 }
    requires divides { DividesAll divisor (lists_of rows.old) }
    ensures { EachRow (IsDivided divisor) (lists_of rows.old) (lists_of rows.new) }
{
    for row in rows.iter_mut() {
        row::divide(row, divisor);
    }
}

/// Makes the pivot at a place, in lowest terms. Returns the new denominator.
pub(crate) fn solve(rows: &mut [Vec<i128>], den: i128, row: usize, column: usize) -> i128
    requires table { IsTable (table_of rows.old den) }
    requires place { IsPlace (table_of rows.old den) row column }
    requires positive { pos 0 <ℤ entry_at (table_of rows.old den) row column }
    requires fits { PivotFits (table_of rows.old den) row column }
    ensures value { IsPivoted (table_of rows.old den) (table_of rows.new result) row column }
    ensures table { IsTable (table_of rows.new result) }
{
    let new_den = den * row::entry(row_of(rows, row), column);
    pivot(rows, den, row, column);
    reduce(rows, new_den)
}

/// Tests that the sums of the entries in some columns fit.
pub(crate) fn test_sums(rows: &[Vec<i128>], columns: &[usize]) -> Result<(), FracFault>
    requires { All (HaveColumn (lists_of rows.now)) columns.now }
    ensures fits { IsOk result ↔ AllSumsFit (lists_of rows.now) columns.now }
    ensures overflow { IfErr result (λ e. e ≡ FracFault.Overflow) }
{
    for i in 0..rows.len() {
        row::sum_of(row_of(rows, i), columns)?;
    }
    Ok(())
}

/// Writes the sums of the entries in some columns into one column.
pub(crate) fn put_sums(rows: &mut [Vec<i128>], columns: &[usize], into: usize)
    requires columns { All (HaveColumn (lists_of rows.old)) columns.now }
    requires into { HaveColumn (lists_of rows.old) into }
    requires fits { AllSumsFit (lists_of rows.old) columns.now }
    ensures { EachRow (IsSummedRow columns.now into) (lists_of rows.old) (lists_of rows.new) }
{
    for row in rows.iter_mut() {
        row::put_sum(row, columns, into);
    }
}
