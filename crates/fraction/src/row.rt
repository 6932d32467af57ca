//! One row of a table.
ghost use Rattle.std.specs.Prelude.{◌≡◌, ◌≢◌, ◌↔◌, ◌<◌, ◌≤◌, ◌*◌, ◌^◌, ℕ, ℤ, pos, ◌*ℤ◌, length, slice_index_or, unsigned_abs, IsTrue, IsOk, IfOk, IfErr};
ghost use Rattle.std.specs.List.{All};
ghost use Rattle.fraction.specs.Tables.{sum_in, SumFits};
ghost use Rattle.fraction.specs.Fractions.{Fits};
ghost use Rattle.std.specs.Int.{◌∣◌};
ghost use Rattle.fraction.specs.Rows.{entry_of, IsSmall, CombineFits, combine_entry, EliminateFits, IsEliminated, EachFits, IsDivisorOf, IsSummedRow};

use crate::checked::{difference, product, sum};
use crate::fault::FracFault;
use crate::signed::{quotient, signed};
use divisor::wide_gcd;

/// Products of two numbers of at most this absolute value fit, and so do differences of two such
/// products.
const SMALL: i128 = 1 << 62;

/// Returns the entry in a column.
pub(crate) fn entry(row: &[i128], column: usize) -> i128
    requires { column < length row.now }
    ensures { result ≡ entry_of row.now column }
{
    row[column]
}

/// Returns whether a number is at most `SMALL` in absolute value.
pub(crate) fn is_small_number(number: i128) -> bool
    ensures { IsTrue result → unsigned_abs number ≤ 2 ^ 62 }
{
    number <= SMALL && number >= -SMALL
}

/// Returns whether each entry is at most `SMALL` in absolute value.
pub(crate) fn is_small(row: &[i128]) -> bool
    ensures { IsTrue result → IsSmall row.now }
{
    for entry in row {
        if *entry > SMALL || *entry < -SMALL {
            return false;
        }
    }
    true
}

/// Tests that each entry times a factor fits.
pub(crate) fn test_scale(row: &[i128], factor: i128) -> Result<(), FracFault>
    ensures fits { IsOk result ↔ EachFits row.now factor }
    ensures overflow { IfErr result (λ e. e ≡ FracFault.Overflow) }
{
    for entry in row {
        product(*entry, factor)?;
    }
    Ok(())
}

/// Tests that the numbers fit that `combine` computes.
pub(crate) fn test_combine(
    row: &[i128],
    scale: i128,
    pivot_row: &[i128],
    taken: i128,
) -> Result<(), FracFault>
    requires { length row.now ≡ length pivot_row.now }
    ensures fits { IsOk result ↔ CombineFits row.now scale pivot_row.now taken }
    ensures overflow { IfErr result (λ e. e ≡ FracFault.Overflow) }
{
    for (j, entry) in row.iter().enumerate() {
        difference(product(*entry, scale)?, product(taken, pivot_row[j])?)?;
    }
    Ok(())
}

/// Multiplies each entry by a factor.
pub(crate) fn scale(row: &mut [i128], factor: i128)
    requires { EachFits row.old factor }
    ensures { (j : ℕ) → j < length row.old
        → slice_index_or row.new j (pos 0) ≡ slice_index_or row.old j (pos 0) *ℤ factor }
{
    for entry in row.iter_mut() {
        *entry = *entry * factor;
    }
}

/// Subtracts `taken` times the pivot's row from `scale` times this row.
pub(crate) fn combine(row: &mut [i128], scale: i128, pivot_row: &[i128], taken: i128)
    requires lengths { length row.old ≡ length pivot_row.now }
    requires fits { CombineFits row.old scale pivot_row.now taken }
    ensures { (j : ℕ) → j < length row.old
        → slice_index_or row.new j (pos 0) ≡ combine_entry row.old scale pivot_row.now taken j }
{
    for (j, entry) in row.iter_mut().enumerate() {
        *entry = *entry * scale - taken * pivot_row[j];
    }
}

/// Tests that the numbers fit that `eliminate` computes.
pub(crate) fn test_eliminate(
    row: &[i128],
    scale: i128,
    pivot_row: &[i128],
    column: usize,
) -> Result<(), FracFault>
    requires lengths { length row.now ≡ length pivot_row.now }
    requires column { column < length row.now }
    ensures fits { IsOk result ↔ EliminateFits row.now scale pivot_row.now column }
    ensures overflow { IfErr result (λ e. e ≡ FracFault.Overflow) }
{
    let taken = row[column];
    test_combine(row, scale, pivot_row, taken)
}

/// Subtracts the pivot's row, times this row's entry in the column, from `scale` times this row.
pub(crate) fn eliminate(row: &mut [i128], scale: i128, pivot_row: &[i128], column: usize)
    requires lengths { length row.old ≡ length pivot_row.now }
    requires column { column < length row.old }
    requires fits { EliminateFits row.old scale pivot_row.now column }
    ensures { IsEliminated row.old row.new scale pivot_row.now column }
{
    let taken = row[column];
    combine(row, scale, pivot_row, taken);
}

/// Returns the greatest common divisor of a number and the entries.
pub(crate) fn divisor_of(row: &[i128], start: u128) -> u128
    ensures { IsDivisorOf start row.now result }
{
    let mut common = start;
    for entry in row {
        if common == 1 {
            return 1;
        }
        common = wide_gcd(entry.unsigned_abs(), common);
    }
    common
}

/// Divides each entry by a number that divides it.
pub(crate) fn divide(row: &mut [i128], divisor: u128)
    requires some { divisor ≢ 0 }
    requires fits { (j : ℕ) → j < length row.old → Fits (slice_index_or row.old j (pos 0)) }
    requires divides { (j : ℕ) → j < length row.old → divisor ∣ unsigned_abs (slice_index_or row.old j (pos 0)) }
    ensures { (j : ℕ) → j < length row.old
        → slice_index_or row.new j (pos 0) *ℤ pos divisor ≡ slice_index_or row.old j (pos 0) }
{
    for entry in row.iter_mut() {
        *entry = signed(*entry >= 0, quotient(entry.unsigned_abs(), divisor));
    }
}

/// Returns the sum of the entries in some columns.
pub(crate) fn sum_of(row: &[i128], columns: &[usize]) -> Result<i128, FracFault>
    requires { All (λ j. j < length row.now) columns.now }
    ensures value { IfOk result (λ s. s ≡ sum_in row.now columns.now) }
    ensures fits { IsOk result ↔ SumFits row.now columns.now }
    ensures overflow { IfErr result (λ e. e ≡ FracFault.Overflow) }
{
    let mut total = 0;
    for column in columns {
        total = sum(total, row[*column])?;
    }
    Ok(total)
}

/// Writes the sum of the entries in some columns into one column.
pub(crate) fn put_sum(row: &mut [i128], columns: &[usize], into: usize)
    requires columns { All (λ j. j < length row.old) columns.now }
    requires into { into < length row.old }
    requires fits { SumFits row.old columns.now }
    ensures { IsSummedRow columns.now into row.old row.new }
{
    if let Ok(total) = sum_of(row, columns) {
        row[into] = total;
    }
}
