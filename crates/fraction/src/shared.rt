//! Tables of numbers over one denominator.
ghost use Rattle.std.specs.Prelude.{◌≡◌, ◌↔◌, ◌<◌, pos, ◌<ℤ◌, length, map, IsOk, IfOk, OnOk, OnErr, IfErr};
ghost use Rattle.std.specs.List.{All};
ghost use Rattle.fraction.specs.Fractions.{IsRatio, IsReduced};
ghost use Rattle.fraction.specs.Tables.{IsTable, IsPlace, IsColumn, row_of, entry_at, sum_in, SumFits, IsPivoted, PivotFits, IsSummed, SumsFit};

use crate::fault::FracFault;
use crate::frac::{Frac, reduced};
use crate::{row, rows};
use std::marker::Model;

/// A table of numbers over one positive denominator: the value at a place is the whole number there
/// over the denominator. All rows have one length, and each number is at most 2^127 - 1 in absolute
/// value. Contracts see the rows and the denominator.
///
/// No call allocates.
#[derive(Drop)]
pub struct Shared {
    rows: Vec<Vec<i128>>,
    den: i128,
}

impl Model for Shared {
    ghost use Rattle.std.specs.Prelude.{map};
    ghost use Rattle.fraction.specs.Tables.{Table, IsTable};

    ghost Value = { Table };

    ghost view = { λ a. record { rows = map (λ row. row.items) a.rows.items; den = a.den } };

    ghost invariant = { λ a. IsTable (record { rows = map (λ row. row.items) a.rows.items; den = a.den }) };
}

impl Shared {
    /// Returns the table of these rows over a denominator. Keeps the rows as they are.
    pub fn of(rows: Vec<Vec<i128>>, den: i128) -> Shared
        requires { IsTable (record { rows = map (λ row. row.items) rows.items; den = den }) }
        ensures rows { result.rows ≡ map (λ row. row.items) rows.items }
        ensures den { result.den ≡ den }
    {
        Shared { rows, den }
    }

    /// Returns the denominator.
    pub fn den(&self) -> i128
        ensures value { result ≡ self.now.den }
        ensures table { IsTable self.now }
    {
        self.den
    }

    /// Returns the entry at a place: the value there, times the denominator.
    pub fn entry(&self, row: usize, column: usize) -> i128
        requires { IsPlace self.now row column }
        ensures value { result ≡ entry_at self.now row column }
        ensures table { IsTable self.now }
    {
        row::entry(rows::row_of(&self.rows, row), column)
    }

    /// Returns the value at a place, in lowest terms.
    pub fn value(&self, row: usize, column: usize) -> Frac
        requires { IsPlace self.now row column }
        ensures value { IsRatio (entry_at self.now row column) self.now.den result }
        ensures reduced { IsReduced result }
    {
        reduced(self.entry(row, column), self.den)
    }

    /// Returns the sum of a row's entries in some columns. A column may be listed more than once.
    ///
    /// Fails with `Overflow` if and only if the sum, or a partial sum in the columns' order, does
    /// not fit.
    pub fn sum(&self, row: usize, columns: &[usize]) -> Result<i128, FracFault>
        requires row { row < length self.now.rows }
        requires columns { All (λ j. j < length (row_of self.now row)) columns.now }
        ensures value { IfOk result (λ s. s ≡ sum_in (row_of self.now row) columns.now) }
        ensures fits { IsOk result ↔ SumFits (row_of self.now row) columns.now }
        ensures overflow { IfErr result (λ e. e ≡ FracFault.Overflow) }
    {
        row::sum_of(rows::row_of(&self.rows, row), columns)
    }

    /// Solves a row for a column. It divides the row by its value there. From each other row it
    /// subtracts the new row times the other row's value in the column.
    ///
    /// With P the entry at the place, the denominator becomes `den * P`. An entry e of the row
    /// becomes `e * den`. An entry e of another row becomes `e * P - f * g`, where f is its row's
    /// entry in the column and g is the solved row's entry in e's column. All of these are then
    /// divided by their greatest common divisor.
    ///
    /// Fails with `Overflow` if and only if one of these products or differences does not fit. The
    /// table is then as it was.
    pub fn pivot(&mut self, row: usize, column: usize) -> Result<(), FracFault>
        requires place { IsPlace self.old row column }
        requires positive { pos 0 <ℤ entry_at self.old row column }
        ensures value { OnOk result (IsPivoted self.old self.new row column) }
        ensures same { OnErr result (self.new ≡ self.old) }
        ensures fits { IsOk result ↔ PivotFits self.old row column }
        ensures overflow { IfErr result (λ e. e ≡ FracFault.Overflow) }
    {
        rows::test_pivot(&self.rows, self.den, row, column)?;
        self.den = rows::solve(&mut self.rows, self.den, row, column);
        Ok(())
    }

    /// Writes into one column the sum of each row's entries in some columns. A column may be listed
    /// more than once.
    ///
    /// Fails with `Overflow` if and only if a sum, or a partial sum in the columns' order, does not
    /// fit. The table is then as it was.
    pub fn sum_columns(&mut self, columns: &[usize], into: usize) -> Result<(), FracFault>
        requires columns { All (IsColumn self.old) columns.now }
        requires into { IsColumn self.old into }
        ensures value { OnOk result (IsSummed self.old self.new columns.now into) }
        ensures same { OnErr result (self.new ≡ self.old) }
        ensures fits { IsOk result ↔ SumsFit self.old columns.now }
        ensures overflow { IfErr result (λ e. e ≡ FracFault.Overflow) }
    {
        rows::test_sums(&self.rows, columns)?;
        rows::put_sums(&mut self.rows, columns, into);
        Ok(())
    }
}
