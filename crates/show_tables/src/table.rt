//! Tables: columns, and rows of cells.
ghost use Rattle.std.specs.Prelude.{◌≡◌, IfOk, string_bytes};

use crate::cell::Cell;
use std::alloc::{AllocError, Global};

/// On which side of its column a cell is.
#[derive(Clone, Copy)]
pub enum Side {
    /// To the left.
    Left,
    /// To the right, as numbers are.
    Right,
}

/// A column of a table.
#[derive(Drop)]
pub struct Column {
    /// What is above its cells.
    pub title: String,
    /// On which side its cells are.
    pub side: Side,
    /// How wide it is at least.
    pub least: usize,
}

impl Column {
    /// Returns a column with this title, whose cells are to the left. Fails only if it runs out of memory.
    pub fn left(alloc: Global, title: &str) -> Result<Column, AllocError>
        ensures { IfOk result (λ column. string_bytes column.title ≡ title.now) }
    {
        Ok(Column {
            title: String::from_str(alloc, title)?,
            side: Side::Left,
            least: 0,
        })
    }

    /// Returns a column with this title, whose cells are to the right. It is at least this wide. Fails only
    /// if it runs out of memory.
    pub fn right(alloc: Global, title: &str, least: usize) -> Result<Column, AllocError>
        ensures { IfOk result (λ column. string_bytes column.title ≡ title.now) }
    {
        Ok(Column {
            title: String::from_str(alloc, title)?,
            side: Side::Right,
            least,
        })
    }
}

/// A table.
#[derive(Drop)]
pub struct Table {
    /// The columns, in order.
    pub columns: Vec<Column>,
    /// The rows, in order. A row has a cell for each column.
    pub rows: Vec<Vec<Cell>>,
}
