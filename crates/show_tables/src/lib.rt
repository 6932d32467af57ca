//! Tables of figures and names: what a cell shows, and how a table is written.
//!
//! A [`Table`] has columns, and rows of [`Cell`]s. A cell is a figure or a name, and has one text.
//!
//! - [`words_table`] writes a table for people, with its columns aligned.
//! - [`share`], [`tenths`] and [`parts_above`] round parts of a whole.
//!
//! # What is proved
//!
//! - The text of a cell is the stated one (`specs/Cells.antt`). How parts are rounded is defined in
//!   `specs/Shares.antt`.
//! - A table in words is its lines in order: one of the titles, and one for each row. A line is the texts of
//!   its cells in order, with at least two spaces between any two, and nothing but spaces
//!   (`specs/Words.antt`). So no figure is in another row or column, and none is left out.
//!
//! How many spaces there are is only tested.
//!
//! Depends on no other crate of the repository. Pages of words depend on it.
//!
//! ```
//! let table = Table { columns, rows };
//! words_table(alloc, &table)?;     // coterie   voters  quorums  ..
//! ```
#![tactic(auto)]

mod cell;
mod shares;
mod table;
mod words;

pub use cell::Cell;
pub use shares::{parts_above, share, tenths};
pub use table::{Column, Side, Table};
pub use words::words_table;
