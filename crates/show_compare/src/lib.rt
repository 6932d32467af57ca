//! Coteries side by side, for whoever decides between them.
//!
//! [`compare_page`] writes the figures of several coteries in a table: how many voters and quorums there
//! are, how many members the quorums have, how many voters may fail, the load, the worst load when one
//! voter is down, and the load of what is left when a group of voters fails, such as a rack.
//!
//! # What is proved
//!
//! The tables are those of the definition in `specs/Compare.antt`. The first has a row for each coterie, in
//! their order: its name and its figures, as `show_figures` has them. The second has a row for each group of
//! a coterie whose losses are shown, and what its failure leaves of each coterie. What the legend says is
//! only tested.
//!
//! Depends on `show_figures` and `losses` for figures, on `show_tables` for tables, and on `coterie_file`
//! for names.
//!
//! ```
//! let page = compare_page(alloc, &candidates)?;     // coterie  voters  quorums  ..
//! ```
#![tactic(auto)]

mod entries;
mod figures;
mod groups;
mod legend;
mod page;

pub use entries::{Candidate, Entry, entries_of};
pub use page::compare_page;
