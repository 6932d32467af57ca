//! Coteries by their shapes, as texts that `qlock plan` reads.
//!
//! A planner who has three racks of three replicas, or replicas with 3, 2, 2, 1 and 1 votes, names
//! the shape and its sizes. [`coterie_text`] makes the coterie, gives its voters names and
//! capacities, and writes it with `coterie_file`. Of n voters in all, the best plan puts this load
//! on the busiest one:
//!
//! - Sets of one size: the size divided by n.
//! - Majorities of a majority of c centres of m voters each: (c / 2 + 1) * (m / 2 + 1), each quotient
//!   rounded down, divided by n.
//! - Weighted votes: it depends on the votes. They ask the fewest voters if these have the most.
//!
//! - Voters of racks and centres are called `a1`, `a2` and so on in the first one, `b1` and so on in
//!   the second.
//! - Other voters are called `v0`, `v1` and so on, as `qlock make` calls them.
//!
//! # What is proved
//!
//! What is written is the text of a coterie with the given capacities, so `read_coterie` reads it.
//! That it is the coterie of the shape is tested, by stored texts.
//!
//! ```
//! let text = coterie_text(alloc, &CoterieShape::Racks(3, 3), None)?; // two of three in two of three
//! coterie_text(alloc, &CoterieShape::Any(2, 4), None)                // Err: two pairs may be disjoint
//! ```
#![tactic(auto)]

mod fault;
mod named;
mod names;
mod shape;
mod shapes;
mod text;

pub use fault::ShapeFault;
pub use named::{shape_of, widened};
pub use shape::CoterieShape;
pub use text::coterie_text;
