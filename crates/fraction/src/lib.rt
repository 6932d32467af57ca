//! Exact fractions of 128-bit numbers: a call returns the exact value in lowest terms, or a fault.
//!
//! Nothing is rounded and nothing wraps. If a number that a call computes on its way does not fit,
//! the call returns `Overflow`. The result itself may still fit.
//!
//! `Shared` is a table of numbers over one denominator, with the pivots of a simplex tableau. A
//! call that fails leaves it as it was.
//!
//! This crate depends on `divisor`. The simplex method keeps its tableau in a `Shared` from the first
//! pivot on that does not fit into 64 bits.
//!
//! ```text
//! let half = Frac::of(1, 2)?;
//! let third = Frac::of(2, 6)?;
//! assert_eq!(rt; half.add(third)?, Frac::of(5, 6)?);
//! assert_eq!(rt; half.compare(third)?, Ordering::Greater);
//! ```
#![tactic(auto)]

mod checked;
mod fault;
mod frac;
mod row;
mod rows;
mod shared;
mod signed;

pub use fault::FracFault;
pub use frac::Frac;
pub use shared::Shared;
