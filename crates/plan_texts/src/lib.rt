//! Texts of plans, and of weights.
//!
//! A plan has one text, and a text that is read is that of the plan. So a plan can be kept in a file,
//! and sent, and whoever reads it has checked its certificate. Weights whose load may be above their
//! bound have a text of their own, which shows both.
//!
//! This crate depends on `certificate`, `quorum_set`, `texts` and `numbers`. The crates that read plans
//! from files, and the library for C, depend on it.
//!
//! ```text
//! // Any two of three voters, all capacities 1.
//! let text = write_plan(alloc, &plan)?;
//! let again = read_plan(alloc, &majority, &[1; 3], text.as_bytes())?;
//! let weights = read_weights(alloc, &majority, &[1; 3], text.as_bytes())?;
//! ```
#![tactic(auto)]

mod laws;
mod reading;
mod writing;

pub use laws::{lines_are_read_as_written, numbers_have_one_text, texts_end};
pub use reading::{read_plan, read_weights};
pub use writing::{write_plan, write_weights};
