//! Command lines of `qlock` on texts as input. Only tests use this crate.
//!
//! - `served.rt` runs a command line, and compares what it writes with the rows of a table: see
//!   [`first_wrong`].
//! - [`samples`] has coteries, plans, scripts and records that tests share.
//!
//! Depends on `qlock_cli`. `test_program` depends on it.
#![tactic(auto)]

pub mod samples;
mod served;

pub use served::{
    Row, answer, answer_at, command_of, coterie_of_letters, first_wrong, joined, serve,
};
