//! Tests of stories, of small crates of words and texts, and of the line of every fault, through public calls.
//! This crate has nothing but tests.
//!
//! - `faults` has the line of every fault, and so depends on every crate that has faults.
//! - `played` plays stories with crashes, with voters and clients that come back without their states, and
//!   with grants that are let go and a guard that is shown passes.
//! - `words` has the words of the command line, and which of them name files.
//! - `explanations` has that each fault is explained.
//! - `listened` has writers whose reader is gone.
//! - `places` finds lines, columns, marks and brackets.
//!
//! What contracts determine is not tested again, except by worked examples of the definitions.
#![tactic(auto)]

#[cfg(test)]
mod explanations;
#[cfg(test)]
mod faults;
#[cfg(test)]
mod listened;
#[cfg(test)]
mod places;
#[cfg(test)]
mod played;
#[cfg(test)]
mod words;
