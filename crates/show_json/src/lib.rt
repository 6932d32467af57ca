//! Pages for programs, as JSON: plans and other weights, dealt tickets, what coteries bear, and
//! comparisons.
//!
//! Each page is one object on one line, with a newline at the end. Keys are in `snake_case`. Numbers
//! are whole: a load is an object of a numerator and a denominator, in lowest terms. Quorums and
//! tickets are numbered from 0, and voters have their names.
//!
//! - [`weights_json`] has a plan, or other weights, and [`found_json`] weights that were found, and tickets
//!   by them.
//! - [`deal_json`] has dealt tickets with their quorums, how often each voter is used, and how even the
//!   even order is.
//! - [`resilience_json`] says how many voters may fail, and which groups of them.
//! - [`compare_json`] has the figures of coteries side by side.
//!
//! # What is proved
//!
//! The page of [`compare_json`] is the one of the definition in `specs/Compared.antt`, letter by letter: the
//! names of these coteries and their figures, as `show_figures` has them. How values become JSON is defined in
//! `specs/Values.antt`.
//!
//! The other pages are proved safe; what they say is only tested. The figures come from functions that pin
//! them: of `show_figures`, `show_failures`, `failures`, `certificate` and `even`.
//!
//! Depends on these, on `show_compare` for what to compare, and on `serde` and `serde_json` for JSON.
//!
//! ```
//! // Of the wheel with three rims:
//! weights_json(alloc, &named, plan.weights())?; // {"load":{"numerator":3,"denominator":5},"bound":..
//! ```
#![tactic(auto)]

mod compared;
mod dealt;
mod parts;
mod resilience;
mod values;
mod weights;

pub use compared::compare_json;
pub use dealt::deal_json;
pub use resilience::resilience_json;
pub use weights::{found_json, weights_json};
