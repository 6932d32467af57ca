//! How long a client waits at most until it is inside, for a page of `qlock-show`.
//!
//! [`waiting_page`] writes the bound that `progress` proves, in fair rounds and in seconds, beside the
//! longest wait that tests have seen.
//!
//! # What is proved
//!
//! - The page is determined letter by letter by the numbers that were asked for ([`waiting_page`]).
//!
//! The numbers of rounds on it are enough, as `progress` proves (`rounds_are_enough`,
//! `patient_rounds_are_enough`).
//!
//! That the longest waits are those of tests is tested (`test_rounds`). How long a round takes is the
//! user's word.
//!
//! Depends on `world` for the two bounds.
//!
//! ```
//! let question = Waiting { clients: 5, withdrawals: None, round: Some(2) };
//! let page = waiting_page(alloc, &question)?; // at most 195 rounds, or 390 seconds
//! ```
#![tactic(auto)]

mod waiting;

pub use waiting::{Waiting, bound, live_bound, longest_wait, waiting_page};
