//! Offices and clerks of one or two plans.
//!
//! A cluster may exchange its plan for a second one. So it has an office for each plan, and each of
//! its members a clerk for each. [`Clerks::draw`] draws a ticket of the plan in use, and
//! [`Clerks::exchange`] goes over to the second plan. Without a second plan the same calls serve one.
//!
//! Each contract says what the calls of `dealer` say of one office: a ticket has the quorum of its
//! plan's cycle and is above those that the clerk has of that plan. Offices that end have dealt the
//! tickets 0, 1, 2 and so on, each once.
//!
//! Depends on `dealer`, `certificate`, `quorum_set` and `numbers`. `members` depends on it.
#![tactic(auto)]

mod offices;

pub use offices::{Clerks, Offices, open_offices};
