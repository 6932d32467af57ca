//! The row of one client number at one voter: which session has the number, and under which stamps it may
//! ask.
//!
//! A [`SessionRow`] is what the laws of `sessions` call a row, and each call is a step of these laws, with
//! bounds (`specs/Calls.antt`): [`SessionRow::claim`], [`SessionRow::reserve`], [`SessionRow::close`],
//! [`SessionRow::take_back`], [`SessionRow::evict`], [`SessionRow::drop_to`] and [`SessionRow::learn`]. [`SessionRow::takes`] says
//! which REQUESTs the voter takes. Clocks are the caller's: it says whether a session was silent.
//!
//! A voter whose row changes by these calls takes the REQUESTs of a stamp from one session, under one epoch, but for
//! those that it forgot in a crash ([`rows_own_stamps`]).
//!
//! A session is a number of 128 bits, a hash of its name. A row is saved as six numbers
//! ([`SessionRow::save`]), and restored as it was. No call takes memory.
//!
//! Depends on `sessions` and `numbers`.
#![tactic(auto)]

mod claim;
mod fault;
mod laws;
mod row;
mod saved;

pub use claim::{Bounds, Claim, Heard};
pub use fault::RowFault;
pub use laws::rows_own_stamps;
pub use row::SessionRow;
pub use saved::{SAVED_WORDS, joined};
