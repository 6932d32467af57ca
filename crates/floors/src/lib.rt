//! The floors of numbers that a voter dropped, as nobody uses them: laws alone.
//!
//! A voter keeps a row for each number of a client (`session_rows`). It may drop the rows of numbers that nobody has, and keep one *floor*
//! for all of them: a stamp, and an epoch for each number (`specs/Floors.antt`). The row of a number that is used again is one that begins
//! at the floor (`SessionRow::new`).
//!
//! # What is proved
//!
//! - A row that is dropped to a floor which may stand for it is the row that begins there ([`what_is_dropped_begins_at_its_floor`]). So a
//!   number that is dropped, forgotten and used again is the event `Drops` of `sessions` ([`to_forget_is_to_drop`]), and all laws of that
//!   crate hold over it, as `stamps_are_used_once`.
//! - Who has the number later has a later epoch, and begins above the floor ([`who_comes_later_is_above`]).
//! - To learn the floor of another voter is to learn its rows: what is known then is the floor above both
//!   ([`floors_are_learned_as_rows`]).
//!
//! Depends on `session_rows` and `sessions`.
#![tactic(auto)]

mod laws;

pub use laws::{
    floors_are_learned_as_rows, to_forget_is_to_drop, what_is_dropped_begins_at_its_floor,
    who_comes_later_is_above,
};
