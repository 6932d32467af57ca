//! Words of a line, each with a space in front: reading them from the front of bytes, and writing them into a
//! room of fixed size.
//!
//! - [`word`] reads a word, [`id`] the number of a client or a voter, and [`is`] compares a word with a known one.
//!   `texts` reads numbers.
//! - [`push`], [`push_word`] and [`push_number`] append to a [`Room`], which has [`LINE_ROOM`] bytes.
//!
//! A number is in decimal, without a sign or a leading zero. No call takes memory.
//!
//! # What is proved
//!
//! - A word is read if and only if the bytes begin with a space, and then that word. The number of a client or a
//!   voter is read if and only if it is there and at most 63, and then that number.
//! - What is appended are exactly these bytes.
//!
//! The lemmas in `proofs/` are public: they say what a line of words lacks, and where a line of control ends.
//!
//! Depends on `texts`. `envelope` and `session_lines` depend on it.
#![tactic(auto)]

mod reading;
mod writing;

pub use reading::{id, is, word};
pub use writing::{LINE_ROOM, Room, push, push_number, push_word};
