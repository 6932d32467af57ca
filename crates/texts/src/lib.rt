//! Texts: words and numbers of a line, lines of any kind, and texts that are cut at a byte.
//!
//! - [`cut_at`] cuts a text at the first byte that is the mark.
//! - [`cut`] cuts a line behind its first word.
//! - [`number`] and [`field`] read numbers in decimal: without a sign or a leading zero,
//!   and below 2^64. Each number has one text.
//!
//! A line is a word and at most [`MOST_NUMBERS`] decimal numbers, one space between any two, a newline
//! at the end, one text for each value. A [`Line`] is a kind of line: it says which word and which
//! numbers each value has. A new kind takes one `impl`.
//!
//! - [`read_line`] reads the value of a line;
//! - [`next_line`] reads the line at the front of a text;
//! - [`first_lines`] reads all lines of one kind at the front of a text;
//! - [`push_field`] and [`push_number`] write the numbers of a line, and [`push_field_in_room`] does in a
//!   text of fixed room.
//!
//! Of the readers only [`first_lines`] allocates memory.
//!
//! # What is proved
//!
//! - A line is read if and only if it is the line of a value (`specs/Forms.antt`).
//! - A line has one value, lines end, and a text begins with one list of lines of a kind
//!   (`src/laws.rt`). These hold for each kind.
//!
//! The lemmas in `proofs/` are public: readers of texts use them.
//!
//! This crate depends on no other of the repository. The readers of plans, messages, scripts and
//! records depend on it.
#![tactic(auto)]

mod cuts;
mod laws;
mod line;
mod reading;
mod words;
mod writing;

pub use cuts::cut_at;
pub use laws::lines_are_read_in_one_way;
pub use line::Line;
pub use reading::{MOST_NUMBERS, first_lines, next_line, read_line};
pub use words::{cut, field, number};
pub use writing::{push_field, push_field_in_room, push_number};
