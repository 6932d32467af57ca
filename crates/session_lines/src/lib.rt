//! What sessions of clients and voters say to each other about sessions, in lines of control with numbers only.
//!
//! A line of control is a word and decimal numbers: [`ClientWord`] is what clients say, and [`VoterSays`]
//! what voters say. In a message it has a dot and a space in front. A line with a text, or with the name of a lock, is
//! none of these.
//!
//! There is one space between two words. A number has no sign and no leading zero, and is below 2^64. No call
//! takes memory.
//!
//! # What is proved
//!
//! - [`read_client_word`] and [`read_voter_says`] read a line if and only if it says something, and then
//!   that. [`client_word_line`] and [`voter_says_line`] are these lines, as they are in a message. There they
//!   end at the first newline ([`control_lines_are_cut`]).
//! - [`is_unknown`] says exactly whether a line begins with a word that clients do not say.
//!
//! ```
//! let word = read_client_word(b"claim 3 7 100")?;
//! let line = client_word_line(word); // `. claim 3 7 100` and a newline
//! ```
//!
//! Depends on `line_words` and `texts`. `blocks` depends on it.
#![tactic(auto)]

mod client_words;
mod control;
mod control_lines;
mod laws;
mod voter_words;

pub use client_words::{is_unknown, read_client_word};
pub use control::{ClientWord, Opened, VoterSays, VoterWord};
pub use control_lines::{client_word_line, voter_says_line};
pub use laws::control_lines_are_cut;
pub use line_words::LINE_ROOM;
pub use voter_words::read_voter_says;
