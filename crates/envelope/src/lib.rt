//! What a lock service writes around the lines of its locks: the header of a message, how a message is cut into
//! lines, and what voters say of a lock.
//!
//! A message is a header line, and lines of locks or of control behind it. The header says who sends it:
//!
//! | Sender | Line |
//! |---|---|
//! | a session of a client | `qlock2 CLUSTER COTERIE c NUMBER EPOCH RESERVED SESSION SEQ` |
//! | a voter | `qlock2 CLUSTER COTERIE v NUMBER RUN START IDENTITY LAPSES` |
//! | an operator | `qlock2 CLUSTER COTERIE o QUESTION` |
//!
//! Behind these there is ` level=LEVEL` if the level is not 0, and then any number of words KEY=VALUE, which
//! a reader ignores: a key is not empty, and not `level`. CLUSTER, COTERIE and the name are 1 to 64 bytes of A-Z a-z 0-9 _ -. The line has at most
//! 512 bytes, without its newline.
//!
//! Each line of a message is a lock's name or the dot of control, one space, and the rest of the line. A lock's name is
//! 1 to 64 bytes of A-Z a-z 0-9 _ - . : with no dot first.
//!
//! A line of control is a word and what is behind it. [`LockSays`] is what voters say of one lock, with its name and
//! decimal numbers behind the word. `session_lines` has the lines of control with numbers only.
//!
//! There is one space between two words. A number has no sign and no leading zero, and is below 2^64. No call
//! takes memory.
//!
//! # What is proved
//!
//! - [`read_header`] reads a header if and only if the message begins with one, and then that one. A message
//!   has one header ([`a_message_has_one_header`]).
//! - [`header_line`] is the header's line, which is read back ([`headers_are_read_back`]) and has at most 297
//!   bytes ([`headers_fit`]).
//! - The names of a header are where [`name_at`] and the lengths of the others say ([`names_have_places`]), and so are the
//!   parts of a line ([`lines_have_places`]).
//! - [`read_lock_says`] reads a line if and only if it is what a voter says of a lock, and then that.
//!   [`lock_says_line`] is this line, as it is in a message.
//! - [`first_line`] cuts the first line off a text if and only if the text begins with one, and then that one. A
//!   text has one first line ([`a_text_has_one_first_line`]), and what is written is cut off ([`lines_are_cut_off`]).
//!
//! ```
//! let found = read_header(b"qlock2 prod 0a1b o question level=1\nstatus\n")?;
//! let line = header_line(&found.header); // needs `found.header.has_line()`, as each header that was read
//! ```
//!
//! Depends on `line_words` and `texts`. `blocks` depends on it.
#![tactic(auto)]

mod header;
mod laws;
mod lock_lines;
mod locks;
mod names;
mod places;
mod reading;
mod words;
mod writing;

pub use header::{Header, Sender};
pub use laws::{
    a_message_has_one_header, a_text_has_one_first_line, headers_are_read_back, headers_fit,
    lines_are_cut_off, lines_have_places, names_have_places,
};
pub use line_words::LINE_ROOM;
pub use lock_lines::{first_line, lock_says_line, read_lock_says};
pub use locks::{LockSays, is_lock_name};
pub use places::name_at;
pub use reading::{Envelope, MOST_HEADER, read_header};
pub use writing::header_line;
