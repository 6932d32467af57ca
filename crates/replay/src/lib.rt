//! Scripts of a world, and records of runs.
//!
//! A script is a text that says how many clients there are and what happens to them, step by step.
//! Its output says what comes of it, line by line. A script with its output is a story of the
//! voting lock that a person can read and a machine can repeat.
//!
//! A script has one line for the world, and then a line for each step:
//!
//! | Line | Step |
//! |---|---|
//! | `world CLIENTS LIMIT` | first: 1 to 64 clients; stamps and grants are 1 to LIMIT (1 to 2^40) |
//! | `ask C` | client C draws a ticket, and asks the quorum that it names |
//! | `deliver K` | message number K arrives, once more if it arrived before |
//! | `leave C` | client C leaves |
//! | `give-up C` | client C gives up its request |
//! | `remind-client C` | client C repeats what it asked for |
//! | `remind-voter V` | voter V repeats what it sent to the holder of its vote |
//!
//! C and V are at most 255, and K is below 2^64. Numbers are decimal, without a leading zero. One
//! space is between two words, and each line ends with a newline. Messages are numbered from 0 on,
//! in the order in which they are sent. A message that no line delivers is lost.
//!
//! These steps' lines are of the kind [`StepLine`]. [`Script`] and [`read_script`] are for any kind of
//! line: `stories` has one with more steps.
//!
//! [`run_script`] returns these lines:
//!
//! - `m NUMBER MESSAGE` for each message that a step sends (the crate `message` has the format of
//!   MESSAGE);
//! - `enter C` or `leave C` for a client that enters or leaves;
//! - `! ` and the fault for a step that is refused, which changes nothing.
//!
//! The record of a run by threads has a text too. [`write_record`] writes it, and [`read_record`]
//! reads it:
//!
//! | Line | Meaning |
//! |---|---|
//! | `quorum-record 1` | the first line |
//! | `draw CLIENT TICKET QUORUM` | zero or more: this client drew this ticket and got this quorum |
//! | `pass CLIENT NUMBER` | then zero or more: this client passed by this number |
//! | `register NUMBER` | the last line: the register at the end |
//!
//! CLIENT is at most 63, QUORUM at most 4095, and the others are below 2^64.
//!
//! [`check_record`] checks whether the record of a run by threads is sound: its tickets and its
//! passes have the numbers that a counter hands out, and each ticket names its quorum by the plan's
//! cycle.
//!
//! # What is proved
//!
//! - A text is read if and only if it is the text of a script. Otherwise the fault names its first
//!   bad line (`specs/Scripts.antt`).
//! - The output is that of the world's own steps, one after the other (`specs/Outputs.antt`). The
//!   world's proof says that at most one client is inside at a time. So whatever a script does, a
//!   `leave` line comes between any two `enter` lines.
//! - A record's text is read in the same way (`specs/RecordTexts.antt`).
//! - A record is accepted if and only if it is sound. Otherwise its first fault is returned
//!   (`specs/Records.antt`).
//!
//! This crate depends on:
//!
//! - `world` and `world_state`, whose steps it takes;
//! - `certificate` for the plan;
//! - `dealer` for the account of tickets;
//! - `run_outcome` for the record of a run;
//! - `texts` and `message` for the lines;
//! - `numbers` for counts and bounds.
//!
//! ```text
//! // One voter, one client.
//! let script = b"world 1 1000\nask 0\ndeliver 0\ndeliver 1\nleave 0\n";
//! let output = run_script(alloc, plan, script)?;
//! // m 0 request 0 0 1
//! // m 1 locked 0 0 1 1 1
//! // enter 0
//! // m 2 release 0 0 1
//! // leave 0
//! ```
#![tactic(auto)]

mod check;
mod fault;
mod laws;
mod output;
mod reading;
mod record_reading;
mod record_writing;
mod script;

pub use check::check_record;
pub use fault::ReplayFault;
pub use laws::{lines_end, records_are_read_in_one_way, texts_are_read_in_one_way};
pub use output::run_script;
pub use reading::{StepLine, read_script};
pub use record_reading::read_record;
pub use record_writing::write_record;
pub use script::Script;
