//! The command line of the program `qlock-show`: which [`ShowCommand`] its words name.
//!
//! [`read_show_words`] reads the words by clap, and `show_cli` serves the command. The words behind
//! `fault` are those of `qlock`, and `commands` reads them.
//!
//! # What is proved
//!
//! A command is the one that the words name, and its numbers are in range. Words are refused only if
//! clap refuses them, or if they name no command.
//!
//! ```
//! let command = read_show_words(alloc, words)?; // of `qlock-show plan`: ShowCommand::Plan
//! ```
#![tactic(auto)]

mod command;
mod words;

pub use command::{Dealing, Form, NearForm, NearPage, Picture, ShowCommand, TicketForm};
pub use words::read_show_words;
