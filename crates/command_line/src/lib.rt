//! The command line of the program `qlock`: which [`Command`] its words name.
//!
//! This crate declares the program's commands and their arguments, and `clap` splits the words by
//! them. This crate then turns what clap found into a command with numbers in range. What is
//! proved:
//!
//! - A command that is returned is the one that clap's subcommand and its values name, and clap
//!   finds no fault in the words.
//! - Clap's text is returned only for the first fault that clap finds.
//! - [`Usage::Arguments`] is returned only for words without such a fault that name no command.
//! - Otherwise memory ran out.
//!
//! The builders of subcommands and arguments, and the readers of their values, are public:
//! `show_command_line` reads the words of `qlock-show` by them.
//!
//! This crate depends on `clap` and `numbers`. It does not serve the command; `qlock_cli` does.
//!
//! ```
//! let command = read_words(alloc, words)?; // of `qlock deal 5`: Command::Deal(5)
//! ```
#![tactic(auto)]

mod arguments;
mod command;
mod usage;
mod values;
mod words;

pub use arguments::{
    bare_command, number_argument, tickets_argument, with_argument, with_command, without_commands,
    word_argument,
};
pub use command::{Command, Shape};
pub use usage::Usage;
pub use values::{number_of, read_matches, text_at, text_of, texts_of, tickets_of, used_in};
pub use words::{VERSION, read_words, sizes_argument, sizes_given};
