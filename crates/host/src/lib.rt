//! What the programs share: the words and the files that the system passes, and reports on standard
//! error.
//!
//! - [`command_line_of`] takes the words of the command line from the system, and the names of files
//!   out of them: `-f FILE` names a file (`line.rt`).
//! - [`read_files`] reads these files, each as a part of the input (`files.rt`). Of a file that the
//!   system did not open or read it has the [`Reason`] (`reason.rt`).
//! - [`refuse_words`] prints why words name no command, [`report_unread`] that a file was not read, and
//!   [`report`] the fault of a command (`reports.rt`). [`answer_words`] prints help and the version, which
//!   were asked for, on standard output, and refuses other words (`answers.rt`).
//! - [`tell_of_reading`] and [`tell_of_fault`] print a line more for somebody at a terminal, and
//!   [`tell_of_reason`] the system's reason, and [`tell_of_help`] how to see which words a command takes.
//! - [`Listened`] is a writer that notes whether somebody still reads (`listened.rt`). If nobody does,
//!   [`report_shown`] passes over the write that failed.
//!
//! What is proved is the exit status that [`refuse_words`], [`answer_words`], [`report_unread`],
//! [`report`] and [`report_shown`] return, which words name files, where a line `%%` is put between two
//! texts, the reason for each kind of error, and what [`Listened`] notes. What a file has, and what is
//! printed, is only tested.
//!
//! ```
//! let line = command_line_of(rt)?;
//! let command = read_words(rt.alloc(), line.words.as_slice())?;
//! let status = report(rt, &execute(rt.alloc(), &command, &mut reader, &mut writer));
//! ```
#![tactic(auto)]

mod answers;
mod files;
mod line;
mod listened;
mod reason;
mod reports;

pub use answers::answer_words;
pub use files::{Unread, push_part, read_files};
pub use line::{Awaited, CommandLine, command_line_of, split_words};
pub use listened::Listened;
pub use reason::Reason;
pub use reports::{
    Hint, hint_for, refuse_words, report, report_shown, report_unread, tell_of_fault, tell_of_help,
    tell_of_reading, tell_of_reason,
};
