//! The commands of the program `qlock`: what each writes for its input.
//!
//! [`execute`] serves a [`Command`] over a reader and a writer. It reads the whole input, makes the
//! whole output, and only then writes it. The reader and the writer are [`Watched`], so a caller sees
//! which of them failed. The command `run`, whose clients work in threads, is defined here too.
//! `qlock_cli` serves it, so that what only reads and writes texts doesn't depend on threads.
//!
//! The module `parts` counts and splits the parts of an input, `answer` makes the output, `dealing` draws its tickets, and
//! `lines` makes its lines.
//!
//! # What is proved
//!
//! What is written is a stated function of what was read. For `plan` it is the text of an optimal
//! plan of the coterie that was read. A [`Fault`] comes only for an input with this fault, for a device that failed,
//! or if memory ran out. A fault other than a failed write writes nothing. After a failed write a
//! beginning of the output was written.
//!
//! `qlock_cli` has these calls too. Programs that show more of the same inputs read them by
//! [`coterie_of`], [`planned_of`], [`weighed_of`], [`staged_of`], [`parts_of`] and [`split_part`], and deal
//! by [`dealt`].
//!
//! ```
//! let command = read_words(alloc, words)?; // of `qlock plan`: Command::Plan
//! let mut reader = Watched::of(input.as_bytes());
//! let mut writer = Watched::of(&mut written);
//! execute(alloc, &command, &mut reader, &mut writer)?; // `written` is the text of a plan
//! ```
#![tactic(auto)]

mod answer;
mod dealing;
mod fault;
mod laws;
mod lines;
mod parts;
mod serving;
mod statuses;
mod words;

pub use answer::{coterie_of, planned_of, staged_of, weighed_of};
pub use command_line::{Command, Shape, Usage};
pub use dealing::dealt;
pub use fault::Fault;
pub use laws::{named_commands_are_in_range, refusals_come_of_the_input};
pub use lines::{push_account, push_ratio};
pub use parts::{parts_of, split_part};
pub use plan_inputs::{InputFault, Planned, Weighed};
pub use serving::{execute, input_for, reads_input, write_answer};
pub use statuses::{status_of, usage_status};
pub use whole_io::{DeviceFault, Watched};
pub use words::read_words;
