//! The commands of the program `qlock-show`: plans, coteries, faults and scripts for people to read.
//!
//! The texts of `qlock` are exact and for machines. This crate reads the same inputs and shows them
//! with the names of voters: in words, and as pictures.
//!
//! [`show`] serves a command of `show_command_line` over a reader and a writer. Faults, statuses and
//! limits are those of `commands`.
//!
//! # What is proved
//!
//! The input is read to its end, and what is written is a page of the command for what was read:
//!
//! - the input has the parts that the command needs: a coterie with a plan or other weights of it, one
//!   coterie or two, or a story whose coteries go together;
//! - of `without`, `waiting` and `coterie` the whole page is determined;
//! - a page of `compare` has the figures of the coteries in the input, which are called as the files: in
//!   words in tables, and as JSON alone;
//! - `near --text` writes the text of weights of the coterie, with a cycle of at most the wanted length;
//!   it is a plan's if and only if the weights are a plan;
//! - of `explain` the code is, but not what the text says; the page of all faults and the list of their
//!   lines have each code once, in order;
//! - a `fault` page ends with the code of a fault with which `qlock` may refuse the input, or it says
//!   that there is none, and then the command takes the input. Of an irregular coterie it may say `N1`
//!   though `plan` finds a plan;
//! - a picture ends as a picture does.
//!
//! [`word_at_fault`] returns the name that no voter has, or one of the files; that it is the file which is
//! no coterie is only tested.
//!
//! The figures of the other pages are pinned in the crates that compute them. What the pages say is only
//! tested. A fault comes only for an input with this fault, and then nothing is written. A failed write may
//! leave a beginning of such a page.
//!
//! ```
//! let command = ShowCommand::Plan(Form::Words);
//! let mut reader = Watched::of(input.as_bytes());
//! let mut writer = Watched::of(&mut written);
//! show(alloc, &command, &[], &mut reader, &mut writer)?; // `written` is the page
//! ```
#![tactic(auto)]

mod at_fault;
mod compared;
mod failing;
mod nearness;
mod pages;
mod scenes;
mod serving;
mod shapes;

pub use at_fault::{WordAtFault, word_at_fault};
pub use serving::{reads_page_input, show};
