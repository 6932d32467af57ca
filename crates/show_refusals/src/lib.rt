//! What is wrong with an input that `qlock` refuses, in words: where the fault is, with which names,
//! and what would be right.
//!
//! [`fault_page`] serves a command of `qlock` for an input, throws its output away, and makes a page
//! of the fault. The page has the fault's line, the place in the input, what is wrong there, and the
//! command of `qlock-show` that explains the code. The texts of explanations are in `show_faults`.
//!
//! - `refused.rt` has a page as far as it is written, the parts of its input, and how places in it are
//!   named: by files, if files were named (`files.rt`);
//! - `lines.rt` finds lines and shows each of their bytes; lines of keys are found by `toml_places`;
//! - `kinds.rt` says that a text is in another's place, as a plan where the coterie has to be;
//! - `toml_faults.rt` and `text_faults.rt` say what is wrong with a coterie's text, `plan_faults.rt` with
//!   a plan, `shape_faults.rt` with a shape, `bad_lines.rt` with any line, and `page.rt` with the rest.
//!
//! # What is proved
//!
//! A page ends with the code of a fault with which the command may refuse the input: of an irregular
//! coterie it may say `N1` though `plan` finds a plan. Or it says that there is no fault, and then the
//! command takes the input. What else a page says is only tested. Lines and columns count from 1.
//!
//! ```
//! let page = fault_page(alloc, &Command::Plan, b"voters = [", &[])?;
//! // F1 NotToml
//! //   in part 1, the coterie, which begins at line 1
//! //   ..
//! //   more: qlock-show explain F1
//! ```
#![tactic(auto)]

mod bad_lines;
mod codes;
mod files;
mod kinds;
mod lines;
mod page;
mod plan_faults;
mod refused;
mod shape_faults;
mod text_faults;
mod toml_faults;

pub use files::{FileLine, file_line, push_file};
pub use lines::{is_unended, line_of, near_mark, position_of};
pub use page::fault_page;
