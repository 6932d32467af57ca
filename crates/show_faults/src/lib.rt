//! The explanations of the faults that a command can print: what each means, how to get it, and what
//! usually leads to it. Faults of calls alone are explained where these are declared.
//!
//! - [`explanation_of`] finds the explanation of a code, as of `E7`, or of a whole line of a fault.
//! - [`explanation_text`] writes it as a text.
//! - [`faults_page`] writes the page of all faults, and [`faults_list`] a line for each.
//! - [`sections`] returns the explanations of all faults.
//!
//! What is proved:
//!
//! - An explanation that is found has the code that was looked for, and each code of
//!   `specs/Codes.antt` is found.
//! - The text has the parts of the explanation, in one layout.
//! - The page has the texts of one explanation for each code, in order, behind headings; the list has
//!   a line for each code.
//!
//! Packages ship the page as `faults.md`. Nothing is proved of what the explanations say.
//!
//! This crate depends on no other.
//!
//! ```
//! if let Some(explanation) = explanation_of("E7 Disjoint 0 1") {
//!     let text = explanation_text(alloc, explanation)?; // its first line is `E7 Disjoint j k`
//! }
//! ```
#![tactic(auto)]

mod all;
mod code;
mod coteries;
mod explanation;
mod inputs;
mod page;
mod plans;
mod protocol;
mod records;
mod search;
mod section;
mod text;

pub use all::sections;
pub use code::code_of;
pub use explanation::Explanation;
pub use page::{faults_list, faults_page};
pub use search::explanation_of;
pub use section::Section;
pub use text::explanation_text;
