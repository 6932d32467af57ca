//! A report of a plan, or of other weights, on one page: an HTML document for people who decide.
//!
//! [`report_page`] has the load, or the throughput if some capacity is not 1, how many
//! failures its coterie and its own quorums bear, how even it is, whom to ask how often, how busy each
//! voter is, what the loss of a group of voters does, such as a rack, a picture, and the certificate that
//! a person can add up. The document has no script and no outside
//! file. It is light or dark as the reader's device is, and fits narrow and wide screens.
//!
//! # What is proved
//!
//! Names have no sign that means something in HTML (law [`names_are_plain_in_html`]). The figures come
//! from `show_figures`, `show_failures` and `failures`, which pin them. What the document says is only tested.
//!
//! Depends on these, on `show_words` for percentages, on `show_plans` for the picture, and on
//! `certificate` and `coterie_file`.
//!
//! ```
//! // Of the wheel with three rims:
//! let text = report_page(alloc, &named, plan.weights(), None)?; // <!DOCTYPE html>..
//! ```
#![tactic(auto)]

mod groups;
mod laws;
mod page;
mod summary;
mod tables;

pub use laws::names_are_plain_in_html;
pub use page::report_page;
