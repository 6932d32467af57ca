//! The picture of a plan's load, as an SVG 1.1 text.
//!
//! [`load_picture`] shows how much each voter is used, and which quorums a cycle uses how often.
//!
//! The picture is one document with no script and no outside file. It fits a page: it is at most
//! some 900 pixels wide. It is cut off with a note if it would be too long. Bars and dots have
//! titles with exact figures, which a browser shows under the pointer. A dot's area is in
//! proportion to its quorum's weight, except that no dot has a radius below 1.2 pixels.
//!
//! # What is proved
//!
//! The call returns, and fails only if memory runs out. Its [`Drawing`](show_svg::Drawing) ends with
//! `</svg>`. Nothing else is proved of what the picture shows. A private helper has the radius of each dot:
//! the root of its share of the area, rounded down, and no smaller than 12 tenths of a pixel. The numbers
//! in titles are computed from figures of `show_figures`, and from what calls of `certificate` return;
//! that they are in their places is only tested.
//!
//! Depends on `show_svg` for the texts, on `show_figures` for figures, on `show_words` for percentages, and
//! on `coterie_file` for names.
//!
//! ```
//! // Of the wheel with three rims:
//! let drawing = load_picture(alloc, &named, plan.weights())?; // <svg xmlns=..
//! ```
#![tactic(auto)]

mod bars;
mod columns;
mod dots;
mod loads;

pub use loads::load_picture;
