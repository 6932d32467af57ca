//! SVG 1.1 as text: lines, boxes, circles and words, each appended to a `String`.
//!
//! A picture begins with [`open_picture`], and [`Drawing::finish`] ends it. Coordinates are whole
//! pixels from the upper left corner. A group with a title, which a browser shows under the
//! pointer, is opened by [`open_titled`], [`close_title`] after the title's text, and ended by
//! [`close_group`]. Texts of a caller go through [`push_escaped`].
//!
//! It is proved that each call returns and fails only if memory runs out, and that the text of each
//! [`Drawing`] ends with the last line of a picture.
//!
//! This crate depends on no other.
//!
//! ```
//! let mut out = String::new(alloc);
//! open_picture(&mut out, 200, 100, "A line")?;
//! line(&mut out, Point::at(10, 10), Point::at(190, 90), "stroke=\"black\"")?;
//! let drawing = Drawing::finish(out)?;
//! ```
#![tactic(auto)]

mod document;
mod drawing;
mod escape;

pub use document::{
    Area, LETTER, Point, circle, close_group, close_text, close_title, line, open_picture,
    open_text, open_titled, open_upright, rect, upright_words, words,
};
pub use drawing::Drawing;
pub use escape::push_escaped;
