//! Where keys, items of lists and open brackets are in a text of TOML.
//!
//! The crate `toml` gives the values of a text, and no places. Here a walk takes one token after the
//! other, by the grammar of `toml_parser`, also behind a place where the text is no TOML.
//!
//! - [`line_at`] finds the line of a key, or of an item of its list, and [`misfit_at`] a value whose type
//!   is another than it has to be;
//! - [`unclosed_line`] finds a bracket that is not closed, in a text that has lists of lists at most.
//!
//! The calls are proved safe, and [`newlines`] counts exactly. What is found is only tested. Lines count
//! from 1.
//!
//! ```
//! let line = line_at(alloc, "a = 1\nb = [2,\n  3]\n", "b", Some(1))?; // Some(3)
//! ```
#![tactic(auto)]

mod walk;

pub use walk::{Value, line_at, misfit_at, newlines, unclosed_line};
