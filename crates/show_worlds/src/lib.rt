//! Stories for people, as pictures.
//!
//! [`world_picture`] shows a story as a sequence chart: who sends what to whom, and when it
//! arrives. There is a column for each client and each voter that sends or receives something, and
//! a row for each turn, 200 at most. A message that is delivered twice has two arrows, and one that
//! is not delivered in these rows ends in a cross. Arrows have titles with exact figures, which a
//! browser shows under the pointer.
//!
//! The picture is one SVG document with no script and no outside file.
//!
//! It is proved that the call returns, and fails only if memory runs out. The
//! [`Drawing`](show_svg::Drawing) ends as a picture does. What the picture says of the story is only
//! tested.
//!
//! Depends on `show_svg` for the texts of pictures, on `stories` for the story, on `show_figures` for names
//! of voters, on `show_words` for the words of messages, and on `coterie_file` for names.
//!
//! ```
//! let drawing = world_picture(alloc, &named, plans, &script)?; // <svg xmlns=..
//! ```
#![tactic(auto)]

mod arrows;
mod chart;
mod kinds;
mod lanes;
mod rows;
mod worlds;

pub use worlds::world_picture;
