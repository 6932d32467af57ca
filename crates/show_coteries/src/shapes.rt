//! The coteries of shapes, one file each. What each finds is checked by `Coterie::of`, as a coterie
//! that a user writes is.
pub mod any;
pub mod centres;
pub mod votes;
