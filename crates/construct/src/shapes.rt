//! The constructions, one file each.
pub mod cyclic;
pub mod grid;
pub mod majority;
pub mod tree;
pub mod wheel;
