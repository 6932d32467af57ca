//! Shapes and their sizes.
use std::alloc::Global;

/// A coterie, by its shape and its sizes.
#[derive(Drop)]
pub enum CoterieShape {
    /// Majorities of a majority of racks. Has the number of racks, and of the voters of each.
    Racks(u8, u8),
    /// Majorities of a majority of centres. Has the number of voters of each centre.
    Centres(Vec<u8>),
    /// All sets of one size. Has the size and the number of voters.
    Any(u32, u32),
    /// The minimal sets with more than half of all votes. Has the votes of each voter.
    Votes(Vec<u64>),
}
