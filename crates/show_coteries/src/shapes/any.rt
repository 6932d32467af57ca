//! All sets of one size.
use crate::fault::ShapeFault;
use construct::{ConstructFault, sets_of};
use numbers::MAX_VOTERS;
use quorum_set::Coterie;
use std::alloc::Global;

/// Returns the coterie of all sets of `size` of the voters (Garcia-Molina and Barbara, JACM 32(4),
/// 1985).
///
/// They are in lexicographic order of their ascending members. Fails with `BadSize` if `size` is
/// above the number of voters, or is not above half of it. Fails with `TooLarge` if there are more
/// than 64 voters or more than 4096 sets.
pub(crate) fn any(alloc: Global, size: u32, voters: u32) -> Result<Coterie, ShapeFault> {
    if size > voters || 2 * u64::from(size) <= u64::from(voters) {
        return Err(ConstructFault::BadSize.into());
    }
    if voters > MAX_VOTERS as u32 {
        return Err(ConstructFault::TooLarge.into());
    }
    let quorums = sets_of(alloc, 0, voters as u8, size as u8)?;
    Ok(Coterie::of(voters as usize, quorums)?)
}
