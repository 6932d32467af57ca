//! Majorities of a majority of centres.
use crate::fault::ShapeFault;
use construct::{ConstructFault, push_set, sets_of};
use numbers::MAX_VOTERS;
use quorum_set::{Coterie, QSet};
use std::alloc::Global;

/// Returns the majorities of each centre, and the number of voters. Voters are numbered from 0, one
/// centre after the other.
fn majorities_of(alloc: Global, sizes: &[u8]) -> Result<(Vec<Vec<QSet>>, usize), ShapeFault> {
    let mut majorities = Vec::new(alloc);
    let mut voters = 0u8;
    for size in sizes {
        if u32::from(voters) + u32::from(*size) > MAX_VOTERS as u32 {
            return Err(ConstructFault::TooLarge.into());
        }
        majorities.push(sets_of(alloc, voters, *size, *size / 2 + 1)?)?;
        voters += *size;
    }
    Ok((majorities, usize::from(voters)))
}

/// Adds the union of a set with each of the others.
fn push_unions_with(unions: &mut Vec<QSet>, set: &QSet, others: &[QSet]) -> Result<(), ShapeFault> {
    for other in others {
        push_set(unions, set.join(other))?;
    }
    Ok(())
}

/// Returns the union of each left set with each right one.
fn joined(alloc: Global, left: &[QSet], right: &[QSet]) -> Result<Vec<QSet>, ShapeFault> {
    let mut unions = Vec::new(alloc);
    for set in left {
        push_unions_with(&mut unions, set, right)?;
    }
    Ok(unions)
}

/// Returns the unions of one majority of each of these centres.
fn unions_of(
    alloc: Global,
    majorities: &[Vec<QSet>],
    centres: &[u8],
) -> Result<Vec<QSet>, ShapeFault> {
    let mut unions = Vec::new(alloc);
    unions.push(QSet::empty())?;
    for centre in centres {
        if let Some(own) = majorities.get(usize::from(*centre)) {
            unions = joined(alloc, &unions, own)?;
        }
    }
    Ok(unions)
}

/// Adds the unions of one majority of each centre of a set.
fn push_unions_of(
    quorums: &mut Vec<QSet>,
    alloc: Global,
    majorities: &[Vec<QSet>],
    centres: &QSet,
) -> Result<(), ShapeFault> {
    let members = centres.members();
    let unions = unions_of(alloc, majorities, members.as_slice())?;
    push_unions_with(quorums, &QSet::empty(), &unions)
}

/// Returns the majorities of a majority of the centres: hierarchical quorum consensus of two levels
/// (Kumar, IEEE Trans. Computers 40(9), 1991).
///
/// `sizes` has the number of voters of each centre. A majority of n is n / 2 + 1 of them, rounded
/// down. A quorum is the union of one majority of each centre of a majority of the centres. So any
/// two quorums share a centre, and in it a voter. Majorities of the centres come in lexicographic
/// order, and so do the unions of each.
///
/// Fails with `BadSize` if there is no centre, or an empty one. Fails with `TooLarge` if there are
/// more than 64 voters or more than 4096 quorums.
pub(crate) fn centres(alloc: Global, sizes: &[u8]) -> Result<Coterie, ShapeFault> {
    if sizes.is_empty() || sizes.iter().any(|size| *size == 0) {
        return Err(ConstructFault::BadSize.into());
    }
    if sizes.len() > MAX_VOTERS {
        return Err(ConstructFault::TooLarge.into());
    }
    let (majorities, voters) = majorities_of(alloc, sizes)?;
    let count = sizes.len() as u8;
    let mut quorums = Vec::new(alloc);
    for majority in &sets_of(alloc, 0, count, count / 2 + 1)? {
        push_unions_of(&mut quorums, alloc, &majorities, majority)?;
    }
    Ok(Coterie::of(voters, quorums)?)
}
