//! Weighted votes.
use crate::fault::ShapeFault;
use construct::{ConstructFault, push_set};
use numbers::MAX_VOTERS;
use quorum_set::{Coterie, QSet, set_where};
use std::alloc::{AllocError, Global};
use std::cmp::Reverse;

/// The most votes of a voter.
const MOST_VOTES: u64 = 1000;

/// The set of a voter alone, and its votes.
#[derive(Drop)]
struct Share {
    alone: QSet,
    votes: u64,
}

/// Returns the votes of these voters. (64 voters have at most 64,000: nothing saturates.)
fn votes_of(voters: &[Share]) -> u64 {
    voters
        .iter()
        .fold(0u64, |all, it| all.saturating_add(it.votes))
}

/// Returns at most 64 voters by their votes, greatest first, and then by number.
fn by_votes(alloc: Global, votes: &[u64]) -> Result<Vec<Share>, AllocError> {
    let mut voters = Vec::new(alloc);
    for (voter, votes) in votes.iter().take(MAX_VOTERS).enumerate() {
        let alone = set_where(|v| usize::from(v) == voter);
        voters.push(Share {
            alone,
            votes: *votes,
        })?;
    }
    voters.sort_by_key(|it| Reverse(it.votes))?;
    Ok(voters)
}

/// Adds the minimal sets of the voters that have the missing votes, each joined with `set`. Those
/// with the first voter come first.
fn push_picks(
    quorums: &mut Vec<QSet>,
    voters: &[Share],
    set: &QSet,
    missing: u64,
) -> Result<(), ShapeFault> {
    if missing == 0 {
        push_set(quorums, set.copy())?;
        return Ok(());
    }
    if votes_of(voters) < missing {
        return Ok(());
    }
    let Some((first, others)) = voters.split_first() else {
        return Ok(());
    };
    let with_first = set.join(&first.alone);
    push_picks(
        quorums,
        others,
        &with_first,
        missing.saturating_sub(first.votes),
    )?;
    push_picks(quorums, others, set, missing)
}

/// Returns the coterie of weighted votes: the minimal sets of voters with more than half of all
/// votes (Gifford, SOSP 1979; Garcia-Molina and Barbara, JACM 32(4), 1985).
///
/// `votes` has the votes of each voter. A set with more than half of them is minimal if it has no
/// more than half without any one of its members. Voters are ranked by their votes, greatest first,
/// and then by number; the quorums are in lexicographic order of their members' ranks.
///
/// Fails with `BadSize` if there is no voter, all votes are 0, or a voter has more than 1000. Fails
/// with `TooLarge` if there are more than 64 voters or more than 4096 quorums.
pub(crate) fn votes(alloc: Global, votes: &[u64]) -> Result<Coterie, ShapeFault> {
    if votes.iter().all(|votes| *votes == 0) || votes.iter().any(|votes| *votes > MOST_VOTES) {
        return Err(ConstructFault::BadSize.into());
    }
    if votes.len() > MAX_VOTERS {
        return Err(ConstructFault::TooLarge.into());
    }
    let voters = by_votes(alloc, votes)?;
    let mut quorums = Vec::new(alloc);
    push_picks(
        &mut quorums,
        &voters,
        &QSet::empty(),
        votes_of(&voters) / 2 + 1,
    )?;
    Ok(Coterie::of(votes.len(), quorums)?)
}
