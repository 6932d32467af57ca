//! When a session gives up a request that waits, and asks another quorum.
ghost use Rattle.std.specs.Prelude.{◌≡◌, ◌&&◌, not};
ghost use Rattle.std.specs.List.{list_any};
ghost use Rattle.numbers.specs.Sets.{has, members_of, set_where};
ghost use Rattle.fail_over.specs.Choices.{is_stuck, others_would_do, waits_for};

use crate::choices::spares;
use quorum_set::QSet;

/// A request that waits for votes.
#[derive(Clone, Copy, Debug, PartialEq, Eq)]
pub struct Waiting {
    /// The voters of its quorum.
    pub quorum: u64,
    /// The voters that gave it their votes.
    pub votes: u64,
    /// When it was asked, in the unit of the host's clock.
    pub asked: u64,
}

/// Returns the voters of the first set that are not in the second.
#[tactic(auto, using(crate::proofs::VoterLemmas::others_by_word))]
fn without(voters: u64, others: u64) -> u64
    ensures { members_of result ≡ set_where (λ v. has (members_of voters) v && not (has (members_of others) v)) }
{
    voters & !others
}

/// Returns whether some quorum has no voter that is avoided, and none that has no room.
fn others_would_do(quorums: &[u64], avoided: u64, full: u64) -> bool
    ensures { result ≡ others_would_do quorums.now avoided full }
{
    let hindered = avoided | full;
    quorums.iter().any(|quorum| spares(hindered, *quorum))
}

/// Returns whether a request waits for the vote of a voter that is avoided, and others would do: some quorum of these has no voter
/// that is avoided, and none that has no room. So the session asks another quorum once it hears that a voter is to be avoided.
pub fn waits_for(quorums: &[u64], request: &Waiting, avoided: u64, full: u64) -> bool
    ensures { result ≡ waits_for quorums.now request.now avoided full }
{
    let awaited = QSet::of_bits(without(request.quorum, request.votes));
    awaited.meets(&QSet::of_bits(avoided)) && others_would_do(quorums, avoided, full)
}

/// Returns whether a request that was asked longer ago than `most` is to be given up: it waits for the vote of a voter that is
/// avoided, and others would do.
pub fn is_stuck(
    quorums: &[u64],
    request: &Waiting,
    avoided: u64,
    full: u64,
    now: u64,
    most: u64,
) -> bool
    ensures { result ≡ is_stuck quorums.now request.now avoided full now most }
{
    now.saturating_sub(request.asked) > most && waits_for(quorums, request, avoided, full)
}
