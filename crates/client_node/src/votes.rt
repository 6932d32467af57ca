//! The votes of all voters for the requests of one lock.
ghost use Rattle.std.specs.Prelude.{◌≡◌, ◌&&◌, is_some};
ghost use Rattle.std.specs.List.{list_any, slice_get};
ghost use Rattle.client_node.specs.Locks.{all_asked, all_ended, all_noted, brought, first_end, is_over, is_voter_doubtful, kept_at, noted, returned_to, taken_at, voter_end};
ghost use Rattle.vote_leases.specs.Leases.{until as end_of};

use message::{ClientBody, ToClient, ToVoter, VoterBody};
use vote_leases::{Incarnation, Locked, Vote, VoterLease};

/// Asks at all votes with the request of this stamp.
pub fn ask_all(votes: &mut [Vote], request: u64)
    ensures { votes.new ≡ all_asked votes.old request }
{
    for vote in votes.iter_mut() {
        vote.asks(request);
    }
}

/// Ends the request of this stamp at all votes.
pub fn end_all(votes: &mut [Vote], request: u64)
    ensures { votes.new ≡ all_ended votes.old request }
{
    for vote in votes.iter_mut() {
        vote.ends(request);
    }
}

/// Gives the vote of a voter back, whose grant has this number.
fn return_to(votes: &mut [Vote], voter: u8, number: u64)
    ensures { votes.new ≡ returned_to votes.old voter number (slice_get votes.old voter) }
{
    let place = usize::from(voter);
    let Some(vote) = votes.get(place) else {
        return;
    };
    let mut vote = *vote;
    vote.gives_back(number);
    votes[place] = vote;
}

/// Notes what a message that leaves ends, or gives back.
fn note(votes: &mut [Vote], message: &ToVoter)
    ensures { votes.new ≡ noted votes.old message.now }
{
    match message.body {
        VoterBody::Request { .. } => {}
        VoterBody::Relinquish { grant } => return_to(votes, message.voter, grant),
        VoterBody::Release { stamp } => end_all(votes, stamp),
    }
}

/// Notes what these messages end, or give back.
pub fn note_all(votes: &mut [Vote], messages: &[ToVoter])
    ensures { votes.new ≡ all_noted votes.old messages.now }
{
    for message in messages {
        note(votes, message);
    }
}

/// Takes a LOCKED of a voter.
fn take(votes: &mut [Vote], voter: u8, locked: &Locked, leases: &[VoterLease], span: u64, now: u64)
    ensures { votes.new ≡ taken_at span now votes.old voter locked.now (slice_get votes.old voter) (slice_get leases.now voter) }
{
    let place = usize::from(voter);
    let Some(vote) = votes.get(place) else {
        return;
    };
    let Some(lease) = leases.get(place) else {
        return;
    };
    let mut vote = *vote;
    vote.takes(lease, locked, span, now);
    votes[place] = vote;
}

/// Takes what a message of a voter brings, whose header says this incarnation.
pub fn bring(
    votes: &mut [Vote],
    message: &ToClient,
    renews: bool,
    incarnation: Incarnation,
    leases: &[VoterLease],
    span: u64,
    now: u64,
)
    ensures { votes.new ≡ brought renews incarnation leases.now span now votes.old message.now.voter message.now.body }
{
    match message.body {
        ClientBody::Locked { stamp, grant } => {
            let locked = Locked {
                incarnation,
                request: stamp,
                number: grant,
                renews,
            };
            take(votes, message.voter, &locked, leases, span, now);
        }
        ClientBody::Fail { .. } | ClientBody::Inquire { .. } => {}
    }
}

/// Keeps what counts for the vote of a voter.
pub fn keep(votes: &mut [Vote], voter: u8, leases: &[VoterLease])
    ensures { votes.new ≡ kept_at votes.old voter (slice_get votes.old voter) (slice_get leases.now voter) }
{
    let place = usize::from(voter);
    let Some(vote) = votes.get(place) else {
        return;
    };
    let Some(lease) = leases.get(place) else {
        return;
    };
    let mut vote = *vote;
    vote.keeps(lease);
    votes[place] = vote;
}

/// Returns up to when the vote of a voter counts for the request of this stamp.
fn end_of(votes: &[Vote], leases: &[VoterLease], voter: u8, request: u64, span: u64) -> Option<u64>
    ensures { result ≡ voter_end span request votes.now leases.now voter }
{
    let place = usize::from(voter);
    let vote = votes.get(place)?;
    let lease = leases.get(place)?;
    if vote.is_open && vote.request == request {
        vote.until(lease, span)
    } else {
        None
    }
}

/// Returns up to when the votes of all these voters count for the request of this stamp.
pub fn first_end(
    votes: &[Vote],
    leases: &[VoterLease],
    voters: &[u8],
    request: u64,
    span: u64,
) -> Option<u64>
    ensures { result ≡ first_end span request votes.now leases.now voters.now }
{
    let mut first = u64::MAX;
    for voter in voters {
        let end = end_of(votes, leases, *voter, request, span)?;
        first = first.min(end);
    }
    Some(first)
}

/// Returns whether a vote is taken, and may be somebody else's.
fn is_over(vote: &Vote, lease: &VoterLease, since: u64, span: u64, now: u64) -> bool
    ensures { result ≡ (is_some vote.now.taken && is_over span now since (end_of vote.now lease.now span)) }
{
    vote.taken.is_some()
        && match vote.until(lease, span) {
            None => span < now.saturating_sub(since),
            Some(end) => end <= now,
        }
}

/// Returns whether the vote of a voter is doubtful for the request of this stamp.
fn is_doubtful(
    votes: &[Vote],
    leases: &[VoterLease],
    since: &[u64],
    voter: u8,
    request: u64,
    span: u64,
    now: u64,
) -> bool
    ensures { result ≡ is_voter_doubtful span request now votes.now leases.now since.now voter }
{
    let place = usize::from(voter);
    let Some(vote) = votes.get(place) else {
        return true;
    };
    let Some(lease) = leases.get(place) else {
        return true;
    };
    let Some(since) = since.get(place) else {
        return true;
    };
    !(vote.is_open && vote.request == request) || is_over(vote, lease, *since, span, now)
}

/// Returns whether the vote of one of these voters is doubtful for the request of this stamp.
pub fn any_doubtful(
    votes: &[Vote],
    leases: &[VoterLease],
    since: &[u64],
    voters: &[u8],
    request: u64,
    span: u64,
    now: u64,
) -> bool
    ensures { result ≡ list_any (is_voter_doubtful span request now votes.now leases.now since.now) voters.now }
{
    for voter in voters {
        if is_doubtful(votes, leases, since, *voter, request, span, now) {
            return true;
        }
    }
    false
}
