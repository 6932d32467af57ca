//! A vote, as its session keeps it, as bytes, and what its calls do.
ghost use Rattle.std.specs.Prelude.{◌≡◌, IfErr, IfOk, IfSome, OnErr, Some, length};
ghost use Rattle.vote_leases.specs.Leases.{asked, begun_vote, ended, given_back, is_taken, kept, taken, until};
ghost use Rattle.vote_leases.specs.Saved.{vote_words};
ghost use Rattle.vote_leases.specs.declared.vote.Locked.{Locked};
ghost use Rattle.vote_leases.specs.declared.vote.Vote.{Vote};
ghost use Rattle.session_blocks.specs.Bytes.{IsNoVote, IsVote};
ghost use Rattle.session_blocks.specs.SessionSteps.{VoteAsks, VoteBecomes, VoteIsMade, VoteKeeps, VoteShowsEnd, VoteTakes};
ghost use Rattle.blocks.specs.Numbers.{returned};

use crate::leases::load_lease;
use arrayvec::ArrayVec;
use blocks::Refusal;
use vote_leases::{Locked, VOTE_WORDS, Vote};
use words::{read_words, write_words};

/// How many bytes a vote has.
pub const VOTE_BYTES: usize = 72;

/// Returns the vote that was saved as these bytes. Fails with `BadState` if there is none.
fn load_vote(bytes: &[u8]) -> Result<Vote, Refusal>
    ensures loaded { IfOk result (IsVote bytes.now) }
    // It is the only one.
    ensures only { IfOk result (λ v. (d : Vote) → IsVote bytes.now d → d ≡ v) }
    ensures len { IfOk result (λ _. length bytes.now ≡ 72) }
    ensures refused { IfErr result (λ r. (r ≡ Refusal.BadState) × IsNoVote bytes.now) }
{
    if bytes.len() != VOTE_BYTES {
        return Err(Refusal::BadState);
    }
    let mut words = ArrayVec::<u64, VOTE_WORDS>::new();
    read_words(bytes, &mut words);
    match vote_of(words.as_slice()) {
        Some(vote) => Ok(vote),
        None => Err(Refusal::BadState),
    }
}

/// Returns the vote with these numbers. `None` if they are not those of a vote.
pub fn vote_of(words: &[u64]) -> Option<Vote>
    requires { length words.now ≡ 9 }
    ensures text { IfSome result (λ v. words.now ≡ vote_words v) }
    ensures read { (v : Vote) → words.now ≡ vote_words v → result ≡ Some v }
{
    let mut numbers = [0; VOTE_WORDS];
    numbers.copy_from_slice(words);
    Vote::restore(&numbers)
}

/// Writes the bytes of a vote.
fn store_vote(vote: &Vote, bytes: &mut [u8])
    requires { length bytes.old ≡ 72 }
    ensures { IsVote bytes.new vote.now }
{
    write_words(&vote.save(), bytes);
}

/// Makes the vote of a lock that the session did not ask for yet. Its requests have stamps above this one.
pub fn new(used: u64, vote: &mut [u8]) -> Result<(), Refusal>
    ensures made { VoteIsMade used vote.old vote.new (returned result) }
    ensures refused { OnErr result (vote.new ≡ vote.old) }
{
    if vote.len() != VOTE_BYTES {
        return Err(Refusal::BadState);
    }
    store_vote(&Vote::new(used), vote);
    Ok(())
}

/// Asks with a request of this stamp. Writes 1 if it is above those of all requests before, and 0 if not: then nothing changes.
pub fn asks(vote: &mut [u8], request: u64, yes: &mut u32) -> Result<(), Refusal>
    ensures asks { VoteAsks request vote.old vote.new yes.new (returned result) }
    ensures refused { OnErr result ((vote.new ≡ vote.old) × (yes.new ≡ yes.old)) }
{
    let mut it = load_vote(vote)?;
    *yes = u32::from(it.asks(request));
    store_vote(&it, vote);
    Ok(())
}

/// Keeps what counts for the vote by the voter's lease.
pub fn keeps(vote: &mut [u8], lease: &[u8]) -> Result<(), Refusal>
    ensures keeps { VoteKeeps lease.now vote.old vote.new (returned result) }
    ensures refused { OnErr result (vote.new ≡ vote.old) }
{
    let mut it = load_vote(vote)?;
    it.keeps(&load_lease(lease)?);
    store_vote(&it, vote);
    Ok(())
}

/// Takes a LOCKED. Writes 1 if the session has the vote by it, and 0 if not.
pub fn takes(
    vote: &mut [u8],
    lease: &[u8],
    locked: &Locked,
    span: u64,
    now: u64,
    yes: &mut u32,
) -> Result<(), Refusal>
    ensures takes { VoteTakes locked.now span now lease.now vote.old vote.new yes.new (returned result) }
    ensures refused { OnErr result ((vote.new ≡ vote.old) × (yes.new ≡ yes.old)) }
{
    let mut it = load_vote(vote)?;
    *yes = u32::from(it.takes(&load_lease(lease)?, locked, span, now));
    store_vote(&it, vote);
    Ok(())
}

/// Gives the vote back, whose grant has this number.
pub fn gives_back(vote: &mut [u8], number: u64) -> Result<(), Refusal>
    ensures gives { VoteBecomes (λ v. given_back v number) vote.old vote.new (returned result) }
    ensures refused { OnErr result (vote.new ≡ vote.old) }
{
    let mut it = load_vote(vote)?;
    it.gives_back(number);
    store_vote(&it, vote);
    Ok(())
}

/// Ends the request of this stamp.
pub fn ends(vote: &mut [u8], request: u64) -> Result<(), Refusal>
    ensures ends { VoteBecomes (λ v. ended v request) vote.old vote.new (returned result) }
    ensures refused { OnErr result (vote.new ≡ vote.old) }
{
    let mut it = load_vote(vote)?;
    it.ends(request);
    store_vote(&it, vote);
    Ok(())
}

/// Writes up to when the vote counts, and 0 if it does not count at all.
pub fn until(vote: &[u8], lease: &[u8], span: u64, end: &mut u64) -> Result<(), Refusal>
    ensures shows { VoteShowsEnd span lease.now vote.now end.new (returned result) }
    ensures refused { OnErr result (end.new ≡ end.old) }
{
    let it = load_vote(vote)?;
    *end = it.until(&load_lease(lease)?, span).unwrap_or(0);
    Ok(())
}
