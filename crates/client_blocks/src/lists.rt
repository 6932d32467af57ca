//! The votes of all voters, their leases, and a session's stamps at all voters, as bytes.
ghost use Rattle.std.specs.Prelude.{◌≡◌, [], IfErr, IfOk, IfSome, List, Some, length};
ghost use Rattle.arrayvec.specs.ArrayVec.{array_vec_len};
ghost use Rattle.numbers.specs.Bounds.{max_voters};
ghost use Rattle.vote_leases.specs.declared.lease.VoterLease.{VoterLease};
ghost use Rattle.vote_leases.specs.declared.vote.Vote.{Vote};
ghost use Rattle.own_stamps.specs.declared.stamps.OwnStamps.{OwnStamps};
ghost use Rattle.client_blocks.specs.Bytes.{AreAllStamps, AreLeases, AreNoLeases, AreNoVotes, AreNotAllStamps, AreVotes, leases_words, stamps_words, votes_words};

use arrayvec::ArrayVec;
use blocks::Refusal;
use numbers::MAX_VOTERS;
use own_stamps::OwnStamps;
use session_blocks::leases::lease_of;
use session_blocks::stamps::stamps_of;
use session_blocks::votes::vote_of;
use vote_leases::{Vote, VoterLease};
use words::{read_words, write_words};

/// How many bytes the votes of all voters have.
pub const VOTES_BYTES: usize = 4608;

/// How many bytes the leases of all voters have.
pub const LEASES_BYTES: usize = 2560;

/// How many bytes a session's stamps at all voters have.
pub const ALL_STAMPS_BYTES: usize = 2048;

/// Returns the votes with these numbers. `None` if they are not those of any.
fn votes_of(words: &[u64]) -> Option<[Vote; MAX_VOTERS]>
    requires { length words.now ≡ 576 }
    ensures text { IfSome result (λ vs. words.now ≡ votes_words vs) }
    ensures places { IfSome result (λ vs. length vs ≡ max_voters) }
    ensures read { (vs : List Vote) → length vs ≡ max_voters → words.now ≡ votes_words vs → result ≡ Some vs }
{
    let mut votes = [Vote::new(0); MAX_VOTERS];
    for place in 0..MAX_VOTERS {
        votes[place] = vote_of(&words[9 * place..9 * place + 9])?;
    }
    Some(votes)
}

/// Returns the votes that were saved as these bytes. Fails with `BadState` if there are none.
pub fn load_votes(bytes: &[u8]) -> Result<[Vote; MAX_VOTERS], Refusal>
    ensures loaded { IfOk result (AreVotes bytes.now) }
    // They are the only ones.
    ensures only { IfOk result (λ vs. (us : List Vote) → AreVotes bytes.now us → us ≡ vs) }
    ensures len { IfOk result (λ _. length bytes.now ≡ 4608) }
    ensures refused { IfErr result (λ r. (r ≡ Refusal.BadState) × AreNoVotes bytes.now) }
{
    if bytes.len() != VOTES_BYTES {
        return Err(Refusal::BadState);
    }
    let mut words = ArrayVec::<u64, 576>::new();
    read_words(bytes, &mut words);
    match votes_of(words.as_slice()) {
        Some(votes) => Ok(votes),
        None => Err(Refusal::BadState),
    }
}

/// Appends the numbers of votes to an empty list.
fn push_votes(votes: &[Vote; MAX_VOTERS], words: &mut ArrayVec<u64, 576>)
    requires { words.old.items ≡ [] }
    ensures numbers { words.new.items ≡ votes_words votes.now }
    ensures places { length votes.now ≡ max_voters }
    ensures len { array_vec_len words.new ≡ 576 }
{
    for vote in votes {
        let _ = words.try_extend_from_slice(&vote.save());
    }
}

/// Writes the bytes of votes.
pub fn store_votes(votes: &[Vote; MAX_VOTERS], bytes: &mut [u8])
    requires { length bytes.old ≡ 4608 }
    ensures { AreVotes bytes.new votes.now }
{
    let mut words = ArrayVec::new();
    push_votes(votes, &mut words);
    write_words(words.as_slice(), bytes);
}

/// Returns the leases with these numbers. `None` if they are not those of any.
fn leases_of(words: &[u64]) -> Option<[VoterLease; MAX_VOTERS]>
    requires { length words.now ≡ 320 }
    ensures text { IfSome result (λ ls. words.now ≡ leases_words ls) }
    ensures places { IfSome result (λ ls. length ls ≡ max_voters) }
    ensures read { (ls : List VoterLease) → length ls ≡ max_voters → words.now ≡ leases_words ls → result ≡ Some ls }
{
    let mut leases = [VoterLease::new(); MAX_VOTERS];
    for place in 0..MAX_VOTERS {
        leases[place] = lease_of(&words[5 * place..5 * place + 5])?;
    }
    Some(leases)
}

/// Returns the leases that were saved as these bytes. Fails with `BadState` if there are none.
pub fn load_leases(bytes: &[u8]) -> Result<[VoterLease; MAX_VOTERS], Refusal>
    ensures loaded { IfOk result (AreLeases bytes.now) }
    // They are the only ones.
    ensures only { IfOk result (λ ls. (ks : List VoterLease) → AreLeases bytes.now ks → ks ≡ ls) }
    ensures refused { IfErr result (λ r. (r ≡ Refusal.BadState) × AreNoLeases bytes.now) }
{
    if bytes.len() != LEASES_BYTES {
        return Err(Refusal::BadState);
    }
    let mut words = ArrayVec::<u64, 320>::new();
    read_words(bytes, &mut words);
    match leases_of(words.as_slice()) {
        Some(leases) => Ok(leases),
        None => Err(Refusal::BadState),
    }
}

/// Returns the stamps at all voters with these numbers. `None` if they are not those of any.
fn all_stamps_of(words: &[u64]) -> Option<[OwnStamps; MAX_VOTERS]>
    requires { length words.now ≡ 256 }
    ensures text { IfSome result (λ ss. words.now ≡ stamps_words ss) }
    ensures places { IfSome result (λ ss. length ss ≡ max_voters) }
    ensures read { (ss : List OwnStamps) → length ss ≡ max_voters → words.now ≡ stamps_words ss → result ≡ Some ss }
{
    let mut kept = [OwnStamps::new(); MAX_VOTERS];
    for place in 0..MAX_VOTERS {
        kept[place] = stamps_of(&words[4 * place..4 * place + 4])?;
    }
    Some(kept)
}

/// Returns the stamps at all voters that were saved as these bytes. Fails with `BadState` if there are none.
pub fn load_all_stamps(bytes: &[u8]) -> Result<[OwnStamps; MAX_VOTERS], Refusal>
    ensures loaded { IfOk result (AreAllStamps bytes.now) }
    // They are the only ones.
    ensures only { IfOk result (λ ss. (ts : List OwnStamps) → AreAllStamps bytes.now ts → ts ≡ ss) }
    ensures refused { IfErr result (λ r. (r ≡ Refusal.BadState) × AreNotAllStamps bytes.now) }
{
    if bytes.len() != ALL_STAMPS_BYTES {
        return Err(Refusal::BadState);
    }
    let mut words = ArrayVec::<u64, 256>::new();
    read_words(bytes, &mut words);
    match all_stamps_of(words.as_slice()) {
        Some(kept) => Ok(kept),
        None => Err(Refusal::BadState),
    }
}
