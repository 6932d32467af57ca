//! Voters, clients and guards as bytes.
ghost use Rattle.std.specs.Prelude.{◌≡◌, ◌≢◌, ◌∷◌, [], ℕ, List, IfErr, IfOk, length};
ghost use Rattle.arrayvec.specs.ArrayVec.{array_vec_len};
ghost use Rattle.numbers.specs.Bounds.{max_voters};
ghost use Rattle.requester.specs.declared.state.ClientState.{ClientState};
ghost use Rattle.voter.specs.declared.state.VoterState.{VoterState};
ghost use Rattle.lock_blocks.specs.Bytes.{AreGrants, IsClient, IsGuard, IsNoClient, IsNoVoter, IsVoter};

use arrayvec::ArrayVec;
use blocks::Refusal;
use fence::Fence;
use numbers::MAX_VOTERS;
use requester::Requester;
use voter::Voter;
use words::{read_words, write_words};

/// How many bytes a saved voter or a saved client has.
pub const STATE_BYTES: usize = 1104;

/// How many bytes a number for each of 64 voters takes.
pub const GRANTS_BYTES: usize = 512;

/// How many bytes a saved guard has.
pub const FENCE_BYTES: usize = 520;

/// Returns the voter that was saved as these bytes. Fails with `BadState` if there is none.
pub fn load_voter(state: &[u8]) -> Result<Voter, Refusal>
    ensures loaded { IfOk result (IsVoter state.now) }
    // It is the only one.
    ensures only { IfOk result (λ v. (w : VoterState) → IsVoter state.now w → w ≡ v) }
    ensures len { IfOk result (λ _. length state.now ≡ 1104) }
    ensures refused { IfErr result (λ r. (r ≡ Refusal.BadState) × IsNoVoter state.now) }
{
    if state.len() != STATE_BYTES {
        return Err(Refusal::BadState);
    }
    let mut words = ArrayVec::<u64, 138>::new();
    read_words(state, &mut words);
    match Voter::restore(words.as_slice()) {
        Some(voter) => Ok(voter),
        None => Err(Refusal::BadState),
    }
}

/// Writes the bytes of a voter.
pub fn store_voter(voter: &Voter, state: &mut [u8])
    requires { length state.old ≡ 1104 }
    ensures { IsVoter state.new voter.now }
{
    let mut words = ArrayVec::new();
    voter.save(&mut words);
    write_words(words.as_slice(), state);
}

/// Returns the client that was saved as these bytes. Fails with `BadState` if there is none.
pub fn load_client(state: &[u8]) -> Result<Requester, Refusal>
    ensures loaded { IfOk result (IsClient state.now) }
    // It is the only one.
    ensures only { IfOk result (λ x. (y : ClientState) → IsClient state.now y → y ≡ x) }
    ensures len { IfOk result (λ _. length state.now ≡ 1104) }
    ensures refused { IfErr result (λ r. (r ≡ Refusal.BadState) × IsNoClient state.now) }
{
    if state.len() != STATE_BYTES {
        return Err(Refusal::BadState);
    }
    let mut words = ArrayVec::<u64, 138>::new();
    read_words(state, &mut words);
    match Requester::restore(words.as_slice()) {
        Some(client) => Ok(client),
        None => Err(Refusal::BadState),
    }
}

/// Writes the bytes of a client.
pub fn store_client(client: &Requester, state: &mut [u8])
    requires { length state.old ≡ 1104 }
    ensures { IsClient state.new client.now }
{
    let mut words = ArrayVec::new();
    client.save(&mut words);
    write_words(words.as_slice(), state);
}

/// Returns the grants in these bytes. Fails with the given refusal unless there are 512 bytes.
pub fn load_grants(bytes: &[u8], refusal: Refusal) -> Result<[u64; MAX_VOTERS], Refusal>
    ensures loaded { IfOk result (AreGrants bytes.now) }
    // They are the only ones.
    ensures only { IfOk result (λ grants. (others : List ℕ) → AreGrants bytes.now others → others ≡ grants) }
    ensures len { IfOk result (λ _. length bytes.now ≡ 512) }
    ensures refused { IfErr result (λ r. (r ≡ refusal) × (length bytes.now ≢ 512)) }
{
    if bytes.len() != GRANTS_BYTES {
        return Err(refusal);
    }
    let mut words = ArrayVec::<u64, MAX_VOTERS>::new();
    read_words(bytes, &mut words);
    let mut grants = [0; MAX_VOTERS];
    grants.copy_from_slice(words.as_slice());
    Ok(grants)
}

/// Returns the guard that was saved as these bytes. Fails with `BadState` unless there are 520
/// bytes.
pub fn load_fence(state: &[u8]) -> Result<Fence, Refusal>
    ensures loaded { IfOk result (λ f. IsGuard state.now f.seen f.turn) }
    // It is the only one.
    ensures only { IfOk result (λ f. (seen : List ℕ) (turn : ℕ) → IsGuard state.now seen turn → turn ∷ seen ≡ f.turn ∷ f.seen) }
    ensures len { IfOk result (λ _. length state.now ≡ 520) }
    ensures refused { IfErr result (λ r. (r ≡ Refusal.BadState) × (length state.now ≢ 520)) }
{
    if state.len() != FENCE_BYTES {
        return Err(Refusal::BadState);
    }
    let mut words = ArrayVec::<u64, 65>::new();
    read_words(state, &mut words);
    Ok(fence_of(words.as_slice()))
}

/// Returns the guard with these numbers: its turn, and what it saw of each voter.
fn fence_of(words: &[u64]) -> Fence
    requires { length words.now ≡ 65 }
    ensures words { words.now ≡ result.turn ∷ result.seen }
    ensures places { length result.seen ≡ max_voters }
{
    let mut seen = [0; MAX_VOTERS];
    seen.copy_from_slice(&words[1..]);
    Fence {
        seen,
        turn: words[0],
    }
}

/// Writes the bytes of a guard.
pub fn store_fence(fence: &Fence, state: &mut [u8])
    requires { length state.old ≡ 520 }
    ensures { IsGuard state.new fence.now.seen fence.now.turn }
{
    let mut words = ArrayVec::new();
    push_fence(fence.turn, &fence.seen, &mut words);
    write_words(words.as_slice(), state);
}

/// Appends the numbers of a guard to an empty list.
fn push_fence(turn: u64, seen: &[u64; MAX_VOTERS], words: &mut ArrayVec<u64, 65>)
    requires { words.old.items ≡ [] }
    ensures words { words.new.items ≡ turn ∷ seen.now }
    ensures places { length seen.now ≡ max_voters }
    ensures len { array_vec_len words.new ≡ 65 }
{
    words.push(turn);
    let _ = words.try_extend_from_slice(seen);
}

/// Writes the bytes of these grants.
pub fn store_grants(grants: &[u64; MAX_VOTERS], bytes: &mut [u8])
    requires { length bytes.old ≡ 512 }
    ensures { AreGrants bytes.new grants.now }
{
    write_words(grants, bytes);
}
