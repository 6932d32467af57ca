//! A voter as bytes, and what its calls do.
ghost use Rattle.std.specs.Prelude.{◌≡◌, ◌<◌, ◌≤◌, IfErr, IfOk, OnErr};
ghost use Rattle.message.specs.declared.message.ToVoter.{ToVoter};
ghost use Rattle.numbers.specs.Bounds.{max_clients};
ghost use Rattle.voter.specs.Leases.{reborn};
ghost use Rattle.voter.specs.Steps.{start};
ghost use Rattle.lock_blocks.specs.Bytes.{IsVoter};
ghost use Rattle.lock_blocks.specs.Lines.{IsToVoter};
ghost use Rattle.lock_blocks.specs.Made.{AreInRange, AreWithin, IsMade};
ghost use Rattle.blocks.specs.Numbers.{refused, returned};
ghost use Rattle.lock_blocks.specs.VoterSteps.{IsHeldBy, VoterEvicts, VoterExtends, VoterForgets, VoterMustSave, VoterRaises, VoterReminds, VoterShowsClient, VoterShowsHolder, VoterTakes};

use crate::lines::put_to_clients;
use crate::saved_bytes::{STATE_BYTES, load_voter, store_voter};
use arrayvec::ArrayVec;
use blocks::Refusal;
use message::{Message, ToVoter, read_message};
use numbers::{MAX_CLIENTS, MAX_LIMIT, MAX_VOTERS};
use voter::{Grant, Voter};

/// Reads the line of a message to the voter with this number.
pub fn read_to_voter(line: &[u8], id: u8) -> Result<ToVoter, Refusal>
    ensures read { IfOk result (IsToVoter line.now id) }
    // It is the only one.
    ensures only { IfOk result (λ m. (n : ToVoter) → IsToVoter line.now id n → n ≡ m) }
    ensures refused { IfErr result (λ r. (r ≡ Refusal.BadMessage) × ((n : ToVoter) → IsToVoter line.now id n → ⊥)) }
{
    match read_message(line) {
        Ok(Message::ToVoter(message)) if message.voter == id => Ok(message),
        _ => Err(Refusal::BadMessage),
    }
}

/// Makes a new voter with this number, 0 to 63, that may give `limit` grants, 1 to 2^62.
pub fn new(id: u8, limit: u64, state: &mut [u8]) -> Result<(), Refusal>
    ensures made { IsMade (AreInRange id limit) state.old (IsVoter state.new (start id limit)) (returned result) }
    ensures refused { OnErr result (state.new ≡ state.old) }
{
    if usize::from(id) >= MAX_VOTERS || limit < 1 || limit > MAX_LIMIT {
        return Err(Refusal::BadArgument);
    }
    if state.len() != STATE_BYTES {
        return Err(Refusal::BadState);
    }
    store_voter(&Voter::new(id, limit), state);
    Ok(())
}

/// Takes the line of a message to this voter, without its newline, and writes the lines of the
/// replies.
pub fn take(
    state: &mut [u8],
    line: &[u8],
    out: &mut [u8],
    written: &mut usize,
) -> Result<(), Refusal>
    ensures takes { VoterTakes state.old line.now state.new out.old out.new written.new (returned result) }
    ensures refused { OnErr result ((state.new ≡ state.old) × (out.new ≡ out.old) × (written.new ≡ written.old)) }
{
    let mut voter = load_voter(state)?;
    let message = read_to_voter(line, voter.id())?;
    let mut replies = ArrayVec::new();
    voter.take_into(&message, &mut replies)?;
    put_to_clients(replies.as_slice(), out, written)?;
    store_voter(&voter, state);
    Ok(())
}

/// Writes the lines of what to send to the holder again, in case messages were lost.
pub fn remind(state: &[u8], out: &mut [u8], written: &mut usize) -> Result<(), Refusal>
    ensures reminds { VoterReminds state.now out.old out.new written.new (returned result) }
    ensures refused { OnErr result ((out.new ≡ out.old) × (written.new ≡ written.old)) }
{
    let voter = load_voter(state)?;
    put_to_clients(voter.remind().as_slice(), out, written)
}

/// Writes the client, the stamp and the number of a grant, three times 0 if there is none.
pub fn show_grant(held: Option<Grant>, client: &mut u64, stamp: &mut u64, grant: &mut u64)
    ensures { IsHeldBy held client.new stamp.new grant.new }
{
    match held {
        Some(it) => {
            *client = u64::from(it.client);
            *stamp = it.stamp;
            *grant = it.grant;
        }
        None => {
            *client = 0;
            *stamp = 0;
            *grant = 0;
        }
    }
}

/// Writes the client, the stamp and the number of the grant that holds the vote, three times 0 if
/// the vote is free.
pub fn held(state: &[u8], client: &mut u64, stamp: &mut u64, grant: &mut u64) -> Result<(), Refusal>
    ensures shows { VoterShowsHolder state.now client.new stamp.new grant.new (returned result) }
    ensures refused { OnErr result
        ((client.new ≡ client.old) × (stamp.new ≡ stamp.old) × (grant.new ≡ grant.old)) }
{
    let voter = load_voter(state)?;
    show_grant(voter.held(), client, stamp, grant);
    Ok(())
}

/// Makes a voter that lost its state. It gave at most `above` grants before, and may give `limit`
/// grants in all, 1 to 2^62.
pub fn reborn(id: u8, above: u64, limit: u64, state: &mut [u8]) -> Result<(), Refusal>
    ensures made { IsMade (AreWithin id limit above) state.old (IsVoter state.new (reborn id above limit)) (returned result) }
    ensures refused { OnErr result (state.new ≡ state.old) }
{
    if usize::from(id) >= MAX_VOTERS || limit < 1 || limit > MAX_LIMIT || above > limit {
        return Err(Refusal::BadArgument);
    }
    if state.len() != STATE_BYTES {
        return Err(Refusal::BadState);
    }
    store_voter(&Voter::reborn(id, above, limit), state);
    Ok(())
}

/// Raises the number of grants that the voter may give, up to 2^62.
pub fn extend(state: &mut [u8], limit: u64) -> Result<(), Refusal>
    ensures extends { VoterExtends state.old limit state.new (returned result) }
    ensures refused { OnErr result (state.new ≡ state.old) }
{
    let mut voter = load_voter(state)?;
    if limit < voter.limit() || limit > MAX_LIMIT {
        return Err(Refusal::BadArgument);
    }
    voter.extend(limit);
    store_voter(&voter, state);
    Ok(())
}

/// Skips the numbers up to `above`, from the number of grants to the limit: each later grant has a
/// greater one. A grant that is held stays.
pub fn raise(state: &mut [u8], above: u64) -> Result<(), Refusal>
    ensures raises { VoterRaises state.old above state.new (returned result) }
    ensures refused { OnErr result (state.new ≡ state.old) }
{
    let mut voter = load_voter(state)?;
    if above < voter.granted() || above > voter.limit() {
        return Err(Refusal::BadArgument);
    }
    voter.raise(above);
    store_voter(&voter, state);
    Ok(())
}

/// Lets the current grant go if it has this number, and writes the lines of the replies.
pub fn evict(
    state: &mut [u8],
    grant: u64,
    out: &mut [u8],
    written: &mut usize,
) -> Result<(), Refusal>
    ensures evicts { VoterEvicts state.old grant state.new out.old out.new written.new (returned result) }
    ensures refused { OnErr result ((state.new ≡ state.old) × (out.new ≡ out.old) × (written.new ≡ written.old)) }
{
    let mut voter = load_voter(state)?;
    let replies = voter.evict(grant)?;
    put_to_clients(replies.as_slice(), out, written)?;
    store_voter(&voter, state);
    Ok(())
}

/// Writes what the voter knows of a client: the stamp that has the vote or waits, 0 for none, the
/// highest stamp that is finished, and the highest stamp that the voter saw of anybody.
pub fn knows(
    state: &[u8],
    client: u8,
    stamp: &mut u64,
    finished: &mut u64,
    seen: &mut u64,
) -> Result<(), Refusal>
    ensures bad_argument { max_clients ≤ client → returned result ≡ refused Refusal.BadArgument }
    ensures shows { client < max_clients
        → VoterShowsClient state.now client stamp.new finished.new seen.new (returned result) }
    ensures refused { OnErr result
        ((stamp.new ≡ stamp.old) × (finished.new ≡ finished.old) × (seen.new ≡ seen.old)) }
{
    if usize::from(client) >= MAX_CLIENTS {
        return Err(Refusal::BadArgument);
    }
    let voter = load_voter(state)?;
    *stamp = voter.known(client).unwrap_or(0);
    *finished = voter.finished(client);
    *seen = voter.seen();
    Ok(())
}

/// Forgets all but the least that has to survive a crash: the grant that holds the vote, and the
/// number of grants.
pub fn forget(state: &mut [u8]) -> Result<(), Refusal>
    ensures forgets { VoterForgets state.old state.new (returned result) }
    ensures refused { OnErr result (state.new ≡ state.old) }
{
    let mut voter = load_voter(state)?;
    voter.forget();
    store_voter(&voter, state);
    Ok(())
}

/// Writes 1 if a voter that was saved as `saved` and is now `live` has to be saved before its
/// messages leave, where it forgets at each restart, and 0 if not.
pub fn must_save(saved: &[u8], live: &[u8], yes: &mut i32) -> Result<(), Refusal>
    ensures says { VoterMustSave saved.now live.now yes.new (returned result) }
    ensures refused { OnErr result (yes.new ≡ yes.old) }
{
    let saved = load_voter(saved)?;
    let live = load_voter(live)?;
    *yes = i32::from(voter_node::must_save(&saved, &live));
    Ok(())
}
