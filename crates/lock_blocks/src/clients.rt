//! A client as bytes, and what its calls do.
ghost use Rattle.std.specs.Prelude.{◌≡◌, ◌≢◌, ◌<◌, ◌≤◌, [], IfErr, IfOk, OnErr, length, pos};
ghost use Rattle.message.specs.declared.message.ToClient.{ToClient};
ghost use Rattle.numbers.specs.Bounds.{max_voters};
ghost use Rattle.numbers.specs.Sets.{members_of};
ghost use Rattle.requester.specs.Leases.{anew};
ghost use Rattle.requester.specs.Saved.{phase_word};
ghost use Rattle.requester.specs.Steps as steps;
ghost use Rattle.lock_blocks.specs.Bytes.{IsClient};
ghost use Rattle.lock_blocks.specs.ClientSteps.{ClientDisclaims, ClientDoes, ClientForgets, ClientRaises, ClientReminds, ClientRenews, ClientShows, ClientShowsGrant, ClientShowsPass, ClientTakes, entered_number};
ghost use Rattle.lock_blocks.specs.FenceSteps.{grant_bytes};
ghost use Rattle.lock_blocks.specs.Lines.{IsToClient};
ghost use Rattle.lock_blocks.specs.Made.{AreInRange, AreWithin, IsMade};
ghost use Rattle.blocks.specs.Numbers.{refused, returned};

use crate::lines::put_to_voters;
use crate::saved_bytes::{GRANTS_BYTES, STATE_BYTES, load_client, store_client, store_grants};
use arrayvec::ArrayVec;
use blocks::Refusal;
use fence::pass_of;
use message::{Message, ToClient, read_message};
use numbers::{MAX_CLIENTS, MAX_LIMIT, MAX_VOTERS};
use quorum_set::QSet;
use requester::{Phase, Requester, Seen};

/// Reads the line of a message to the client with this number.
pub fn read_to_client(line: &[u8], id: u8) -> Result<ToClient, Refusal>
    ensures read { IfOk result (IsToClient line.now id) }
    // It is the only one.
    ensures only { IfOk result (λ m. (n : ToClient) → IsToClient line.now id n → n ≡ m) }
    ensures refused { IfErr result (λ r. (r ≡ Refusal.BadMessage) × ((n : ToClient) → IsToClient line.now id n → ⊥)) }
{
    match read_message(line) {
        Ok(Message::ToClient(message)) if message.client == id => Ok(message),
        _ => Err(Refusal::BadMessage),
    }
}

/// Writes 1 if the client entered in the step, else 0.
pub fn show_entry(seen: Seen, entered: &mut i32)
    ensures { entered.new ≡ entered_number seen }
{
    match seen {
        Seen::Entered => *entered = 1,
        Seen::Nothing | Seen::Left => *entered = 0,
    }
}

/// Makes a new client with this number, 0 to 63. Its stamps go from 1 to the limit, which is 1 to
/// 2^62.
pub fn new(id: u8, limit: u64, state: &mut [u8]) -> Result<(), Refusal>
    ensures made { IsMade (AreInRange id limit) state.old (IsClient state.new (steps.start id limit)) (returned result) }
    ensures refused { OnErr result (state.new ≡ state.old) }
{
    if usize::from(id) >= MAX_CLIENTS || limit < 1 || limit > MAX_LIMIT {
        return Err(Refusal::BadArgument);
    }
    if state.len() != STATE_BYTES {
        return Err(Refusal::BadState);
    }
    store_client(&Requester::new(id, limit), state);
    Ok(())
}

/// Starts a request for the votes of a quorum that is not empty.
fn ask_quorum(
    state: &mut [u8],
    quorum: &QSet,
    out: &mut [u8],
    written: &mut usize,
) -> Result<(), Refusal>
    requires { 1 ≤ length quorum.now }
    ensures asks { ClientDoes (λ x. steps.ask x quorum.now) state.old state.new out.old out.new written.new (returned result) }
    ensures refused { OnErr result ((state.new ≡ state.old) × (out.new ≡ out.old) × (written.new ≡ written.old)) }
{
    let mut client = load_client(state)?;
    let mut messages = ArrayVec::new();
    client.ask_into(quorum, &mut messages)?;
    put_to_voters(messages.as_slice(), out, written)?;
    store_client(&client, state);
    Ok(())
}

/// Starts a request for the votes of a quorum, voter i if bit i is 1, and writes the lines of what
/// to send.
pub fn ask(
    state: &mut [u8],
    quorum: u64,
    out: &mut [u8],
    written: &mut usize,
) -> Result<(), Refusal>
    ensures empty { members_of quorum ≡ [] → returned result ≡ refused Refusal.BadArgument }
    ensures asks { 1 ≤ length (members_of quorum) → ClientDoes (λ x. steps.ask x (members_of quorum))
        state.old state.new out.old out.new written.new (returned result) }
    ensures refused { OnErr result ((state.new ≡ state.old) × (out.new ≡ out.old) × (written.new ≡ written.old)) }
{
    let quorum = QSet::of_bits(quorum);
    if quorum.len() == 0 {
        return Err(Refusal::BadArgument);
    }
    ask_quorum(state, &quorum, out, written)
}

/// Takes the line of a message to this client, without its newline. Writes the lines of what to
/// send, and 1 to `entered` if the client got the lock, else 0.
pub fn take(
    state: &mut [u8],
    line: &[u8],
    out: &mut [u8],
    written: &mut usize,
    entered: &mut i32,
) -> Result<(), Refusal>
    ensures takes { ClientTakes state.old line.now state.new out.old out.new written.new entered.new (returned result) }
    ensures refused { OnErr result ((state.new ≡ state.old) × (out.new ≡ out.old) × (written.new ≡ written.old)
        × (entered.new ≡ entered.old)) }
{
    let mut client = load_client(state)?;
    let message = read_to_client(line, client.id())?;
    let mut messages = ArrayVec::new();
    let seen = client.take_into(&message, &mut messages);
    put_to_voters(messages.as_slice(), out, written)?;
    store_client(&client, state);
    show_entry(seen, entered);
    Ok(())
}

/// Leaves, and writes the lines of what to send.
pub fn leave(state: &mut [u8], out: &mut [u8], written: &mut usize) -> Result<(), Refusal>
    ensures leaves { ClientDoes steps.leave state.old state.new out.old out.new written.new (returned result) }
    ensures refused { OnErr result ((state.new ≡ state.old) × (out.new ≡ out.old) × (written.new ≡ written.old)) }
{
    let mut client = load_client(state)?;
    let mut messages = ArrayVec::new();
    client.leave_into(&mut messages)?;
    put_to_voters(messages.as_slice(), out, written)?;
    store_client(&client, state);
    Ok(())
}

/// Gives up the request, and writes the lines of what to send.
pub fn give_up(state: &mut [u8], out: &mut [u8], written: &mut usize) -> Result<(), Refusal>
    ensures gives_up { ClientDoes steps.give_up state.old state.new out.old out.new written.new (returned result) }
    ensures refused { OnErr result ((state.new ≡ state.old) × (out.new ≡ out.old) × (written.new ≡ written.old)) }
{
    let mut client = load_client(state)?;
    let mut messages = ArrayVec::new();
    client.give_up_into(&mut messages)?;
    put_to_voters(messages.as_slice(), out, written)?;
    store_client(&client, state);
    Ok(())
}

/// Writes the lines of what to send again while asking, in case messages were lost.
pub fn remind(state: &[u8], out: &mut [u8], written: &mut usize) -> Result<(), Refusal>
    ensures reminds { ClientReminds state.now out.old out.new written.new (returned result) }
    ensures refused { OnErr result ((out.new ≡ out.old) × (written.new ≡ written.old)) }
{
    let client = load_client(state)?;
    put_to_voters(client.remind().as_slice(), out, written)
}

/// Forgets all but the least that has to survive a crash. The client is then idle.
pub fn forget(state: &mut [u8]) -> Result<(), Refusal>
    ensures forgets { ClientForgets state.old state.new (returned result) }
    ensures refused { OnErr result (state.new ≡ state.old) }
{
    let mut client = load_client(state)?;
    client.forget();
    store_client(&client, state);
    Ok(())
}

/// Writes the phase (0 idle, 1 asking, 2 inside), and the stamp and the quorum of the current or
/// last request, 0 if there was none.
pub fn shows(
    state: &[u8],
    phase: &mut i32,
    stamp: &mut u64,
    quorum: &mut u64,
) -> Result<(), Refusal>
    ensures shows { ClientShows state.now phase.new stamp.new quorum.new (returned result) }
    ensures refused { OnErr result ((phase.new ≡ phase.old) × (stamp.new ≡ stamp.old) × (quorum.new ≡ quorum.old)) }
{
    let client = load_client(state)?;
    *phase = number_of_phase(client.phase());
    *stamp = client.stamp();
    *quorum = client.quorum_bits();
    Ok(())
}

/// Returns the number of a phase.
fn number_of_phase(phase: Phase) -> i32
    ensures { result ≡ pos (phase_word phase) }
{
    match phase {
        Phase::Idle => 0,
        Phase::Asking => 1,
        Phase::Inside => 2,
    }
}

/// Writes the grant under which the vote of this voter is held, 0 if it is not held.
pub fn grant(state: &[u8], voter: u8, grant: &mut u64) -> Result<(), Refusal>
    ensures bad_argument { max_voters ≤ voter → returned result ≡ refused Refusal.BadArgument }
    ensures shows { voter < max_voters → ClientShowsGrant state.now voter grant.new (returned result) }
    ensures refused { OnErr result (grant.new ≡ grant.old) }
{
    if usize::from(voter) >= MAX_VOTERS {
        return Err(Refusal::BadArgument);
    }
    let client = load_client(state)?;
    *grant = client.held(voter).unwrap_or(0);
    Ok(())
}

/// Writes the pass of a client that is inside, 512 bytes: the grants by which it has its votes, of
/// each voter a number of 64 bits, 0 if its vote is not held.
pub fn pass(state: &[u8], pass: &mut [u8]) -> Result<(), Refusal>
    ensures bad_argument { length pass.old ≢ grant_bytes → returned result ≡ refused Refusal.BadArgument }
    ensures shows { length pass.old ≡ grant_bytes → ClientShowsPass state.now pass.new (returned result) }
    ensures refused { OnErr result (pass.new ≡ pass.old) }
{
    if pass.len() != GRANTS_BYTES {
        return Err(Refusal::BadArgument);
    }
    let client = load_client(state)?;
    match pass_of(&client) {
        Some(shown) => {
            store_grants(shown.grants(), pass);
            Ok(())
        }
        None => Err(Refusal::NotInside),
    }
}

/// Makes a client that lost its state, with a clock that is at least the stamp of its last request
/// and at most the limit.
pub fn anew(id: u8, limit: u64, clock: u64, state: &mut [u8]) -> Result<(), Refusal>
    ensures made { IsMade (AreWithin id limit clock) state.old (IsClient state.new (anew id limit clock)) (returned result) }
    ensures refused { OnErr result (state.new ≡ state.old) }
{
    if usize::from(id) >= MAX_CLIENTS || limit < 1 || limit > MAX_LIMIT || clock > limit {
        return Err(Refusal::BadArgument);
    }
    if state.len() != STATE_BYTES {
        return Err(Refusal::BadState);
    }
    store_client(&Requester::anew(id, limit, clock), state);
    Ok(())
}

/// Raises the clock to this stamp, if it is behind.
pub fn raise(state: &mut [u8], clock: u64) -> Result<(), Refusal>
    ensures raises { ClientRaises state.old clock state.new (returned result) }
    ensures refused { OnErr result (state.new ≡ state.old) }
{
    let mut client = load_client(state)?;
    client.raise(clock);
    store_client(&client, state);
    Ok(())
}

/// Writes the lines of what an idle client sends to end all its requests at these voters, voter i
/// if bit i is 1.
pub fn disclaim(
    state: &[u8],
    voters: u64,
    out: &mut [u8],
    written: &mut usize,
) -> Result<(), Refusal>
    ensures disclaims { ClientDisclaims state.now (members_of voters) out.old out.new written.new (returned result) }
    ensures refused { OnErr result ((out.new ≡ out.old) × (written.new ≡ written.old)) }
{
    let client = load_client(state)?;
    let messages = client.disclaim(&QSet::of_bits(voters))?;
    put_to_voters(messages.as_slice(), out, written)
}

/// Writes the lines of what a client that is inside sends as a sign of life.
pub fn renew(state: &[u8], out: &mut [u8], written: &mut usize) -> Result<(), Refusal>
    ensures renews { ClientRenews state.now out.old out.new written.new (returned result) }
    ensures refused { OnErr result ((out.new ≡ out.old) × (written.new ≡ written.old)) }
{
    let client = load_client(state)?;
    put_to_voters(client.renew().as_slice(), out, written)
}
