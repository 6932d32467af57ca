//! A session's lock as three blocks of bytes, and what its calls do.
ghost use Rattle.std.specs.Prelude.{◌≡◌, ◌≤◌, [], IfErr, IfOk, OnErr, length};
ghost use Rattle.numbers.specs.Sets.{members_of};
ghost use Rattle.callers.specs.Calls.{call_fault, wanted};
ghost use Rattle.client_node.specs.Locks.{Lock, give_up_lock, leave_lock, phase_of, with_calls};
ghost use Rattle.session_blocks.specs.SessionSteps.{fault_number};
ghost use Rattle.client_blocks.specs.Bytes.{IsLock, IsNoLock};
ghost use Rattle.client_blocks.specs.HeldSteps.{LockAsks, LockEnds, LockHands, LockIsWanted, LockRefusesTries, LockShowsDoubt, LockShowsEnd, LockShowsNext, LockShowsSpoiled, LockTakes, lock_refusal};
ghost use Rattle.blocks.specs.Numbers.{refused, returned};

use crate::lists::{load_leases, load_votes, store_votes};
use arrayvec::ArrayVec;
use blocks::Refusal;
use client_node::{LockClient, LockFault};
use lock_blocks::clients::{read_to_client, show_entry};
use lock_blocks::lines::put_to_voters;
use lock_blocks::saved_bytes::{load_client, store_client};
use quorum_set::QSet;
use session_blocks::own_calls::{load_calls, number_of_fault, number_of_next, store_calls};
use vote_leases::Incarnation;

/// Returns the lock that was saved as these blocks. Fails with `BadState` if there is none.
fn load_lock(client: &[u8], votes: &[u8], calls: &[u8]) -> Result<LockClient, Refusal>
    ensures loaded { IfOk result (IsLock client.now votes.now calls.now) }
    // It is the only one.
    ensures only { IfOk result (λ l. (m : Lock) → IsLock client.now votes.now calls.now m → m ≡ l) }
    ensures client_len { IfOk result (λ _. length client.now ≡ 1104) }
    ensures votes_len { IfOk result (λ _. length votes.now ≡ 4608) }
    ensures calls_len { IfOk result (λ _. length calls.now ≡ 56) }
    ensures refused { IfErr result (λ r. (r ≡ Refusal.BadState) × IsNoLock client.now votes.now calls.now) }
{
    let client = load_client(client)?;
    let votes = load_votes(votes)?;
    let calls = load_calls(calls)?;
    match LockClient::of(client, votes, calls) {
        Some(lock) => Ok(lock),
        None => Err(Refusal::BadState),
    }
}

/// Writes up to when all votes of the quorum count, and 0 if they do not.
pub fn until(
    client: &[u8],
    votes: &[u8],
    calls: &[u8],
    leases: &[u8],
    span: u64,
    end: &mut u64,
) -> Result<(), Refusal>
    ensures shows { LockShowsEnd client.now votes.now calls.now leases.now span end.new (returned result) }
    ensures refused { OnErr result (end.new ≡ end.old) }
{
    let lock = load_lock(client, votes, calls)?;
    let leases = load_leases(leases)?;
    *end = lock.until(&leases, span).unwrap_or(0);
    Ok(())
}

/// Writes what the session has to do next for the calls, at this time.
pub fn next(
    client: &[u8],
    votes: &[u8],
    calls: &[u8],
    leases: &[u8],
    since: &[u64],
    span: u64,
    now: u64,
    next: &mut u32,
) -> Result<(), Refusal>
    ensures shows { LockShowsNext client.now votes.now calls.now leases.now since.now span now next.new (returned result) }
    ensures refused { OnErr result (next.new ≡ next.old) }
{
    let lock = load_lock(client, votes, calls)?;
    let leases = load_leases(leases)?;
    *next = number_of_next(lock.next(&leases, since, span, now));
    Ok(())
}

/// Writes 1 if one of the votes of the quorum may be somebody else's at this time, and 0 if not.
pub fn is_doubtful(
    client: &[u8],
    votes: &[u8],
    calls: &[u8],
    leases: &[u8],
    since: &[u64],
    span: u64,
    now: u64,
    yes: &mut u32,
) -> Result<(), Refusal>
    ensures shows { LockShowsDoubt client.now votes.now calls.now leases.now since.now span now yes.new (returned result) }
    ensures refused { OnErr result (yes.new ≡ yes.old) }
{
    let lock = load_lock(client, votes, calls)?;
    let leases = load_leases(leases)?;
    *yes = u32::from(lock.is_doubtful(&leases, since, span, now));
    Ok(())
}

/// Writes what the session has to do if a vote may be somebody else's.
pub fn spoiled(client: &[u8], votes: &[u8], calls: &[u8], next: &mut u32) -> Result<(), Refusal>
    ensures shows { LockShowsSpoiled client.now votes.now calls.now next.new (returned result) }
    ensures refused { OnErr result (next.new ≡ next.old) }
{
    let lock = load_lock(client, votes, calls)?;
    *next = number_of_next(lock.spoiled());
    Ok(())
}

/// Hands the lock to the first call that waits, if all votes count now. Writes up to when that has it, and 0 if it was not handed the
/// lock: then nothing changes.
pub fn hand(
    client: &[u8],
    votes: &[u8],
    calls: &mut [u8],
    leases: &[u8],
    span: u64,
    now: u64,
    end: &mut u64,
) -> Result<(), Refusal>
    ensures hands { LockHands client.now votes.now leases.now span now calls.old calls.new end.new (returned result) }
    ensures refused { OnErr result ((calls.new ≡ calls.old) × (end.new ≡ end.old)) }
{
    let mut lock = load_lock(client, votes, calls)?;
    let leases = load_leases(leases)?;
    *end = lock.hand(&leases, span, now).unwrap_or(0);
    store_calls(lock.calls(), calls);
    Ok(())
}

/// Takes a call that comes. Returns 0 if it is taken, and else why it is refused.
fn want(lock: &mut LockClient, tries: bool) -> u32
    ensures wanted { lock.new ≡ with_calls lock.old (wanted lock.old.calls (phase_of lock.old.client) tries) }
    ensures why { result ≡ fault_number (call_fault lock.old.calls (phase_of lock.old.client) tries) }
{
    number_of_fault(lock.wants(tries).err())
}

/// Takes a call that comes. Writes 0 if it is taken, and else why it is refused: then nothing changes.
pub fn wants(
    client: &[u8],
    votes: &[u8],
    calls: &mut [u8],
    tries: bool,
    why: &mut u32,
) -> Result<(), Refusal>
    ensures wants { LockIsWanted client.now votes.now tries calls.old calls.new why.new (returned result) }
    ensures refused { OnErr result ((calls.new ≡ calls.old) × (why.new ≡ why.old)) }
{
    let mut lock = load_lock(client, votes, calls)?;
    *why = want(&mut lock, tries);
    store_calls(lock.calls(), calls);
    Ok(())
}

/// Notes that somebody else has the lock. Writes 1 if that ends a call that only tries, and 0 if not.
pub fn refuses_tries(
    client: &[u8],
    votes: &[u8],
    calls: &mut [u8],
    yes: &mut u32,
) -> Result<(), Refusal>
    ensures refuses { LockRefusesTries client.now votes.now calls.old calls.new yes.new (returned result) }
    ensures refused { OnErr result ((calls.new ≡ calls.old) × (yes.new ≡ yes.old)) }
{
    let mut lock = load_lock(client, votes, calls)?;
    *yes = u32::from(lock.refuses_tries());
    store_calls(lock.calls(), calls);
    Ok(())
}

/// Returns the refusal of a request that does not end.
fn refusal_of(fault: LockFault) -> Refusal
    ensures { result ≡ lock_refusal fault }
{
    match fault {
        LockFault::HasLock => Refusal::Busy,
        LockFault::OfClient(fault) => Refusal::from(fault),
    }
}

/// Leaves, and writes the lines of what to send.
pub fn leave(
    client: &mut [u8],
    votes: &mut [u8],
    calls: &[u8],
    out: &mut [u8],
    written: &mut usize,
) -> Result<(), Refusal>
    ensures ends { LockEnds leave_lock calls.now client.old client.new votes.old votes.new out.old out.new written.new (returned result) }
    ensures refused { OnErr result ((client.new ≡ client.old) × (votes.new ≡ votes.old) × (out.new ≡ out.old) × (written.new ≡ written.old)) }
{
    let mut lock = load_lock(client, votes, calls)?;
    let mut messages = ArrayVec::new();
    match lock.leave(&mut messages) {
        Ok(_) => {}
        Err(fault) => return Err(refusal_of(fault)),
    }
    put_to_voters(messages.as_slice(), out, written)?;
    store_client(lock.client(), client);
    store_votes(lock.votes(), votes);
    Ok(())
}

/// Gives up the request, and writes the lines of what to send.
pub fn give_up(
    client: &mut [u8],
    votes: &mut [u8],
    calls: &[u8],
    out: &mut [u8],
    written: &mut usize,
) -> Result<(), Refusal>
    ensures ends { LockEnds give_up_lock calls.now client.old client.new votes.old votes.new out.old out.new written.new (returned result) }
    ensures refused { OnErr result ((client.new ≡ client.old) × (votes.new ≡ votes.old) × (out.new ≡ out.old) × (written.new ≡ written.old)) }
{
    let mut lock = load_lock(client, votes, calls)?;
    let mut messages = ArrayVec::new();
    match lock.give_up(&mut messages) {
        Ok(_) => {}
        Err(fault) => return Err(refusal_of(fault)),
    }
    put_to_voters(messages.as_slice(), out, written)?;
    store_client(lock.client(), client);
    store_votes(lock.votes(), votes);
    Ok(())
}

/// Starts a request for the votes of a quorum that is not empty.
fn ask_quorum(
    client: &mut [u8],
    votes: &mut [u8],
    calls: &[u8],
    quorum: &QSet,
    out: &mut [u8],
    written: &mut usize,
) -> Result<(), Refusal>
    requires { 1 ≤ length quorum.now }
    ensures asks { LockAsks quorum.now calls.now client.old client.new votes.old votes.new out.old out.new written.new (returned result) }
    ensures refused { OnErr result ((client.new ≡ client.old) × (votes.new ≡ votes.old) × (out.new ≡ out.old) × (written.new ≡ written.old)) }
{
    let mut lock = load_lock(client, votes, calls)?;
    let mut messages = ArrayVec::new();
    match lock.ask(quorum, &mut messages) {
        Ok(_) => {}
        Err(fault) => return Err(Refusal::from(fault)),
    }
    put_to_voters(messages.as_slice(), out, written)?;
    store_client(lock.client(), client);
    store_votes(lock.votes(), votes);
    Ok(())
}

/// Starts a request for the votes of a quorum, voter i if bit i is 1, and writes the lines of what to send.
pub fn ask(
    client: &mut [u8],
    votes: &mut [u8],
    calls: &[u8],
    quorum: u64,
    out: &mut [u8],
    written: &mut usize,
) -> Result<(), Refusal>
    ensures empty { members_of quorum ≡ [] → returned result ≡ refused Refusal.BadArgument }
    ensures asks { 1 ≤ length (members_of quorum) → LockAsks (members_of quorum) calls.now
        client.old client.new votes.old votes.new out.old out.new written.new (returned result) }
    ensures refused { OnErr result ((client.new ≡ client.old) × (votes.new ≡ votes.old) × (out.new ≡ out.old) × (written.new ≡ written.old)) }
{
    let quorum = QSet::of_bits(quorum);
    if quorum.len() == 0 {
        return Err(Refusal::BadArgument);
    }
    ask_quorum(client, votes, calls, &quorum, out, written)
}

/// Takes the line of a message to the client, without its newline, whose header says this incarnation, at this time. Writes the lines of
/// what to send, and 1 to `entered` if the client got the lock, else 0.
pub fn take(
    client: &mut [u8],
    votes: &mut [u8],
    calls: &[u8],
    leases: &[u8],
    span: u64,
    now: u64,
    incarnation: Incarnation,
    line: &[u8],
    out: &mut [u8],
    written: &mut usize,
    entered: &mut i32,
) -> Result<(), Refusal>
    ensures takes { LockTakes incarnation span now leases.now line.now calls.now client.old client.new votes.old votes.new out.old out.new written.new entered.new (returned result) }
    ensures refused { OnErr result ((client.new ≡ client.old) × (votes.new ≡ votes.old) × (out.new ≡ out.old) × (written.new ≡ written.old)
        × (entered.new ≡ entered.old)) }
{
    let mut lock = load_lock(client, votes, calls)?;
    let leases = load_leases(leases)?;
    let message = read_to_client(line, lock.client().id())?;
    let mut messages = ArrayVec::new();
    let seen = lock.take(&message, incarnation, &leases, span, now, &mut messages);
    put_to_voters(messages.as_slice(), out, written)?;
    store_client(lock.client(), client);
    store_votes(lock.votes(), votes);
    show_entry(seen, entered);
    Ok(())
}
