//! The calls of a session's lock, whole: its client, the votes of all voters, and the calls for it.
ghost use Rattle.std.specs.Prelude.{◌≡◌, ◌≢◌, ◌≤◌, [], length};
ghost use Rattle.numbers.specs.Sets.{members_of};
ghost use Rattle.client_node.specs.Locks.{give_up_lock, leave_lock};
ghost use Rattle.client_blocks.specs.HeldSteps.{LockAsks, LockEnds, LockHands, LockIsWanted, LockRefusesTries, LockShowsDoubt, LockShowsEnd, LockShowsNext, LockShowsSpoiled, LockTakes};
ghost use Rattle.blocks.specs.Numbers.{done, refused};
ghost use Rattle.blocks.specs.RowSteps.{is_yes};

use blocks::{Refusal, number_of};
use client_blocks::locks;
use vote_leases::Incarnation;

/// Writes up to when all votes of the quorum count for the request that runs, and 0 if they do not, or none runs.
#[unsafe(no_mangle)]
pub extern "C" fn qlock_held_until(
    client: &[u8],
    votes: &[u8],
    calls: &[u8],
    leases: &[u8],
    span: u64,
    end: &mut u64,
) -> i32
    // A call that is refused writes nothing.
    ensures refused { result ≢ done → end.new ≡ end.old }
    ensures shows { LockShowsEnd client.now votes.now calls.now leases.now span end.new result }
{
    number_of(locks::until(client, votes, calls, leases, span, end))
}

/// Writes what the session has to do next for the calls, at this time: 0 nothing, 1 ask, 2 give up, 3 leave, 4 hand the lock to the first
/// call that waits. The incarnation of voter v is known since `since[v]`.
#[unsafe(no_mangle)]
pub extern "C" fn qlock_held_next(
    client: &[u8],
    votes: &[u8],
    calls: &[u8],
    leases: &[u8],
    since: &[u64],
    span: u64,
    now: u64,
    next: &mut u32,
) -> i32
    ensures refused { result ≢ done → next.new ≡ next.old }
    ensures shows { LockShowsNext client.now votes.now calls.now leases.now since.now span now next.new result }
{
    number_of(locks::next(client, votes, calls, leases, since, span, now, next))
}

/// Writes 1 if a vote that the session has may be somebody else's at this time, and 0 if not. The incarnation of voter v is known since
/// `since[v]`.
#[unsafe(no_mangle)]
pub extern "C" fn qlock_held_is_doubtful(
    client: &[u8],
    votes: &[u8],
    calls: &[u8],
    leases: &[u8],
    since: &[u64],
    span: u64,
    now: u64,
    yes: &mut u32,
) -> i32
    ensures refused { result ≢ done → yes.new ≡ yes.old }
    ensures shows { LockShowsDoubt client.now votes.now calls.now leases.now since.now span now yes.new result }
{
    number_of(locks::is_doubtful(client, votes, calls, leases, since, span, now, yes))
}

/// Writes what the session has to do if a vote that it has may be somebody else's: 0 nothing, 2 give up, 3 leave, 5 tell the call that has
/// the lock that it may be lost.
#[unsafe(no_mangle)]
pub extern "C" fn qlock_held_spoiled(
    client: &[u8],
    votes: &[u8],
    calls: &[u8],
    next: &mut u32,
) -> i32
    ensures refused { result ≢ done → next.new ≡ next.old }
    ensures shows { LockShowsSpoiled client.now votes.now calls.now next.new result }
{
    number_of(locks::spoiled(client, votes, calls, next))
}

/// Hands the lock to the first call that waits, if all votes of the quorum count at this time. Writes up to when the call has it, and 0 if it
/// was not handed the lock: then nothing changes.
#[unsafe(no_mangle)]
pub extern "C" fn qlock_held_hand(
    client: &[u8],
    votes: &[u8],
    calls: &mut [u8],
    leases: &[u8],
    span: u64,
    now: u64,
    end: &mut u64,
) -> i32
    ensures refused { result ≢ done → (calls.new ≡ calls.old) × (end.new ≡ end.old) }
    ensures hands { LockHands client.now votes.now leases.now span now calls.old calls.new end.new result }
{
    number_of(locks::hand(client, votes, calls, leases, span, now, end))
}

/// Takes a call that comes. Writes 0 if it is taken, and else why it is refused: 1 if the session is closed, 2 if the call only tries and
/// cannot be the first, and 3 if too many wait. Then nothing changes.
#[unsafe(no_mangle)]
pub extern "C" fn qlock_held_wants(
    client: &[u8],
    votes: &[u8],
    calls: &mut [u8],
    tries: u32,
    why: &mut u32,
) -> i32
    ensures refused { result ≢ done → (calls.new ≡ calls.old) × (why.new ≡ why.old) }
    ensures wants { LockIsWanted client.now votes.now (is_yes tries) calls.old calls.new why.new result }
{
    number_of(locks::wants(client, votes, calls, tries != 0, why))
}

/// Notes that somebody else has the lock. Writes 1 if that ends a call that only tries, and 0 if not.
#[unsafe(no_mangle)]
pub extern "C" fn qlock_held_refuses_tries(
    client: &[u8],
    votes: &[u8],
    calls: &mut [u8],
    yes: &mut u32,
) -> i32
    ensures refused { result ≢ done → (calls.new ≡ calls.old) × (yes.new ≡ yes.old) }
    ensures refuses { LockRefusesTries client.now votes.now calls.old calls.new yes.new result }
{
    number_of(locks::refuses_tries(client, votes, calls, yes))
}

/// Starts a request for the votes of a quorum, voter i if bit i is 1, and writes the lines of what to send.
#[unsafe(no_mangle)]
pub extern "C" fn qlock_held_ask(
    client: &mut [u8],
    votes: &mut [u8],
    calls: &[u8],
    quorum: u64,
    out: &mut [u8],
    written: &mut usize,
) -> i32
    ensures refused { result ≢ done → (client.new ≡ client.old) × (votes.new ≡ votes.old) × (out.new ≡ out.old) × (written.new ≡ written.old) }
    ensures empty { members_of quorum ≡ [] → result ≡ refused Refusal.BadArgument }
    ensures asks { 1 ≤ length (members_of quorum) → LockAsks (members_of quorum) calls.now
        client.old client.new votes.old votes.new out.old out.new written.new result }
{
    number_of(locks::ask(client, votes, calls, quorum, out, written))
}

/// Takes the line of a message to the client, without its newline, whose header says this incarnation, at this time. Writes the lines of
/// what to send, and 1 to `entered` if the client got the lock, else 0.
#[unsafe(no_mangle)]
pub extern "C" fn qlock_held_take(
    client: &mut [u8],
    votes: &mut [u8],
    calls: &[u8],
    leases: &[u8],
    span: u64,
    now: u64,
    run: u64,
    start: u64,
    lapses: u64,
    line: &[u8],
    out: &mut [u8],
    written: &mut usize,
    entered: &mut i32,
) -> i32
    ensures refused { result ≢ done → (client.new ≡ client.old) × (votes.new ≡ votes.old) × (out.new ≡ out.old) × (written.new ≡ written.old)
        × (entered.new ≡ entered.old) }
    ensures takes { LockTakes (record { run = run; start = start; lapses = lapses }) span now leases.now line.now calls.now
        client.old client.new votes.old votes.new out.old out.new written.new entered.new result }
{
    let incarnation = Incarnation { run, start, lapses };
    number_of(locks::take(
        client,
        votes,
        calls,
        leases,
        span,
        now,
        incarnation,
        line,
        out,
        written,
        entered,
    ))
}

/// Leaves, and writes the lines of what to send. Refused while a call has the lock.
#[unsafe(no_mangle)]
pub extern "C" fn qlock_held_leave(
    client: &mut [u8],
    votes: &mut [u8],
    calls: &[u8],
    out: &mut [u8],
    written: &mut usize,
) -> i32
    ensures refused { result ≢ done → (client.new ≡ client.old) × (votes.new ≡ votes.old) × (out.new ≡ out.old) × (written.new ≡ written.old) }
    ensures ends { LockEnds leave_lock calls.now client.old client.new votes.old votes.new out.old out.new written.new result }
{
    number_of(locks::leave(client, votes, calls, out, written))
}

/// Gives up the request, and writes the lines of what to send. Refused while a call has the lock.
#[unsafe(no_mangle)]
pub extern "C" fn qlock_held_give_up(
    client: &mut [u8],
    votes: &mut [u8],
    calls: &[u8],
    out: &mut [u8],
    written: &mut usize,
) -> i32
    ensures refused { result ≢ done → (client.new ≡ client.old) × (votes.new ≡ votes.old) × (out.new ≡ out.old) × (written.new ≡ written.old) }
    ensures ends { LockEnds give_up_lock calls.now client.old client.new votes.old votes.new out.old out.new written.new result }
{
    number_of(locks::give_up(client, votes, calls, out, written))
}
