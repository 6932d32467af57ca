//! The calls of a client.
ghost use Rattle.std.specs.Prelude.{◌≡◌, ◌≢◌, ◌<◌, ◌≤◌, [], length};
ghost use Rattle.numbers.specs.Bounds.{max_voters};
ghost use Rattle.numbers.specs.Sets.{members_of};
ghost use Rattle.requester.specs.Leases.{anew};
ghost use Rattle.requester.specs.Steps as steps;
ghost use Rattle.blocks.specs.Numbers.{done, refused};
ghost use Rattle.lock_blocks.specs.Bytes.{IsClient};
ghost use Rattle.lock_blocks.specs.ClientSteps.{ClientDisclaims, ClientDoes, ClientForgets, ClientRaises, ClientReminds, ClientRenews, ClientShows, ClientShowsGrant, ClientShowsPass, ClientTakes};
ghost use Rattle.lock_blocks.specs.FenceSteps.{grant_bytes};
ghost use Rattle.lock_blocks.specs.Made.{AreInRange, AreWithin, IsMade};

use blocks::{Refusal, number_of};
use lock_blocks::clients;

/// Makes a new client with this number, 0 to 63. Its stamps go from 1 to the limit, which is 1 to
/// 2^62.
#[unsafe(no_mangle)]
pub extern "C" fn qlock_client_new(id: u8, limit: u64, state: &mut [u8]) -> i32
    // A call that is refused writes nothing. So it is with each call.
    ensures refused { result ≢ done → state.new ≡ state.old }
    ensures made { IsMade (AreInRange id limit) state.old (IsClient state.new (steps.start id limit)) result }
{
    number_of(clients::new(id, limit, state))
}

/// Starts a request for the votes of a quorum, voter i if bit i is 1, and writes the lines of what to
/// send.
#[unsafe(no_mangle)]
pub extern "C" fn qlock_client_ask(
    state: &mut [u8],
    quorum: u64,
    out: &mut [u8],
    written: &mut usize,
) -> i32
    ensures refused { result ≢ done
        → (state.new ≡ state.old) × (out.new ≡ out.old) × (written.new ≡ written.old) }
    ensures empty { members_of quorum ≡ [] → result ≡ refused Refusal.BadArgument }
    ensures asks { 1 ≤ length (members_of quorum) → ClientDoes (λ x. steps.ask x (members_of quorum))
        state.old state.new out.old out.new written.new result }
{
    number_of(clients::ask(state, quorum, out, written))
}

/// Takes the line of a message to this client, without its newline. Writes the lines of what to send,
/// and 1 to `entered` if the client got the lock, else 0.
#[unsafe(no_mangle)]
pub extern "C" fn qlock_client_take(
    state: &mut [u8],
    line: &[u8],
    out: &mut [u8],
    written: &mut usize,
    entered: &mut i32,
) -> i32
    ensures refused { result ≢ done → (state.new ≡ state.old) × (out.new ≡ out.old)
        × (written.new ≡ written.old) × (entered.new ≡ entered.old) }
    ensures takes { ClientTakes state.old line.now state.new out.old out.new written.new entered.new result }
{
    number_of(clients::take(state, line, out, written, entered))
}

/// Leaves, and writes the lines of what to send.
#[unsafe(no_mangle)]
pub extern "C" fn qlock_client_leave(state: &mut [u8], out: &mut [u8], written: &mut usize) -> i32
    ensures refused { result ≢ done
        → (state.new ≡ state.old) × (out.new ≡ out.old) × (written.new ≡ written.old) }
    ensures leaves { ClientDoes steps.leave state.old state.new out.old out.new written.new result }
{
    number_of(clients::leave(state, out, written))
}

/// Gives up the request, and writes the lines of what to send.
#[unsafe(no_mangle)]
pub extern "C" fn qlock_client_give_up(state: &mut [u8], out: &mut [u8], written: &mut usize) -> i32
    ensures refused { result ≢ done
        → (state.new ≡ state.old) × (out.new ≡ out.old) × (written.new ≡ written.old) }
    ensures gives_up { ClientDoes steps.give_up state.old state.new out.old out.new written.new result }
{
    number_of(clients::give_up(state, out, written))
}

/// Writes the lines of what to send again while asking, in case messages were lost.
#[unsafe(no_mangle)]
pub extern "C" fn qlock_client_remind(state: &[u8], out: &mut [u8], written: &mut usize) -> i32
    ensures refused { result ≢ done → (out.new ≡ out.old) × (written.new ≡ written.old) }
    ensures reminds { ClientReminds state.now out.old out.new written.new result }
{
    number_of(clients::remind(state, out, written))
}

/// Forgets all but the least that has to survive a crash. The client is then idle.
#[unsafe(no_mangle)]
pub extern "C" fn qlock_client_forget(state: &mut [u8]) -> i32
    ensures refused { result ≢ done → state.new ≡ state.old }
    ensures forgets { ClientForgets state.old state.new result }
{
    number_of(clients::forget(state))
}

/// Writes the phase (0 idle, 1 asking, 2 inside), and the stamp and the quorum of the current or last
/// request, 0 if there was none.
#[unsafe(no_mangle)]
pub extern "C" fn qlock_client_shows(
    state: &[u8],
    phase: &mut i32,
    stamp: &mut u64,
    quorum: &mut u64,
) -> i32
    ensures refused { result ≢ done
        → (phase.new ≡ phase.old) × (stamp.new ≡ stamp.old) × (quorum.new ≡ quorum.old) }
    ensures shows { ClientShows state.now phase.new stamp.new quorum.new result }
{
    number_of(clients::shows(state, phase, stamp, quorum))
}

/// Writes the grant under which the vote of this voter is held, 0 if it is not held.
#[unsafe(no_mangle)]
pub extern "C" fn qlock_client_grant(state: &[u8], voter: u8, held: &mut u64) -> i32
    ensures refused { result ≢ done → held.new ≡ held.old }
    ensures bad_argument { max_voters ≤ voter → result ≡ refused Refusal.BadArgument }
    ensures shows { voter < max_voters → ClientShowsGrant state.now voter held.new result }
{
    number_of(clients::grant(state, voter, held))
}

/// Writes the pass of a client that is inside, 512 bytes: the grants by which it has its votes, of
/// each voter a number of 64 bits, 0 if its vote is not held. The client shows it to the guard.
#[unsafe(no_mangle)]
pub extern "C" fn qlock_client_pass(state: &[u8], shown: &mut [u8]) -> i32
    ensures refused { result ≢ done → shown.new ≡ shown.old }
    ensures bad_argument { length shown.old ≢ grant_bytes → result ≡ refused Refusal.BadArgument }
    ensures shows { length shown.old ≡ grant_bytes → ClientShowsPass state.now shown.new result }
{
    number_of(clients::pass(state, shown))
}

/// Makes a client that lost its state, with a clock that is at least the stamp of its last request and
/// at most the limit.
#[unsafe(no_mangle)]
pub extern "C" fn qlock_client_anew(id: u8, limit: u64, clock: u64, state: &mut [u8]) -> i32
    ensures refused { result ≢ done → state.new ≡ state.old }
    ensures made { IsMade (AreWithin id limit clock) state.old (IsClient state.new (anew id limit clock)) result }
{
    number_of(clients::anew(id, limit, clock, state))
}

/// Raises the clock to this stamp, if it is behind.
#[unsafe(no_mangle)]
pub extern "C" fn qlock_client_raise(state: &mut [u8], clock: u64) -> i32
    ensures refused { result ≢ done → state.new ≡ state.old }
    ensures raises { ClientRaises state.old clock state.new result }
{
    number_of(clients::raise(state, clock))
}

/// Writes the lines of what an idle client sends to end all its requests at these voters, voter i if
/// bit i is 1.
#[unsafe(no_mangle)]
pub extern "C" fn qlock_client_disclaim(
    state: &[u8],
    voters: u64,
    out: &mut [u8],
    written: &mut usize,
) -> i32
    ensures refused { result ≢ done → (out.new ≡ out.old) × (written.new ≡ written.old) }
    ensures disclaims { ClientDisclaims state.now (members_of voters) out.old out.new written.new result }
{
    number_of(clients::disclaim(state, voters, out, written))
}

/// Writes the lines of what a client that is inside sends as a sign of life.
#[unsafe(no_mangle)]
pub extern "C" fn qlock_client_renew(state: &[u8], out: &mut [u8], written: &mut usize) -> i32
    ensures refused { result ≢ done → (out.new ≡ out.old) × (written.new ≡ written.old) }
    ensures renews { ClientRenews state.now out.old out.new written.new result }
{
    number_of(clients::renew(state, out, written))
}
