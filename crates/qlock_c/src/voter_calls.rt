//! The calls of a voter.
ghost use Rattle.std.specs.Prelude.{◌≡◌, ◌≢◌, ◌<◌, ◌≤◌};
ghost use Rattle.numbers.specs.Bounds.{max_clients};
ghost use Rattle.voter.specs.Leases.{reborn};
ghost use Rattle.voter.specs.Steps.{start};
ghost use Rattle.blocks.specs.Numbers.{done, refused};
ghost use Rattle.lock_blocks.specs.Bytes.{IsVoter};
ghost use Rattle.lock_blocks.specs.Made.{AreInRange, AreWithin, IsMade};
ghost use Rattle.lock_blocks.specs.VoterSteps.{VoterEvicts, VoterExtends, VoterForgets, VoterMustSave, VoterRaises, VoterReminds, VoterShowsClient, VoterShowsHolder, VoterTakes};

use blocks::{Refusal, number_of};
use lock_blocks::voters;

/// Makes a new voter with this number, 0 to 63, that may give `limit` grants, 1 to 2^62.
#[unsafe(no_mangle)]
pub extern "C" fn qlock_voter_new(id: u8, limit: u64, state: &mut [u8]) -> i32
    // A call that is refused writes nothing. So it is with each call.
    ensures refused { result ≢ done → state.new ≡ state.old }
    ensures made { IsMade (AreInRange id limit) state.old (IsVoter state.new (start id limit)) result }
{
    number_of(voters::new(id, limit, state))
}

/// Takes the line of a message to this voter, without its newline, and writes the lines of the
/// replies.
#[unsafe(no_mangle)]
pub extern "C" fn qlock_voter_take(
    state: &mut [u8],
    line: &[u8],
    out: &mut [u8],
    written: &mut usize,
) -> i32
    ensures refused { result ≢ done
        → (state.new ≡ state.old) × (out.new ≡ out.old) × (written.new ≡ written.old) }
    ensures takes { VoterTakes state.old line.now state.new out.old out.new written.new result }
{
    number_of(voters::take(state, line, out, written))
}

/// Writes the lines of what to send to the holder again, in case messages were lost.
#[unsafe(no_mangle)]
pub extern "C" fn qlock_voter_remind(state: &[u8], out: &mut [u8], written: &mut usize) -> i32
    ensures refused { result ≢ done → (out.new ≡ out.old) × (written.new ≡ written.old) }
    ensures reminds { VoterReminds state.now out.old out.new written.new result }
{
    number_of(voters::remind(state, out, written))
}

/// Writes the client, the stamp and the number of the grant that holds the vote, three times 0 if
/// the vote is free.
#[unsafe(no_mangle)]
pub extern "C" fn qlock_voter_held(
    state: &[u8],
    client: &mut u64,
    stamp: &mut u64,
    grant: &mut u64,
) -> i32
    ensures refused { result ≢ done
        → (client.new ≡ client.old) × (stamp.new ≡ stamp.old) × (grant.new ≡ grant.old) }
    ensures shows { VoterShowsHolder state.now client.new stamp.new grant.new result }
{
    number_of(voters::held(state, client, stamp, grant))
}

/// Makes a voter that lost its state. It gave at most `above` grants before, and may give `limit`
/// grants in all, 1 to 2^62.
#[unsafe(no_mangle)]
pub extern "C" fn qlock_voter_reborn(id: u8, above: u64, limit: u64, state: &mut [u8]) -> i32
    ensures refused { result ≢ done → state.new ≡ state.old }
    ensures made { IsMade (AreWithin id limit above) state.old (IsVoter state.new (reborn id above limit)) result }
{
    number_of(voters::reborn(id, above, limit, state))
}

/// Raises the number of grants that the voter may give, up to 2^62.
#[unsafe(no_mangle)]
pub extern "C" fn qlock_voter_extend(state: &mut [u8], limit: u64) -> i32
    ensures refused { result ≢ done → state.new ≡ state.old }
    ensures extends { VoterExtends state.old limit state.new result }
{
    number_of(voters::extend(state, limit))
}

/// Skips the numbers up to `above`, from the number of grants to the limit: each later grant has a
/// greater one. A grant that is held stays.
#[unsafe(no_mangle)]
pub extern "C" fn qlock_voter_raise(state: &mut [u8], above: u64) -> i32
    ensures refused { result ≢ done → state.new ≡ state.old }
    ensures raises { VoterRaises state.old above state.new result }
{
    number_of(voters::raise(state, above))
}

/// Lets the current grant go if it has this number, and writes the lines of the replies.
#[unsafe(no_mangle)]
pub extern "C" fn qlock_voter_evict(
    state: &mut [u8],
    grant: u64,
    out: &mut [u8],
    written: &mut usize,
) -> i32
    ensures refused { result ≢ done
        → (state.new ≡ state.old) × (out.new ≡ out.old) × (written.new ≡ written.old) }
    ensures evicts { VoterEvicts state.old grant state.new out.old out.new written.new result }
{
    number_of(voters::evict(state, grant, out, written))
}

/// Writes what the voter knows of a client: the stamp that has the vote or waits, 0 for none, the
/// highest stamp that is finished, and the highest stamp that the voter saw of anybody.
#[unsafe(no_mangle)]
pub extern "C" fn qlock_voter_knows(
    state: &[u8],
    client: u8,
    stamp: &mut u64,
    finished: &mut u64,
    seen: &mut u64,
) -> i32
    ensures refused { result ≢ done
        → (stamp.new ≡ stamp.old) × (finished.new ≡ finished.old) × (seen.new ≡ seen.old) }
    ensures bad_argument { max_clients ≤ client → result ≡ refused Refusal.BadArgument }
    ensures shows { client < max_clients → VoterShowsClient state.now client stamp.new finished.new seen.new result }
{
    number_of(voters::knows(state, client, stamp, finished, seen))
}

/// Forgets all but the least that has to survive a crash: the grant that holds the vote, and the number
/// of grants.
#[unsafe(no_mangle)]
pub extern "C" fn qlock_voter_forget(state: &mut [u8]) -> i32
    ensures refused { result ≢ done → state.new ≡ state.old }
    ensures forgets { VoterForgets state.old state.new result }
{
    number_of(voters::forget(state))
}

/// Writes 1 if a voter that was saved as `saved` and is now `live` has to be saved before its messages
/// leave, where it forgets at each restart, and 0 if not.
#[unsafe(no_mangle)]
pub extern "C" fn qlock_voter_must_save(saved: &[u8], live: &[u8], yes: &mut i32) -> i32
    ensures refused { result ≢ done → yes.new ≡ yes.old }
    ensures says { VoterMustSave saved.now live.now yes.new result }
{
    number_of(voters::must_save(saved, live, yes))
}
