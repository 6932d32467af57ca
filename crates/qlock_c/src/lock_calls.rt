//! The calls of a lock at a voter: a vote, and the rows of the sessions that may speak about it.
ghost use Rattle.std.specs.Prelude.{◌≡◌, ◌≢◌, ◌<◌, ◌≤◌};
ghost use Rattle.blocks.specs.Numbers.{done, refused};
ghost use Rattle.blocks.specs.RowSteps.{is_yes, named};
ghost use Rattle.quiet_time.specs.Quiet.{forgotten, since_start};
ghost use Rattle.numbers.specs.Bounds.{max_clients};
ghost use Rattle.lock_blocks.specs.LockSteps.{LockEndsQuiet, LockLetsGo, LockReminds, LockStands, LockTakes, TableJudges, TableLetsGo};

use blocks::{DONE, Refusal, number_of};
use lock_blocks::locks::LockShown;
use lock_blocks::{locks, tables};
use numbers::MAX_CLIENTS;
use quiet_time::SinceStart;
use session_rows::joined;

/// Takes the line of a message that a session says about a lock, under an epoch, without its newline, if the row of
/// its number says that it may, and unless it is put off: in the quiet time of a voter, and while somebody waits who said
/// in it that he is inside, the REQUEST of whoever does not say so. Writes the lines of the replies that somebody hears,
/// what is known since the start, and shows the lock.
#[unsafe(no_mangle)]
pub extern "C" fn qlock_lock_take(
    table: &[u8],
    vote: &mut [u8],
    since: &mut SinceStart,
    is_quiet: u32,
    says_inside: u32,
    upper: u64,
    lower: u64,
    epoch: u64,
    line: &[u8],
    out: &mut [u8],
    written: &mut usize,
    shown: &mut LockShown,
) -> i32
    ensures refused { result ≢ done
        → (vote.new ≡ vote.old) × (since.new ≡ since.old) × (out.new ≡ out.old) × (written.new ≡ written.old) × (shown.new ≡ shown.old) }
    ensures takes { LockTakes table.now vote.old since.old (is_yes is_quiet) (is_yes says_inside) (named upper lower) epoch line.now vote.new since.new out.old out.new written.new shown.old shown.new result }
{
    let session = joined(upper, lower);
    number_of(locks::take(
        table,
        vote,
        since,
        is_quiet != 0,
        says_inside != 0,
        session,
        epoch,
        line,
        out,
        written,
        shown,
    ))
}

/// Ends the quiet time of a lock: lets its grant go if it is from before the start and nobody said since that he is inside
/// by it. Writes the lines of the replies that somebody hears, and shows the lock to a client, 0 to 63.
#[unsafe(no_mangle)]
pub extern "C" fn qlock_lock_end_quiet(
    table: &[u8],
    vote: &mut [u8],
    since: &SinceStart,
    client: u8,
    out: &mut [u8],
    written: &mut usize,
    shown: &mut LockShown,
) -> i32
    ensures refused { result ≢ done
        → (vote.new ≡ vote.old) × (out.new ≡ out.old) × (written.new ≡ written.old) × (shown.new ≡ shown.old) }
    ensures bad_argument { max_clients ≤ client → result ≡ refused Refusal.BadArgument }
    ensures ends { client < max_clients
        → LockEndsQuiet table.now vote.old since.now client vote.new out.old out.new written.new shown.new result }
{
    number_of(locks::end_quiet(table, vote, since, client, out, written, shown))
}

/// Writes whether the grant of a lock is from before the start, and nobody said since that he is inside by it, 1 or 0; and
/// whether somebody waits who said so.
#[unsafe(no_mangle)]
pub extern "C" fn qlock_lock_stands(
    vote: &[u8],
    since: &SinceStart,
    old: &mut u32,
    awaited: &mut u32,
) -> i32
    ensures refused { result ≢ done → (old.new ≡ old.old) × (awaited.new ≡ awaited.old) }
    ensures stands { LockStands vote.now since.now old.new awaited.new result }
{
    number_of(locks::stands(vote, since, old, awaited))
}

/// Writes that nothing was said since a start, before which so many grants were given.
#[unsafe(no_mangle)]
pub extern "C" fn qlock_since_start(begun: u64, since: &mut SinceStart) -> i32
    ensures { (result ≡ done) × (since.new ≡ since_start begun) }
{
    *since = SinceStart::new(begun);
    DONE
}

/// Forgets what a client said, 0 to 63: its session is over.
#[unsafe(no_mangle)]
pub extern "C" fn qlock_since_forget(since: &mut SinceStart, client: u8) -> i32
    ensures bad_argument { max_clients ≤ client → (result ≡ refused Refusal.BadArgument) × (since.new ≡ since.old) }
    ensures forgets { client < max_clients → (result ≡ done) × (since.new ≡ forgotten since.old client) }
{
    if usize::from(client) >= MAX_CLIENTS {
        return number_of(Err(Refusal::BadArgument));
    }
    since.forget(client);
    DONE
}

/// Lets the current grant of a lock go if it has this number. Writes the lines of the replies that somebody hears,
/// and shows the lock to a client, 0 to 63.
#[unsafe(no_mangle)]
pub extern "C" fn qlock_lock_let_go(
    table: &[u8],
    vote: &mut [u8],
    grant: u64,
    client: u8,
    out: &mut [u8],
    written: &mut usize,
    shown: &mut LockShown,
) -> i32
    ensures refused { result ≢ done
        → (vote.new ≡ vote.old) × (out.new ≡ out.old) × (written.new ≡ written.old) × (shown.new ≡ shown.old) }
    ensures bad_argument { max_clients ≤ client → result ≡ refused Refusal.BadArgument }
    ensures lets_go { client < max_clients
        → LockLetsGo table.now vote.old grant client vote.new out.old out.new written.new shown.new result }
{
    number_of(locks::let_go(table, vote, grant, client, out, written, shown))
}

/// Writes the lines of what to send to the holder of a lock again, in case messages were lost, if somebody hears
/// them.
#[unsafe(no_mangle)]
pub extern "C" fn qlock_lock_remind(
    table: &[u8],
    vote: &[u8],
    out: &mut [u8],
    written: &mut usize,
) -> i32
    ensures refused { result ≢ done → (out.new ≡ out.old) × (written.new ≡ written.old) }
    ensures reminds { LockReminds table.now vote.now out.old out.new written.new result }
{
    number_of(locks::remind(table, vote, out, written))
}

/// Writes how a session stands at a voter, by the row of its number, 0 to 63: 0 if it is known, 1 if it may claim the
/// number, and 2 if it is over.
#[unsafe(no_mangle)]
pub extern "C" fn qlock_table_judge(
    table: &[u8],
    number: u8,
    upper: u64,
    lower: u64,
    epoch: u64,
    standing: &mut u32,
) -> i32
    ensures refused { result ≢ done → standing.new ≡ standing.old }
    ensures bad_argument { max_clients ≤ number → result ≡ refused Refusal.BadArgument }
    ensures judges { number < max_clients → TableJudges table.now number (named upper lower) epoch standing.new result }
{
    number_of(tables::judge(table, number, joined(upper, lower), epoch, standing))
}

/// Writes 1 if the grant of a request of this stamp may be let go, by the row of its number, 0 to 63, and 0 if not.
#[unsafe(no_mangle)]
pub extern "C" fn qlock_table_lets_go(
    table: &[u8],
    number: u8,
    stamp: u64,
    is_silent: u32,
    ended_elsewhere: u32,
    yes: &mut u32,
) -> i32
    ensures refused { result ≢ done → yes.new ≡ yes.old }
    ensures bad_argument { max_clients ≤ number → result ≡ refused Refusal.BadArgument }
    ensures lets_go { number < max_clients
        → TableLetsGo table.now number stamp (is_yes is_silent) (is_yes ended_elsewhere) yes.new result }
{
    number_of(tables::lets_go(
        table,
        number,
        stamp,
        is_silent != 0,
        ended_elsewhere != 0,
        yes,
    ))
}
