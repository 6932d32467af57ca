//! What the calls of a lock do at a voter: a vote as bytes, and the rows of the sessions that may
//! speak about it.
ghost use Rattle.std.specs.Prelude.{◌≡◌, ◌<◌, ◌≤◌, ◌++◌, ◌∷◌, [], ℕ, OnErr, Option, if◌then◌else◌, length};
ghost use Rattle.std.specs.Bool.{OnFalse, OnTrue};
ghost use Rattle.blocks.specs.Numbers.{refused, returned};
ghost use Rattle.blocks.specs.Tables.{AreRows, row_or_none};
ghost use Rattle.lock_node.specs.Letters.{heard, is_heard};
ghost use Rattle.quiet_time.specs.Quiet.{is_awaited, is_old};
ghost use Rattle.numbers.specs.Bounds.{max_clients};
ghost use Rattle.sessions.specs.Rows.{Row};
ghost use Rattle.voter.specs.declared.state.VoterState.{VoterState};
ghost use Rattle.voter_node.specs.LeftOut.{HaveSameLeast};
ghost use Rattle.lock_blocks.specs.Bytes.{IsVoter};
ghost use Rattle.lock_blocks.specs.Lines.{Sends};
ghost use Rattle.lock_blocks.specs.LockSteps.{IsShown, LockEndsQuiet, LockLetsGo, LockReminds, LockStands, LockTakes, lines_heard};

use crate::lines::put_to_clients;
use crate::saved_bytes::{load_voter, store_voter};
use crate::voters::{read_to_voter, show_grant};
use arrayvec::ArrayVec;
use blocks::Refusal;
use blocks::rows::row_in;
use lock_node::{hears, may_say};
use message::ToClient;
use numbers::MAX_CLIENTS;
use quiet_time::{Hearing, SinceStart, end, hear};
use voter::{Grant, Voter};

/// What a call shows of a lock.
#[repr(C)]
#[derive(Clone, Copy)]
pub struct LockShown {
    /// 0 if nothing happened, as the session may not say this. 3 if nothing happened, as only who is inside gets the vote
    /// now. 2 if what has to survive a crash changed: save the vote before anything leaves. 1 if it did not change.
    pub changed: u64,
    /// The stamp of the client's request that has the vote or waits, 0 for none.
    pub stamp: u64,
    /// The highest stamp of the client's requests that are finished.
    pub finished: u64,
    /// The client whose request has the vote, 0 for none.
    pub holder: u64,
    /// The stamp of that request, 0 for none.
    pub held: u64,
    /// The number of its grant, 0 for none.
    pub grant: u64,
}

/// Returns whether somebody hears this, by the rows of a table.
fn is_heard(table: &[u8], held: Option<Grant>, message: &ToClient) -> bool
    ensures { (rows : ℕ → Option Row) → AreRows table.now rows → result ≡ is_heard (row_or_none rows) held message.now }
{
    match row_in(table, message.client) {
        Some(row) => hears(&row, held, message),
        None => false,
    }
}

/// Appends the message, if it is to be kept.
fn keep_if(is_kept: bool, message: &ToClient, kept: &mut ArrayVec<ToClient, 3>)
    requires { length kept.old.items < 3 }
    ensures { kept.new.items ≡ kept.old.items ++ (if is_kept then message.now ∷ [] else []) }
{
    if is_kept {
        kept.push(*message);
    }
}

/// Returns what of these messages somebody hears, by the rows of a table.
fn heard(table: &[u8], held: Option<Grant>, messages: &[ToClient]) -> ArrayVec<ToClient, 3>
    requires { length messages.now ≤ 3 }
    ensures heard { (rows : ℕ → Option Row) → AreRows table.now rows → result.items ≡ heard (row_or_none rows) held messages.now }
    ensures few { length result.items ≤ 3 }
{
    let mut kept = ArrayVec::new();
    for message in messages {
        keep_if(is_heard(table, held, message), message, &mut kept);
    }
    kept
}

/// Returns whether the vote has to be saved, after a step that left its number and its limit.
fn has_changed(held: Option<Grant>, granted: u64, after: &Voter) -> bool
    ensures { (before : VoterState) → before.id ≡ after.now.id → before.limit ≡ after.now.limit → before.held ≡ held → before.granted ≡ granted
        → OnTrue result (HaveSameLeast before after.now → ⊥) × OnFalse result (HaveSameLeast before after.now) }
{
    held != after.held() || granted != after.granted()
}

/// Returns 2 for a vote that has to be saved, else 1.
fn mark(has_changed: bool) -> u64
    ensures { result ≡ (if has_changed then 2 else 1) }
{
    if has_changed { 2 } else { 1 }
}

/// Shows a lock after a step.
fn show(held: Option<Grant>, granted: u64, after: &Voter, client: u8, shown: &mut LockShown)
    requires { client < max_clients }
    ensures { (before : VoterState) → before.id ≡ after.now.id → before.limit ≡ after.now.limit → before.held ≡ held → before.granted ≡ granted
        → IsShown before after.now client shown.new }
{
    shown.changed = mark(has_changed(held, granted, after));
    shown.stamp = after.known(client).unwrap_or(0);
    shown.finished = after.finished(client);
    show_grant(
        after.held(),
        &mut shown.holder,
        &mut shown.held,
        &mut shown.grant,
    );
}

/// Writes the lines of the replies that somebody hears, shows the lock, and writes the bytes of the
/// voter, after a step of a voter that had this grant, and gave so many.
fn finish(
    table: &[u8],
    held: Option<Grant>,
    granted: u64,
    after: &Voter,
    replies: &[ToClient],
    client: u8,
    vote: &mut [u8],
    out: &mut [u8],
    written: &mut usize,
    shown: &mut LockShown,
) -> Result<(), Refusal>
    requires few { length replies.now ≤ 3 }
    requires client { client < max_clients }
    requires room { length vote.old ≡ 1104 }
    ensures tells { (before : VoterState) (rows : ℕ → Option Row) → before.id ≡ after.now.id → before.limit ≡ after.now.limit
        → before.held ≡ held → before.granted ≡ granted → AreRows table.now rows
        → Sends (lines_heard rows (record { replies = replies.now; state = after.now })) out.old out.new written.new (returned result)
        (IsVoter vote.new after.now × IsShown before after.now client shown.new) }
    ensures refused { OnErr result ((vote.new ≡ vote.old) × (out.new ≡ out.old) × (written.new ≡ written.old) × (shown.new ≡ shown.old)) }
{
    let kept = heard(table, after.held(), replies);
    put_to_clients(kept.as_slice(), out, written)?;
    show(held, granted, after, client, shown);
    store_voter(after, vote);
    Ok(())
}

/// Takes the line of a message that a session says about a lock, under an epoch, without its
/// newline, if the row of its number says that it may, and unless it is put off: in the quiet time
/// of a voter, and while somebody waits who said in it that he is inside, the REQUEST of whoever
/// does not say so. Writes the lines of the replies that somebody hears, what is known since the
/// start, and shows the lock.
pub fn take(
    table: &[u8],
    vote: &mut [u8],
    since: &mut SinceStart,
    is_quiet: bool,
    says_inside: bool,
    session: u128,
    epoch: u64,
    line: &[u8],
    out: &mut [u8],
    written: &mut usize,
    shown: &mut LockShown,
) -> Result<(), Refusal>
    ensures takes { LockTakes table.now vote.old since.old is_quiet says_inside session epoch line.now vote.new since.new out.old out.new written.new shown.old shown.new (returned result) }
    ensures refused { OnErr result ((vote.new ≡ vote.old) × (since.new ≡ since.old) × (out.new ≡ out.old) × (written.new ≡ written.old) × (shown.new ≡ shown.old)) }
{
    let mut voter = load_voter(vote)?;
    let message = read_to_voter(line, voter.id())?;
    let Some(row) = row_in(table, message.client) else {
        return Err(Refusal::BadState);
    };
    if !may_say(&row, session, epoch, &message.body) {
        *written = 0;
        shown.changed = 0;
        return Ok(());
    }
    let held = voter.held();
    let granted = voter.granted();
    let mut known = *since;
    let mut replies = ArrayVec::new();
    match hear(
        &mut voter,
        &mut known,
        is_quiet,
        says_inside,
        &message,
        &mut replies,
    )? {
        Hearing::PutOff => {
            *written = 0;
            shown.changed = 3;
            return Ok(());
        }
        Hearing::Taken => {}
    }
    finish(
        table,
        held,
        granted,
        &voter,
        replies.as_slice(),
        message.client,
        vote,
        out,
        written,
        shown,
    )?;
    *since = known;
    Ok(())
}

/// Lets the current grant of a lock go if it has this number. Writes the lines of the replies that
/// somebody hears, and shows the lock to a client, 0 to 63.
pub fn let_go(
    table: &[u8],
    vote: &mut [u8],
    grant: u64,
    client: u8,
    out: &mut [u8],
    written: &mut usize,
    shown: &mut LockShown,
) -> Result<(), Refusal>
    ensures bad_argument { max_clients ≤ client → returned result ≡ refused Refusal.BadArgument }
    ensures lets_go { client < max_clients
        → LockLetsGo table.now vote.old grant client vote.new out.old out.new written.new shown.new (returned result) }
    ensures refused { OnErr result ((vote.new ≡ vote.old) × (out.new ≡ out.old) × (written.new ≡ written.old) × (shown.new ≡ shown.old)) }
{
    if usize::from(client) >= MAX_CLIENTS {
        return Err(Refusal::BadArgument);
    }
    let mut voter = load_voter(vote)?;
    let held = voter.held();
    let granted = voter.granted();
    let replies = voter.evict(grant)?;
    finish(
        table,
        held,
        granted,
        &voter,
        replies.as_slice(),
        client,
        vote,
        out,
        written,
        shown,
    )
}

/// Ends the quiet time of a lock: lets its grant go if it is from before the start and nobody said
/// since that he is inside by it. Writes the lines of the replies that somebody hears, and shows
/// the lock to a client, 0 to 63.
pub fn end_quiet(
    table: &[u8],
    vote: &mut [u8],
    since: &SinceStart,
    client: u8,
    out: &mut [u8],
    written: &mut usize,
    shown: &mut LockShown,
) -> Result<(), Refusal>
    ensures bad_argument { max_clients ≤ client → returned result ≡ refused Refusal.BadArgument }
    ensures ends { client < max_clients
        → LockEndsQuiet table.now vote.old since.now client vote.new out.old out.new written.new shown.new (returned result) }
    ensures refused { OnErr result ((vote.new ≡ vote.old) × (out.new ≡ out.old) × (written.new ≡ written.old) × (shown.new ≡ shown.old)) }
{
    if usize::from(client) >= MAX_CLIENTS {
        return Err(Refusal::BadArgument);
    }
    let mut voter = load_voter(vote)?;
    let held = voter.held();
    let granted = voter.granted();
    let replies = end(&mut voter, since)?;
    finish(
        table,
        held,
        granted,
        &voter,
        replies.as_slice(),
        client,
        vote,
        out,
        written,
        shown,
    )
}

/// Writes whether the grant of a lock is from before the start, and nobody said since that he is
/// inside by it, 1 or 0; and whether somebody waits who said so.
pub fn stands(
    vote: &[u8],
    since: &SinceStart,
    old: &mut u32,
    awaited: &mut u32,
) -> Result<(), Refusal>
    ensures stands { LockStands vote.now since.now old.new awaited.new (returned result) }
    ensures refused { OnErr result ((old.new ≡ old.old) × (awaited.new ≡ awaited.old)) }
{
    let voter = load_voter(vote)?;
    *old = u32::from(since.is_old(voter.held()));
    *awaited = u32::from(since.is_awaited(&voter));
    Ok(())
}

/// Writes the lines of what to send to the holder of a lock again, in case messages were lost, if
/// somebody hears them.
pub fn remind(table: &[u8], vote: &[u8], out: &mut [u8], written: &mut usize) -> Result<(), Refusal>
    ensures reminds { LockReminds table.now vote.now out.old out.new written.new (returned result) }
    ensures refused { OnErr result ((out.new ≡ out.old) × (written.new ≡ written.old)) }
{
    let voter = load_voter(vote)?;
    let replies = voter.remind();
    let kept = heard(table, voter.held(), replies.as_slice());
    put_to_clients(kept.as_slice(), out, written)
}
