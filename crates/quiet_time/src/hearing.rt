//! What a voter does with a message, and at the end of its quiet time.
ghost use Rattle.std.specs.Prelude.{◌≡◌, ◌<◌, ◌&&◌, [], false, IfErr, IfOk, None, OnErr, OnOk, Ok, Some, true};
ghost use Rattle.numbers.specs.Bounds.{max_clients};
ghost use Rattle.quiet_time.specs.Quiet.{Became, end_of, is_closed, is_old, noted, puts_off, quiet_step, step_of_old};
ghost use Rattle.voter.specs.Leases.{evict};
ghost use Rattle.voter.specs.Steps.{is_grant};

use crate::since_start::SinceStart;
use arrayvec::ArrayVec;
use message::{ToVoter, VoterBody};
use voter::{Grant, Replies, Voter, VoterFault};

/// What became of a message.
#[derive(Clone, Copy, Debug, PartialEq, Eq)]
pub enum Hearing {
    /// The voter took it.
    Taken,
    /// It is a REQUEST that gets no vote now, as only who is inside gets one. Nothing happened.
    PutOff,
}

fn puts_off(closed: bool, says_inside: bool, body: &VoterBody) -> bool
    ensures { result ≡ puts_off closed says_inside body.now }
{
    match body {
        VoterBody::Request { .. } => closed && !says_inside,
        VoterBody::Relinquish { .. } | VoterBody::Release { .. } => false,
    }
}

fn is_grant(held: Option<Grant>, client: u8, number: u64) -> bool
    ensures { result ≡ is_grant held client number }
{
    match held {
        Some(grant) => grant.client == client && grant.grant == number,
        None => false,
    }
}

/// Takes a message of a client while the vote has a grant from before the start.
fn take_beside_old(
    voter: &mut Voter,
    message: &ToVoter,
    replies: &mut Replies,
) -> Result<(), VoterFault>
    requires voter { message.now.voter ≡ voter.old.id }
    requires client { message.now.client < max_clients }
    ensures taken { OnOk result
        (step_of_old voter.old message.now message.now.body ≡ Some (record { replies = replies.new.items; state = voter.new })) }
    ensures refused { OnErr result
        ((step_of_old voter.old message.now message.now.body ≡ None) × (voter.new ≡ voter.old) × (replies.new.items ≡ [])) }
    ensures id { voter.new.id ≡ voter.old.id }
{
    match message.body {
        VoterBody::Relinquish { grant } => {
            replies.clear();
            if is_grant(voter.held(), message.client, grant) {
                *replies = voter.evict(grant)?;
            }
            Ok(())
        }
        VoterBody::Request { .. } | VoterBody::Release { .. } => voter.take_into(message, replies),
    }
}

/// Takes a message that is not put off.
fn take(
    voter: &mut Voter,
    is_old: bool,
    message: &ToVoter,
    replies: &mut Replies,
) -> Result<(), VoterFault>
    requires voter { message.now.voter ≡ voter.old.id }
    requires client { message.now.client < max_clients }
    ensures taken { OnOk result
        (quiet_step is_old voter.old message.now ≡ Some (record { replies = replies.new.items; state = voter.new })) }
    ensures refused { OnErr result
        ((quiet_step is_old voter.old message.now ≡ None) × (voter.new ≡ voter.old) × (replies.new.items ≡ [])) }
    ensures id { voter.new.id ≡ voter.old.id }
{
    if is_old {
        take_beside_old(voter, message, replies)
    } else {
        voter.take_into(message, replies)
    }
}

/// Takes one message, if it is not put off, and notes whether its client says that it is inside. Puts the replies, in
/// order, into `replies`, in place of what was there.
///
/// Fails with `GrantsSpent` if the message needs a new grant and none is left within the limit. Voter and notes are
/// then unchanged, and `replies` is empty.
pub fn hear(
    voter: &mut Voter,
    since: &mut SinceStart,
    is_quiet: bool,
    says_inside: bool,
    message: &ToVoter,
    replies: &mut Replies,
) -> Result<Hearing, VoterFault>
    requires voter { message.now.voter ≡ voter.old.id }
    requires client { message.now.client < max_clients }
    ensures heard { IfOk result (λ h. Became h (puts_off (is_closed is_quiet since.old voter.old) says_inside message.now.body)
        ((voter.new ≡ voter.old) × (since.new ≡ since.old) × (replies.new.items ≡ []))
        ((quiet_step (is_quiet && is_old since.old voter.old.held) voter.old message.now
        ≡ Some (record { replies = replies.new.items; state = voter.new }))
        × (since.new ≡ noted (is_closed is_quiet since.old voter.old) says_inside since.old voter.new message.now.client message.now.body))) }
    ensures refused { IfErr result (λ _.
        (puts_off (is_closed is_quiet since.old voter.old) says_inside message.now.body ≡ false)
        × (quiet_step (is_quiet && is_old since.old voter.old.held) voter.old message.now ≡ None)
        × (voter.new ≡ voter.old) × (since.new ≡ since.old) × (replies.new.items ≡ [])) }
    ensures id { voter.new.id ≡ voter.old.id }
{
    let closed = is_quiet || since.is_awaited(voter);
    if puts_off(closed, says_inside, &message.body) {
        replies.clear();
        return Ok(Hearing::PutOff);
    }
    let is_old = is_quiet && since.is_old(voter.held());
    take(voter, is_old, message, replies)?;
    since.note(closed, says_inside, voter, message);
    Ok(Hearing::Taken)
}

/// Ends the quiet time of a lock: lets its grant go if it is from before the start, and its client did not say that it is
/// inside. Returns the replies, in order.
///
/// Fails with `GrantsSpent` if a request waits and no grant is left. The voter is then unchanged, and the vote has to
/// stay quiet.
pub fn end(voter: &mut Voter, since: &SinceStart) -> Result<Replies, VoterFault>
    ensures ended { IfOk result (λ replies.
        end_of since.now voter.old voter.old.held ≡ Some (record { replies = replies.items; state = voter.new })) }
    ensures refused { IfErr result (λ _. (end_of since.now voter.old voter.old.held ≡ None) × (voter.new ≡ voter.old)) }
    ensures id { voter.new.id ≡ voter.old.id }
{
    match voter.held() {
        Some(grant) if since.is_old(Some(grant)) => voter.evict(grant.grant),
        _ => Ok(ArrayVec::new()),
    }
}
