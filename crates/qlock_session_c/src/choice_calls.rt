//! The calls by which a session chooses whom it asks, and gives up a request that waits.
ghost use Rattle.std.specs.Prelude.{◌≡◌, ◌≢◌};
ghost use Rattle.numbers.specs.Sets.{members_of};
ghost use Rattle.fail_over.specs.Choices.{avoided_voters, is_stuck, next_quorum, silent_voters, waits_for};
ghost use Rattle.session_blocks.specs.ChoiceSteps.{QuorumIsChosen};
ghost use Rattle.session_blocks.specs.SessionSteps.{yes_of};
ghost use Rattle.blocks.specs.Numbers.{done};

use blocks::number_of;
use fail_over::{Waiting, avoided, is_stuck, silent, waits_for};
use session_blocks::choices;

/// Writes the voters that were heard longer ago than `most`, as a mask. Voter v was heard at `heard[v]`.
#[unsafe(no_mangle)]
pub extern "C" fn qlock_silent(heard: &[u64], now: u64, most: u64, voters: &mut u64) -> i32
    ensures done { result ≡ done }
    ensures says { members_of voters.new ≡ silent_voters heard.now now most }
{
    *voters = silent(heard, now, most);
    number_of(Ok(()))
}

/// Writes the voters that a session avoids, as a mask: those that are silent, and those whose quiet time ends later. That of voter v
/// ends at `ends[v]`.
#[unsafe(no_mangle)]
pub extern "C" fn qlock_avoided(
    heard: &[u64],
    ends: &[u64],
    now: u64,
    most: u64,
    voters: &mut u64,
) -> i32
    ensures done { result ≡ done }
    ensures says { members_of voters.new ≡ avoided_voters heard.now ends.now now most }
{
    *voters = avoided(heard, ends, now, most);
    number_of(Ok(()))
}

/// Writes the place in a cycle of quorums of the one that a session asks with a ticket.
#[unsafe(no_mangle)]
pub extern "C" fn qlock_next_quorum(
    cycle: &[u64],
    ticket: u64,
    avoided: u64,
    full: u64,
    place: &mut u64,
) -> i32
    ensures refused { result ≢ done → place.new ≡ place.old }
    ensures chosen { QuorumIsChosen (next_quorum cycle.now ticket avoided full) place.new result }
{
    number_of(choices::next_quorum(cycle, ticket, avoided, full, place))
}

/// Writes 1 if a request waits for the vote of a voter that is avoided, and others would do, and 0 if not.
#[unsafe(no_mangle)]
pub extern "C" fn qlock_waits_for(
    masks: &[u64],
    quorum: u64,
    votes: u64,
    avoided: u64,
    full: u64,
    yes: &mut u32,
) -> i32
    ensures done { result ≡ done }
    ensures says { yes.new ≡ yes_of (waits_for masks.now (record { quorum = quorum; votes = votes; asked = 0 }) avoided full) }
{
    let request = Waiting {
        quorum,
        votes,
        asked: 0,
    };
    *yes = u32::from(waits_for(masks, &request, avoided, full));
    number_of(Ok(()))
}

/// Writes 1 if a request that was asked longer ago than `most` is to be given up, and 0 if not.
#[unsafe(no_mangle)]
pub extern "C" fn qlock_is_stuck(
    masks: &[u64],
    quorum: u64,
    votes: u64,
    asked: u64,
    avoided: u64,
    full: u64,
    now: u64,
    most: u64,
    yes: &mut u32,
) -> i32
    ensures done { result ≡ done }
    ensures says { yes.new ≡ yes_of (is_stuck masks.now (record { quorum = quorum; votes = votes; asked = asked }) avoided full now most) }
{
    let request = Waiting {
        quorum,
        votes,
        asked,
    };
    *yes = u32::from(is_stuck(masks, &request, avoided, full, now, most));
    number_of(Ok(()))
}
