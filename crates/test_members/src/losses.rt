//! Lost messages: each is counted once, and what gets into a mailbox is not.
//!
//! Here messages are lost because they would move a vote that is taken. In `hostile/run.py` messages are
//! lost because memory runs out.
use crate::scripts::{Act, EMPTY, ENTERED, LEAVE, NOTHING, stuck};
use message::{ClientBody, ToClient, ToVoter, VoterBody};

/// A request of client 1 to voter 2, whose vote is free.
const REQUEST: ToVoter = ToVoter {
    client: 1,
    voter: 2,
    body: VoterBody::Request { stamp: 5 },
};

/// It would free voter 0's vote, which client 0 holds on the board.
const TAKEN: ToVoter = ToVoter {
    client: 0,
    voter: 0,
    body: VoterBody::Release { stamp: 1 },
};

/// Messages are delivered while client 0 is inside with the votes of voters 0 and 1. One is lost, and client
/// 1 sees only the reply to the other one.
const DELIVERED: [(usize, Act); 9] = [
    (0, Act::Ask(0, 0)),
    (0, NOTHING),
    (0, ENTERED),
    (0, Act::Deliver(TAKEN, 1)),
    (1, EMPTY),
    (0, Act::Deliver(REQUEST, 0)),
    (1, NOTHING),
    (1, EMPTY),
    (0, LEAVE),
];

/// A request of client 0 to voter 0, whose vote is free.
const FIRST: ToVoter = ToVoter {
    client: 0,
    voter: 0,
    body: VoterBody::Request { stamp: 2 },
};

/// A request of client 2, behind the first one.
const BEHIND: ToVoter = ToVoter {
    client: 2,
    voter: 0,
    body: VoterBody::Request { stamp: 5 },
};

/// A request of client 1, which precedes both.
const BEFORE: ToVoter = ToVoter {
    client: 1,
    voter: 0,
    body: VoterBody::Request { stamp: 1 },
};

/// A newer request of client 0, which ends its first one.
const NEWER: ToVoter = ToVoter {
    client: 0,
    voter: 0,
    body: VoterBody::Request { stamp: 3 },
};

/// Voter 0 makes one, one, two and three replies:
///
/// - LOCKED to client 0;
/// - FAIL to client 2;
/// - INQUIRE to client 0, and FAIL to client 2;
/// - LOCKED to client 1, FAIL to client 0, and FAIL to client 2.
///
/// All clients are idle. A LOCKED that comes to one makes it send RELEASE, and then the vote goes on.
const REPLIES: [(usize, Act); 19] = [
    (0, Act::Deliver(FIRST, 0)),
    (0, Act::Deliver(BEHIND, 0)),
    (0, Act::Deliver(BEFORE, 0)),
    (0, Act::Deliver(NEWER, 0)),
    (2, NOTHING),
    (2, NOTHING),
    (2, NOTHING),
    (2, EMPTY),
    (0, NOTHING),
    (0, NOTHING),
    (0, NOTHING),
    (0, EMPTY),
    (1, NOTHING),
    (1, EMPTY),
    (0, NOTHING),
    (0, EMPTY),
    (2, NOTHING),
    (2, EMPTY),
    (0, Act::Lost(0)),
];

#[test]
fn each_message_arrives_or_is_lost(rt: HostRuntime) {
    assert_eq!(rt; stuck(&rt, rt.alloc(), 2, &DELIVERED), None);
    assert_eq!(rt; stuck(&rt, rt.alloc(), 3, &REPLIES), None);
}

/// Returns the script in which this message is posted to client 0 before the replies of voters 0 and 1,
/// whom it asks, or behind them, when it is inside. It takes all that waits, and has lost this many
/// messages.
fn posted(before: bool, message: ToClient, lost: u64) -> [(usize, Act); 5] {
    let (post, ask) = ((0, Act::Post(message)), (0, Act::Ask(0, 0)));
    let (first, second) = if before { (post, ask) } else { (ask, post) };
    let heard = (0, Act::Hear);
    [first, second, heard, (0, Act::Lost(lost)), (0, Act::End)]
}

/// Returns a message of this voter to client 0.
fn of_voter(voter: u8, body: ClientBody) -> ToClient {
    ToClient {
        voter,
        client: 0,
        seen: 1,
        body,
    }
}

/// Whether a message is posted to client 0 before the replies that it waits for, its voter, and how many
/// messages client 0 loses:
///
/// - none by a FAIL;
/// - the message itself, if it brings a vote of the request that the board does not offer;
/// - none, if it brings a vote of another request from a voter whose vote client 0 does not hold: that
///   voter takes client 0's RELEASE;
/// - that RELEASE, if client 0 holds the vote: it would free a vote that is taken;
/// - the voter's own LOCKED, if the RELEASE frees the vote before client 0 takes it.
const POSTED: [(bool, u8, ClientBody, u64); 5] = [
    (true, 0, ClientBody::Fail { stamp: 7 }, 0),
    (true, 0, ClientBody::Locked { stamp: 1, grant: 7 }, 1),
    (false, 2, ClientBody::Locked { stamp: 7, grant: 1 }, 0),
    (false, 0, ClientBody::Locked { stamp: 7, grant: 1 }, 1),
    (true, 0, ClientBody::Locked { stamp: 7, grant: 1 }, 1),
];

#[test]
fn a_pump_counts_what_it_lost(rt: HostRuntime) {
    for (before, voter, body, lost) in POSTED {
        let script = posted(before, of_voter(voter, body), lost);
        assert_eq!(rt; stuck(&rt, rt.alloc(), 1, &script), None);
    }
}
