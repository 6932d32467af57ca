//! Wrong rules of a voting lock, and for each a history that a law of `world` or `progress` excludes.
//!
//! A wrong rule inside `voter` or `requester` is refused by the prover in those crates. These tests
//! show that the laws themselves depend on the rules: they have no place for an automaton with another
//! rule. The tests play the proved automata, and change what these receive. With two wrong rules, two
//! clients are inside at once:
//!
//! - a voter that frees its vote on any RELEASE of the client that has it, whatever the stamp;
//! - a client that counts a repeated LOCKED of a vote that it gave back.
//!
//! With a third one, a client enters three times before a request that every voter of its quorum
//! knows:
//!
//! - a client whose clock does not follow the stamps that its voters saw.
//!
//! With a fourth one, a vote whose RELEASE was lost does not come back by reminders:
//!
//! - a client that takes no messages while it is idle.
//!
//! With a fifth one, two clients wait for each other for good, however often all are reminded:
//!
//! - a client that keeps a vote when its voter asks for it.
//!
//! With the right rules each history has one client inside at most, and two entries before such a
//! request, the vote comes back, and the client that precedes gets in.
use crate::play::Step::{Arrive, Ask, GiveUp, Leave, RemindVoter, Rounds};
use crate::play::{ALL, Step, played};
use crate::rules::Rule;
use std::alloc::{AllocError, Global};

/// Client 0 enters and leaves, and enters again. Client 1 asks. Then the RELEASEs of the first time,
/// messages 4 and 5, arrive once more.
const LATE_RELEASE: &[Step] = &[
    Ask(0, &[0, 1]),
    Arrive(&[0, 1, 2, 3]),
    Leave(0),
    Arrive(&[4, 5]),
    Ask(0, &[0, 1]),
    Arrive(&[6, 7, 8, 9]),
    Ask(1, &[0, 1]),
    Arrive(&[10, 11, 4, 5, 14, 15]),
];

/// Client 2 gets the vote of voter 0 (message 5), and gives it back when voter 0 asks for it. Client
/// 1 enters with it. Then client 2 gets the vote of voter 2, and message 5 arrives once more.
const LATE_VOTE: &[Step] = &[
    Ask(0, &[1, 2]),
    Arrive(&[1]),
    Ask(2, &[0, 2]),
    Arrive(&[3, 4, 5, 6]),
    Ask(1, &[0, 1]),
    Arrive(&[7, 9, 10, 8, 11, 12]),
    GiveUp(0),
    Arrive(&[14, 15, 5]),
];

/// Client 1 asks and gives up three times, and asks with stamp 4. Client 0 gets both votes with stamp 1
/// (messages 16 and 17). Then both voters know client 1's request.
///
/// Client 0 enters and leaves, and asks again at once, while client 1 waits. Both voters give client 1
/// their votes (messages 22 and 23, then 34 and 35), ask for them back, and get them back.
const OVERTAKEN: &[Step] = &[
    Ask(1, &[0, 1]),
    GiveUp(1),
    Ask(1, &[0, 1]),
    GiveUp(1),
    Ask(1, &[0, 1]),
    GiveUp(1),
    Ask(1, &[0, 1]),
    Ask(0, &[0, 1]),
    Arrive(&[14, 15, 12, 13]),
    Arrive(&[16, 17, 18, 19]),
    Leave(0),
    Arrive(&[20, 21]),
    Ask(0, &[0, 1]),
    Arrive(&[24, 25, 22, 26, 28, 23, 27, 30, 29, 31]),
    Leave(0),
    Arrive(&[32, 33]),
    Ask(0, &[0, 1]),
    Arrive(&[36, 37, 34, 38, 40, 35, 39, 42, 41, 43]),
];

/// Client 0 enters and leaves, and its RELEASEs (messages 4 and 5) are lost. Client 1 asks. The voters
/// are reminded: the answers to their LOCKEDs (messages 10 and 11) are the RELEASEs 12 and 13.
const LOST_RELEASES: &[Step] = &[
    Ask(0, &[0, 1]),
    Arrive(&[0, 1, 2, 3]),
    Leave(0),
    Ask(1, &[0, 1]),
    Arrive(&[6, 7]),
    RemindVoter(0),
    RemindVoter(1),
    Arrive(&[10, 11, 12, 13, 14, 15]),
];

/// Client 0 gets the vote of voter 0, and client 1 that of voter 1. Each waits for the other's vote, and
/// everybody is reminded.
const EACH_HAS_ONE: &[Step] = &[
    Ask(0, &[0, 1]),
    Ask(1, &[0, 1]),
    Arrive(&[0, 3, 4, 5]),
    Rounds(20),
];

/// Wrong rules, with histories in which they let two clients in at once.
const TWO_INSIDE: [(Rule, &[Step]); 2] = [
    (Rule::AnyReleaseFrees, LATE_RELEASE),
    (Rule::VoteGivenBackCounts, LATE_VOTE),
];

/// Returns the most clients that are inside at once.
fn most_inside(alloc: Global, rule: Rule, steps: &[Step]) -> Result<usize, AllocError> {
    Ok(played(alloc, rule, ALL, steps)?.most_inside)
}

/// Returns whether one client is inside at most with the right rules, and two are with this one.
fn lets_two_in(alloc: Global, rule: Rule, steps: &[Step]) -> bool {
    (most_inside(alloc, Rule::Sound, steps) == Ok(1)) & (most_inside(alloc, rule, steps) == Ok(2))
}

#[test]
fn wrong_rules_let_two_clients_in(rt: HostRuntime) {
    for (rule, steps) in &TWO_INSIDE {
        assert!(rt; lets_two_in(rt.alloc(), *rule, steps));
    }
}

/// A wrong rule, a history in which a client enters more often by it or not at all, the client, and how
/// often it enters with the right rules and with the wrong one.
type Row = (Rule, &'static [Step], usize, u64, u64);

const ENTRIES: [Row; 3] = [
    (Rule::ClockIgnoresVoters, OVERTAKEN, 0, 2, 3),
    (Rule::IdleClientIsDeaf, LOST_RELEASES, 1, 1, 0),
    (Rule::AskedVoteIsKept, EACH_HAS_ONE, 0, 1, 0),
];

/// Returns how often a client enters, or `None` if memory runs out.
fn entries_of(alloc: Global, rule: Rule, steps: &[Step], client: usize) -> Option<u64> {
    let entries = played(alloc, rule, ALL, steps).ok()?.entries;
    entries.get(client).copied()
}

/// Returns whether a client enters as often as a row says.
fn has_entries(alloc: Global, row: &Row) -> bool {
    let (rule, steps, client, sound, wrong) = *row;
    (entries_of(alloc, Rule::Sound, steps, client) == Some(sound))
        & (entries_of(alloc, rule, steps, client) == Some(wrong))
}

#[test]
fn wrong_rules_let_clients_in_too_often_or_not_at_all(rt: HostRuntime) {
    for row in &ENTRIES {
        assert!(rt; has_entries(rt.alloc(), row));
    }
}
