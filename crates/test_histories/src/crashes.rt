//! Histories with crashes. In each, less survives a crash than has to, and two clients are inside at the
//! end. With what has to survive, one is.
use crate::play::{ALL, Keeps, LEAST, Step, played};
use crate::rules::Rule;
use crate::saved::{ClientKeeps, VoterKeeps};
use std::alloc::{AllocError, Global};

/// Voter 0 grants its vote to client 1, and crashes after its LOCKED is sent. Then client 0's
/// request arrives.
const SENT_FIRST: &[Step] = &[
    Step::Ask(0, &[0]),
    Step::Ask(1, &[0]),
    Step::Deliver("request 1 0 1"),
    Step::CrashVoter(0),
    Step::Deliver("locked 0 1 1 1 1"),
    Step::Deliver("request 0 0 1"),
    Step::Deliver("locked 0 0 1 1 1"),
];

/// Client 0 gives up a request, crashes and asks again. The RELEASE of its first request arrives
/// after that. It frees the vote if the second request has the first one's stamp.
const LATE_RELEASE: &[Step] = &[
    Step::Ask(0, &[0]),
    Step::GiveUp(0),
    Step::CrashClient(0),
    Step::Ask(0, &[0]),
    Step::Ask(1, &[0]),
    Step::Deliver("request 0 0 1"),
    Step::Deliver("request 0 0 2"),
    Step::Deliver("request 1 0 1"),
    Step::Deliver("locked 0 0 1 1 1"),
    Step::Deliver("locked 0 0 2 2 2"),
    Step::Deliver("release 0 0 1"),
    Step::Deliver("locked 0 1 1 2 1"),
];

/// Client 2 gives voter 0's first grant back and crashes. Client 1 enters with voter 0's second
/// grant. Then the LOCKED of the first grant arrives at client 2 once more.
const LATE_LOCKED: &[Step] = &[
    Step::Ask(1, &[0, 1]),
    Step::Ask(2, &[0, 2]),
    Step::Ask(0, &[1, 2]),
    Step::Deliver("request 2 0 1"),
    Step::Deliver("locked 0 2 1 1 1"),
    Step::Deliver("request 0 2 1"),
    Step::Deliver("request 2 2 1"),
    Step::Deliver("fail 2 2 1 1"),
    Step::Deliver("request 1 0 1"),
    Step::Deliver("inquire 0 2 1 1"),
    Step::Deliver("relinquish 2 0 1"),
    Step::Deliver("locked 0 1 1 2 1"),
    Step::Deliver("request 1 1 1"),
    Step::Deliver("locked 1 1 1 1 1"),
    Step::GiveUp(0),
    Step::Deliver("release 0 2 1"),
    Step::Deliver("locked 2 2 1 2 1"),
    Step::CrashClient(2),
    Step::Deliver("locked 0 2 1 1 1"),
    Step::Deliver("locked 2 2 1 2 1"),
];

/// Client 1 gives voter 0's first grant back and gives up. Then voter 0 and client 1 crash, and
/// client 1 enters. If voter 0 counts its grants from 1 again, and client 1 does not know that it
/// gave grant 1 back, then its old RELINQUISH of grant 1 ends the new one.
const REUSED_NUMBER: &[Step] = &[
    Step::Ask(1, &[0, 1]),
    Step::Ask(0, &[0, 1]),
    Step::Deliver("request 1 0 1"),
    Step::Deliver("locked 0 1 1 1 1"),
    Step::Deliver("request 0 1 1"),
    Step::Deliver("request 1 1 1"),
    Step::Deliver("fail 1 1 1 1"),
    Step::Deliver("request 0 0 1"),
    Step::Deliver("inquire 0 1 1 1"),
    Step::Deliver("relinquish 1 0 1"),
    Step::GiveUp(0),
    Step::Deliver("release 0 0 1"),
    Step::Deliver("release 0 1 1"),
    Step::GiveUp(1),
    Step::Deliver("release 1 0 1"),
    Step::Deliver("release 1 1 1"),
    Step::CrashVoter(0),
    Step::CrashClient(1),
    Step::Ask(1, &[0, 1]),
    Step::Deliver("request 1 0 2"),
    Step::Deliver("request 1 1 2"),
    Step::Deliver("locked 0 1 2 1 2"),
    Step::Deliver("locked 0 1 2 4 2"),
    Step::Deliver("locked 1 1 2 3 2"),
    Step::Ask(0, &[0, 2]),
    Step::Deliver("request 0 0 2"),
    Step::Deliver("request 0 2 2"),
    Step::Deliver("locked 2 0 2 1 2"),
    Step::Deliver("relinquish 1 0 1"),
    Step::Deliver("locked 0 0 2 2 2"),
    Step::Deliver("locked 0 0 2 5 2"),
];

/// What a voter and a client have after a crash.
macro_rules! keeping {
    ($voter:ident, $client:ident) => {
        Keeps {
            voter: VoterKeeps::$voter,
            client: ClientKeeps::$client,
        }
    };
}

/// Histories, and for each what survives a crash, and how many clients are inside at the end.
const HISTORIES: [(&[Step], &[(Keeps, usize)]); 4] = [
    // a voter forgets all, or has not saved before it sends: here that is the same
    (
        SENT_FIRST,
        &[(ALL, 1), (LEAST, 1), (keeping!(Nothing, All), 2)],
    ),
    // a client forgets its stamp
    (
        LATE_RELEASE,
        &[(ALL, 1), (LEAST, 1), (keeping!(All, Nothing), 2)],
    ),
    // a client forgets the last grants that it gave back, and asks on
    (
        LATE_LOCKED,
        &[(ALL, 1), (LEAST, 1), (keeping!(All, Request), 2)],
    ),
    // or its voter uses a number twice
    (
        REUSED_NUMBER,
        &[
            (ALL, 1),
            (LEAST, 1),
            (keeping!(Nothing, All), 1),
            (keeping!(Nothing, Least), 2),
        ],
    ),
];

/// Returns how many clients are inside at the end of a history.
fn inside(alloc: Global, steps: &[Step], keeps: Keeps) -> Result<usize, AllocError> {
    Ok(played(alloc, Rule::Sound, keeps, steps)?.inside())
}

/// Returns whether as many clients are inside at the end of a history as each row says.
fn ends(alloc: Global, steps: &[Step], rows: &[(Keeps, usize)]) -> bool {
    for (keeps, wanted) in rows {
        if inside(alloc, steps, *keeps) != Ok(*wanted) {
            return false;
        }
    }
    true
}

#[test]
fn two_get_in_if_less_survives(rt: HostRuntime) {
    for (steps, rows) in &HISTORIES {
        assert!(rt; ends(rt.alloc(), steps, rows));
    }
}
