//! Worlds: scripts, and all that they write. `tables` has one more.
use test_served::Row;
use test_served::samples::{MAJORITY, MAJORITY_PLAN, ONE, ONE_PLAN};

/// A vote that arrives again, after its client gave it up.
const LATE_VOTE: &str =
    "world 3 1000\nask 2\nask 1\nask 0\ndeliver 0\ndeliver 4\ndeliver 1\ndeliver 6\ndeliver 8\ndeliver 2\ndeliver 9\ndeliver 10\ndeliver 6\ndeliver 11\ndeliver 3\ndeliver 12\n";

const LATE_VOTE_OUTPUT: &str =
    "m 0 request 2 0 1\nm 1 request 2 1 1\nm 2 request 1 0 1\nm 3 request 1 2 1\nm 4 request 0 1 1\nm 5 request 0 2 1\nm 6 locked 0 2 1 1 1\nm 7 locked 1 0 1 1 1\nm 8 fail 1 2 1 1\nm 9 inquire 0 2 1 1\nm 10 relinquish 2 0 1\nm 11 locked 0 1 1 2 1\nm 12 locked 2 1 1 1 1\nenter 1\n";

/// Releases and requests that arrive again after the client has left.
const LATE_RELEASE: &str =
    "world 1 1000\nask 0\ndeliver 0\ndeliver 1\nleave 0\ndeliver 2\nask 0\ndeliver 3\ndeliver 4\ndeliver 2\nleave 0\ndeliver 0\ndeliver 1\ndeliver 9\nleave 0\n";

const LATE_RELEASE_OUTPUT: &str =
    "m 0 request 0 0 1\nm 1 locked 0 0 1 1 1\nenter 0\nm 2 release 0 0 1\nleave 0\nm 3 request 0 0 2\nm 4 locked 0 0 2 2 2\nenter 0\nm 5 release 0 0 2\nleave 0\nm 6 release 0 0 1\n! U1 NoSuchMessage 9\n! C2 NotInside\n";

/// The last stamp and the last grant are used.
const SPENT: &str =
    "world 2 1\nask 0\nask 1\ndeliver 0\ndeliver 1\ndeliver 2\nleave 0\ndeliver 4\nask 0\n";

const SPENT_OUTPUT: &str =
    "m 0 request 0 0 1\nm 1 request 1 0 1\nm 2 locked 0 0 1 1 1\nm 3 fail 0 1 1 1\nenter 0\nm 4 release 0 0 1\nleave 0\n! V1 GrantsSpent\n! C4 StampsSpent\n";

/// A RELEASE that a new request overtakes.
const OVERTAKEN: &str =
    "world 2 1000\nask 0\nask 1\ndeliver 0\ndeliver 1\ndeliver 2\nleave 0\nask 0\ndeliver 5\ndeliver 4\ndeliver 6\n";

const OVERTAKEN_OUTPUT: &str =
    "m 0 request 0 0 1\nm 1 request 1 0 1\nm 2 locked 0 0 1 1 1\nm 3 fail 0 1 1 1\nenter 0\nm 4 release 0 0 1\nleave 0\nm 5 request 0 0 2\nm 6 locked 0 1 1 2 2\nm 7 fail 0 0 2 2\nenter 1\n";

/// Reminders, and steps that are refused.
const REMINDED: &str =
    "world 1 1000\nask 0\nremind-client 0\ndeliver 0\ndeliver 1\nremind-voter 0\ndeliver 3\ndeliver 4\nremind-client 0\ngive-up 0\nask 0\nask 7\nremind-voter 3\n";

const REMINDED_OUTPUT: &str =
    "m 0 request 0 0 1\nm 1 request 0 0 1\nm 2 locked 0 0 1 1 1\nm 3 locked 0 0 1 1 1\nm 4 locked 0 0 1 1 1\nenter 0\n! C3 NotAsking\n! C1 Busy\n! U2 NoSuchClient 7\n! U3 NoSuchVoter 3\n";

pub(crate) const PLAYED: [Row; 6] = [
    (
        "world",
        &[MAJORITY, MAJORITY_PLAN, LATE_VOTE],
        LATE_VOTE_OUTPUT,
    ),
    ("world", &[MAJORITY, MAJORITY_PLAN, "world 1 1\n"], ""),
    ("world", &[ONE, ONE_PLAN, LATE_RELEASE], LATE_RELEASE_OUTPUT),
    ("world", &[ONE, ONE_PLAN, SPENT], SPENT_OUTPUT),
    ("world", &[ONE, ONE_PLAN, OVERTAKEN], OVERTAKEN_OUTPUT),
    ("world", &[ONE, ONE_PLAN, REMINDED], REMINDED_OUTPUT),
];

pub(crate) const REFUSED: [Row; 3] = [
    ("world", &[MAJORITY, MAJORITY_PLAN, ""], "A7 BadLine 1"),
    (
        "world",
        &[MAJORITY, MAJORITY_PLAN, "world 65 1000\n"],
        "A7 BadLine 1",
    ),
    (
        "world",
        &[MAJORITY, MAJORITY_PLAN, "world 1 1000\nask 256\n"],
        "A7 BadLine 2",
    ),
];
