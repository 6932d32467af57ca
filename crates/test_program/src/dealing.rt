//! Tickets that are dealt.
use test_served::Row;
use test_served::samples::{LONGER_PLAN, WHEEL, WHEEL_PLAN};

pub(crate) const DEALT: [Row; 4] = [
    (
        "deal 0",
        &[WHEEL, WHEEL_PLAN],
        "voter v0 0\nvoter v1 0\nvoter v2 0\nvoter v3 0\nbusiest 0\n",
    ),
    (
        "deal 7",
        &[WHEEL, WHEEL_PLAN],
        "0 0\n1 1\n2 2\n3 3\n4 3\n5 0\n6 1\nvoter v0 5\nvoter v1 4\nvoter v2 4\nvoter v3 3\nbusiest 5\n",
    ),
    (
        "deal 10",
        &[WHEEL, WHEEL_PLAN],
        "0 0\n1 1\n2 2\n3 3\n4 3\n5 0\n6 1\n7 2\n8 3\n9 3\nvoter v0 6\nvoter v1 6\nvoter v2 6\nvoter v3 6\nbusiest 6\n",
    ),
    (
        "deal 10",
        &[WHEEL, LONGER_PLAN],
        "0 0\n1 1\n2 2\n3 3\n4 0\n5 1\n6 2\n7 3\n8 3\n9 3\nvoter v0 6\nvoter v1 6\nvoter v2 6\nvoter v3 6\nbusiest 6\n",
    ),
];
