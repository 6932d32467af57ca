//! Command lines, the parts of their input, and what they have to write.
use test_served::Row;
use test_served::samples::{
    GRID, GRID_PLAN, MAJORITY, MAJORITY_PLAN, RACE, RACE_OUTPUT, RECORD, RECORD_ACCOUNT, WHEEL,
    WHEEL_PLAN,
};

pub(crate) const ROWS: [Row; 11] = [
    ("make majority 3", &[], MAJORITY),
    ("make wheel 3", &[], WHEEL),
    ("make grid 2 2", &[], GRID),
    ("plan", &[MAJORITY], MAJORITY_PLAN),
    ("plan", &[WHEEL], WHEEL_PLAN),
    ("plan", &[GRID], GRID_PLAN),
    ("check", &[GRID, GRID_PLAN], "load 3/4 cycle 4\n"),
    (
        "deal 5",
        &[WHEEL, WHEEL_PLAN],
        "0 0\n1 1\n2 2\n3 3\n4 3\nvoter v0 3\nvoter v1 3\nvoter v2 3\nvoter v3 3\nbusiest 3\n",
    ),
    ("world", &[MAJORITY, MAJORITY_PLAN, RACE], RACE_OUTPUT),
    ("replay", &[MAJORITY, MAJORITY_PLAN, RECORD], RECORD_ACCOUNT),
    (
        "run 1 2 100000",
        &[GRID, GRID_PLAN],
        "quorum-record 1\ndraw 0 0 0\ndraw 0 1 1\npass 0 0\npass 0 1\nregister 2\n",
    ),
];
