//! Coteries and plans whose voters have capacities.
use test_served::Row;
use test_served::samples::{FAST_HUB, FAST_HUB_PLAN, WHEEL_PLAN};

/// The wheel with three rims, and a third key.
macro_rules! wheel {
    ($capacity:literal) => {
        concat!(
            "voters = [\"v0\", \"v1\", \"v2\", \"v3\"]\ncapacity = ",
            $capacity,
            "\nquorums = [[\"v0\", \"v1\"], [\"v0\", \"v2\"], [\"v0\", \"v3\"], [\"v1\", \"v2\", \"v3\"]]\n"
        )
    };
}

/// Any two of three voters, and a third key.
macro_rules! majority {
    ($capacity:literal) => {
        concat!(
            "voters = [\"a\", \"b\", \"c\"]\nquorums = [[\"a\", \"b\"], [\"a\", \"c\"], [\"b\", \"c\"]]\ncapacity = ",
            $capacity,
            "\n"
        )
    };
}

/// The text of a plan of version 2: its load, its cycle, the capacities, the quorums' weights and
/// the voters' weights.
macro_rules! plan_two {
    ($load:literal, $cycle:literal, $capacities:literal, $quorums:literal, $voters:literal) => {
        concat!(
            "quorum-plan 2\nload ",
            $load,
            "\ncycle ",
            $cycle,
            "\ncapacity ",
            $capacities,
            "\nquorum ",
            $quorums,
            "\nvoter ",
            $voters,
            "\n"
        )
    };
}

/// Plans that are found, and capacities that are refused.
pub(crate) const PLANNED: [Row; 6] = [
    ("plan", &[FAST_HUB], FAST_HUB_PLAN),
    (
        "plan",
        &[wheel!("[1000, 1, 1, 1]")],
        plan_two!("1/3", "3", "1000 1 1 1", "1 1 1 0", "0 1 1 1"),
    ),
    (
        "plan",
        &[majority!("[2, 2, 2]")],
        plan_two!("1/3", "3", "2 2 2", "1 1 1", "1 1 1"),
    ),
    ("plan", &[majority!("[2, 1]")], "F7 CapacityCount 2"),
    ("plan", &[majority!("[2, 0, 1]")], "F8 BadCapacity 1"),
    ("plan", &[majority!("[2, 1, 1.0]")], "F2 Keys"),
];

/// Plans that are checked, and tickets that are dealt.
pub(crate) const SERVED: [Row; 4] = [
    ("check", &[FAST_HUB, FAST_HUB_PLAN], "load 3/7 cycle 7\n"),
    ("check", &[FAST_HUB, WHEEL_PLAN], "P9 WrongCapacity"),
    (
        "check",
        &[
            FAST_HUB,
            plan_two!("3/5", "5", "2 1 1 1", "1 1 1 2", "2 1 1 1"),
        ],
        "P8 NotOptimalRatio 3 1 7 3 5",
    ),
    (
        "deal 7",
        &[FAST_HUB, FAST_HUB_PLAN],
        "0 0\n1 1\n2 2\n3 3\n4 0\n5 1\n6 2\nvoter v0 6\nvoter v1 3\nvoter v2 3\nvoter v3 3\nbusiest 6\nratio 3/1\n",
    ),
];
