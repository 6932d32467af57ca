//! Records that are refused. `tables` has those that are replayed.
use test_served::Row;
use test_served::samples::{MAJORITY, MAJORITY_PLAN};

/// The text of a record of three draws and two passes: its second draw, its second pass and its
/// register.
macro_rules! record {
    ($draw:literal, $pass:literal, $register:literal) => {
        concat!(
            "quorum-record 1\ndraw 0 0 0\ndraw 1 2 2\ndraw ",
            $draw,
            "\npass 0 0\npass ",
            $pass,
            "\nregister ",
            $register,
            "\n"
        )
    };
}

pub(crate) const REPLAYED: [Row; 7] = [
    (
        "replay",
        &[MAJORITY, MAJORITY_PLAN, record!("0 0 0", "1 1", "2")],
        "A1 TicketTwice 0",
    ),
    (
        "replay",
        &[MAJORITY, MAJORITY_PLAN, record!("0 3 0", "1 1", "2")],
        "A2 TicketMissing 1",
    ),
    (
        "replay",
        &[MAJORITY, MAJORITY_PLAN, record!("0 1 2", "1 1", "2")],
        "A3 WrongQuorum 1",
    ),
    (
        "replay",
        &[MAJORITY, MAJORITY_PLAN, record!("0 1 1", "1 0", "2")],
        "A4 PassTwice 0",
    ),
    (
        "replay",
        &[MAJORITY, MAJORITY_PLAN, record!("0 1 1", "1 2", "2")],
        "A5 PassMissing 1",
    ),
    (
        "replay",
        &[MAJORITY, MAJORITY_PLAN, record!("0 1 1", "1 1", "3")],
        "A6 WrongRegister 2",
    ),
    (
        "replay",
        &[MAJORITY, MAJORITY_PLAN, "register 0\n"],
        "A7 BadLine 1",
    ),
];
