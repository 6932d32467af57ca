//! Runs in threads, and the replays of their records.
use std::test::Fail;
use test_gate::Meeting;
use test_served::samples::{GRID, GRID_PLAN, MAJORITY, MAJORITY_PLAN};
use test_served::{Row, answer, answer_at};

pub(crate) const RUNS: [Row; 2] = [
    (
        "run 2 0 5",
        &[GRID, GRID_PLAN],
        "quorum-record 1\nregister 0\n",
    ),
    ("run 2 1 0", &[GRID, GRID_PLAN], "K2 TurnsSpent 0"),
];

#[test]
fn the_record_of_a_run_is_replayed(rt: HostRuntime) -> Result<(), Fail> {
    let line = "run 4 100 1000000000000";
    let record = answer(&rt, rt.alloc(), line, &[GRID, GRID_PLAN])?;
    let account = answer(
        &rt,
        rt.alloc(),
        "replay",
        &[GRID, GRID_PLAN, record.as_str()],
    )?;
    let wanted =
        "drawn 400\nvoter v0 300\nvoter v1 300\nvoter v2 300\nvoter v3 300\nbusiest 300\nregister 400\n";
    assert!(rt; record.as_str().ends_with("\nregister 400\n") & (account.as_str() == wanted));
    Ok(())
}

#[test]
fn two_clients_run_at_once(rt: HostRuntime) -> Result<(), Fail> {
    let gate = Meeting::new();
    let line = "run 2 1 1000000000000";
    let record = answer_at(&rt, rt.alloc(), line, &[MAJORITY, MAJORITY_PLAN], &gate)?;
    assert!(rt; record.as_str().ends_with("\nregister 2\n") & gate.took_place());
    Ok(())
}
