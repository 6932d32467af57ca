//! Tests of the lock by schedules: at most one client is inside.
ghost use Rattle.std.specs.Prelude.{◌<◌};

use crate::fold::{Fold, is_exclusive};
use crate::schedule::{Schedule, Tally, drawn};
use std::alloc::{AllocError, Global};
use test_plans::Kind;
use world::{Event, Step, Trace, run};

/// How often, at least, the schedules of a row have to try each thing that is counted.
const OFTEN: u64 = 100;

/// Returns the trace of a schedule's run.
fn trace_of(alloc: Global, schedule: &Schedule) -> Result<Trace, AllocError> {
    let sizes = schedule.sizes;
    let plans = schedule.kind.plans(alloc).ok_or(AllocError)?;
    run(alloc, plans, sizes.clients, sizes.limit, &schedule.steps)
}

/// Returns whether a schedule's run is as its steps were when they were drawn, and at most one client was
/// inside at once.
fn is_right(alloc: Global, schedule: &Schedule) -> Result<bool, AllocError> {
    let trace = trace_of(alloc, schedule)?;
    Ok(schedule.fold.is_written_in(&trace) & is_exclusive(&trace.visible))
}

/// Draws the schedule of a seed, and counts what it tried. Returns whether its run is right.
fn plays(alloc: Global, kind: Kind, seed: u64, tally: &mut Tally) -> Result<bool, AllocError> {
    let schedule = drawn(alloc, kind, seed, tally)?;
    is_right(alloc, &schedule)
}

/// A coterie or a pair of them, and seeds: from the first to the end, every third one, or every other
/// one if there are two plans.
type Row = (Kind, u64, u64);

/// Returns what the schedules of a row tried, or `None` if one of them was wrong or memory ran out.
fn tried(alloc: Global, row: &Row) -> Option<Tally> {
    let (kind, first, end) = *row;
    let mut tally = Tally::default();
    let kinds = if kind.are_two() { 2 } else { 3 };
    for seed in first..end {
        if seed % kinds == first % kinds && plays(alloc, kind, seed, &mut tally) != Ok(true) {
            return None;
        }
    }
    Some(tally)
}

/// Returns whether the runs of a row were right, and everything was tried often. Exchanges while a client
/// is inside are counted twice: they are rarer.
fn is_hostile(alloc: Global, row: &Row) -> bool {
    let Some(seen) = tried(alloc, row) else {
        return false;
    };
    let counts = [
        seen.entries,
        seen.repeats,
        seen.late,
        seen.spent,
        seen.absent,
    ];
    let exchanges = [
        seen.exchanges,
        seen.amid.saturating_mul(2),
        seen.refusals,
        seen.later,
    ];
    let often = counts.iter().all(|count| *count >= OFTEN);
    often & (!row.0.are_two() | exchanges.iter().all(|count| *count >= OFTEN))
}

/// Each coterie has a third of the seeds 0 to 999, in two halves, and each pair of coteries half of them.
const ROWS: [[Row; 2]; 4] = [
    [(Kind::Majority, 0, 500), (Kind::Majority, 501, 1000)],
    [(Kind::Grid, 1, 500), (Kind::Grid, 502, 1000)],
    [(Kind::Wheel, 2, 500), (Kind::Wheel, 500, 1000)],
    [
        (Kind::MajorityThenAll, 0, 1000),
        (Kind::GridThenWheel, 1, 1000),
    ],
];

#[test]
fn majorities_keep_exclusion(rt: HostRuntime) {
    for row in &ROWS[0] {
        assert!(rt; is_hostile(rt.alloc(), row));
    }
}

#[test]
fn grids_keep_exclusion(rt: HostRuntime) {
    for row in &ROWS[1] {
        assert!(rt; is_hostile(rt.alloc(), row));
    }
}

#[test]
fn wheels_keep_exclusion(rt: HostRuntime) {
    for row in &ROWS[2] {
        assert!(rt; is_hostile(rt.alloc(), row));
    }
}

#[test]
fn schedules_with_exchanges_keep_exclusion(rt: HostRuntime) {
    for row in &ROWS[3] {
        assert!(rt; is_hostile(rt.alloc(), row));
    }
}

/// Makes these steps, except each delivery whose number in order, from 1 on, is a multiple of `every`.
fn play_without(fold: &mut Fold, steps: &[Step], every: u32) -> Result<(), AllocError>
    requires { 0 < every }
{
    let mut turn = 0u32;
    for step in steps {
        if matches!(step, Step::Deliver(_)) {
            turn = turn.saturating_add(1);
            if turn % every == 0 {
                continue;
            }
        }
        let _ = fold.play(*step)?;
    }
    Ok(())
}

/// Returns whether a trace has the messages, events and refusals of a schedule without these deliveries.
fn is_seen_without(
    alloc: Global,
    schedule: &Schedule,
    every: u32,
    trace: &Trace,
) -> Result<bool, AllocError>
    requires { 0 < every }
{
    let mut fold = Fold::of_kind(alloc, schedule.kind, schedule.sizes)?;
    play_without(&mut fold, &schedule.steps, every)?;
    Ok(fold.is_written_in(trace))
}

/// Returns whether a schedule's run differs from the same steps without every third delivery, and not
/// from all of them.
fn are_skips_seen(alloc: Global, schedule: &Schedule) -> Result<bool, AllocError> {
    let trace = trace_of(alloc, schedule)?;
    let whole = is_seen_without(alloc, schedule, u32::MAX, &trace);
    let skipped = is_seen_without(alloc, schedule, 3, &trace);
    Ok((whole == Ok(true)) & (skipped == Ok(false)))
}

/// Returns the same of a schedule of this coterie.
fn skips_are_seen(alloc: Global, kind: Kind) -> Result<bool, AllocError> {
    let schedule = drawn(alloc, kind, 1000, &mut Tally::default())?;
    are_skips_seen(alloc, &schedule)
}

#[test]
fn skipped_deliveries_are_seen(rt: HostRuntime) {
    for kind in [
        Kind::Majority,
        Kind::Grid,
        Kind::Wheel,
        Kind::MajorityThenAll,
        Kind::GridThenWheel,
    ] {
        assert!(rt; skips_are_seen(rt.alloc(), kind) == Ok(true));
    }
}

/// A client enters.
macro_rules! enters {
    ($client:literal) => {
        Event {
            client: $client,
            entered: true,
        }
    };
}

/// A client leaves.
macro_rules! leaves {
    ($client:literal) => {
        Event {
            client: $client,
            entered: false,
        }
    };
}

/// Events, and whether at most one client is inside at a time.
const EVENTS: [(&[Event], bool); 4] = [
    (&[enters!(0), leaves!(0), enters!(1)], true),
    (&[enters!(0), enters!(1)], false),
    (&[enters!(0), leaves!(1)], false),
    (&[leaves!(0)], false),
];

#[test]
fn two_inside_are_seen(rt: HostRuntime) {
    for (events, wanted) in &EVENTS {
        assert!(rt; is_exclusive(events) == *wanted);
    }
}
