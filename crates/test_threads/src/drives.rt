//! Drives: two members at once, a plan that is exchanged, a gate that stays shut, and members that run out
//! of tickets.
ghost use Rattle.std.specs.Prelude.{nat_lt};

use crate::clusters::{MANY, driven, driven_by, figures};
use certificate::Plan;
use cluster::{ClusterFault, Gate, NoGate, RunRecord};
use dealer::DealFault;
use quorum_set::Side;
use replay::check_record;
use std::alloc::Global;
use test_gate::Meeting;
use test_plans::{bridged_plans, majority_plan, whole_plan};

#[test]
fn two_members_run_at_once(rt: HostRuntime) {
    let gate = Meeting::new();
    let found = figures(&rt, rt.alloc(), (2, 1, 1, MANY), &gate);
    assert!(rt; (found == Some((None, 2, 2))) & gate.took_place());
}

#[test]
fn members_pass_once_for_each_ticket(rt: HostRuntime) {
    let found = figures(&rt, rt.alloc(), (2, 3, 4, MANY), &NoGate);
    let spent = ClusterFault::Deal(DealFault::QuotaSpent);
    assert!(rt; found == Some((Some(spent), 6, 6)));
}

/// How many tickets of a plan were drawn, how often each quorum and each voter was used, and the busiest.
type Counts<'a> = (u64, &'a [u64], &'a [u64], u64);

/// Returns whether the record is accepted for the draws of one plan, and has these counts.
fn has_counts(
    alloc: Global,
    plan: Option<Plan>,
    side: Side,
    record: &RunRecord,
    counts: Counts,
) -> Option<bool> {
    let account = check_record(alloc, &plan?, side, record).ok()?;
    let (drawn, quorums, voters, busiest) = counts;
    Some(
        (account.drawn == drawn)
            & (account.quorums.as_slice() == quorums)
            & (account.voters.as_slice() == voters)
            & (account.busiest == busiest),
    )
}

/// The counts of ten passes by the first plan, and of ten by the second.
const FIRST: Counts = (10, &[4, 3, 3], &[7, 7, 6], 7);

const SECOND: Counts = (10, &[10], &[10, 10, 10], 10);

#[test]
fn half_of_the_passes_use_each_plan(rt: HostRuntime) {
    let alloc = rt.alloc();
    let plans = bridged_plans(alloc, majority_plan(alloc), whole_plan(alloc));
    let Some(ending) = driven_by(&rt, alloc, plans, (2, 10, 10, MANY), &NoGate) else {
        panic!(rt; "no record")
    };
    let record = &ending.record;
    let first = has_counts(alloc, majority_plan(alloc), Side::First, record, FIRST);
    let second = has_counts(alloc, whole_plan(alloc), Side::Second, record, SECOND);
    assert!(rt; (record.register == 20) & (first == Some(true)) & (second == Some(true)));
}

/// A gate that never lets client 0 pass.
#[derive(Drop)]
struct Shut;

impl Gate for Shut {
    ghost lets = { λ _ client. nat_lt 0 client };

    fn before(&self, _client: u8) {}

    fn drawn(&self, _client: u8) {}

    fn may_pass(&self, client: u8) -> bool {
        client != 0
    }
}

/// Returns whether the record of a run on majorities is accepted.
fn is_accepted(alloc: Global, record: &RunRecord) -> bool {
    match majority_plan(alloc) {
        Some(plan) => check_record(alloc, &plan, Side::First, record).is_ok(),
        None => false,
    }
}

#[test]
fn a_client_without_turns_leaves_a_sound_record(rt: HostRuntime) {
    let Some(ending) = driven(&rt, rt.alloc(), (2, 1, 1, 100_000), &Shut) else {
        panic!(rt; "no record")
    };
    let record = &ending.record;
    let spent = ending.fault == Some(ClusterFault::TurnsSpent(0));
    let counted = record.register == record.passes.len() as u64;
    assert!(rt; spent & counted & (record.draws.len() == 2) & is_accepted(rt.alloc(), record));
}
