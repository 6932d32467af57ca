//! Runs, from the plan to the record.
ghost use Rattle.std.specs.Prelude.{◌≡◌, ◌*◌, ◌<◌, ◌≤◌, None, IfOk, IfErr};
ghost use Rattle.numbers.specs.Bounds.{max_clients, max_tickets};
ghost use Rattle.certificate.specs.Certificates.{IsCertificate};
ghost use Rattle.members.specs.Clusters.{IsCluster};
ghost use Rattle.qlock_cli.specs.Runs.{AreLet, IsRun, EndsRun, run_refusal};

use certificate::Plan;
use cluster::{Blank, CloseFault, ClusterFault, ClusterName, Gate, RunRecord, drive};
use dealer::Plans;
use run_outcome::RunFault;
use std::alloc::Global;
use std::marker::Brand;
use std::sync::Wait;
use std::thread::Threads;
use std::time::Clock;

/// Returns the fault of a run that a fault of its cluster ended: a vote that is out stays a vote that is
/// out, and each fault that is out of memory is the same one.
fn ended_by(fault: ClusterFault) -> RunFault
    ensures { result ≡ run_refusal fault }
{
    RunFault::from(fault)
}

/// Opens a cluster of one plan, has each of its members make `passes` passes, closes it, and returns
/// the record.
fn run_blank<N: ClusterName + Send + Sync, R: Threads + Wait + Clock + Sync, G: Gate>(
    rt: &R,
    alloc: Global,
    blank: Blank,
    passes: u64,
    turns: u64,
    gate: &G,
) -> Result<RunRecord, RunFault>
    requires name { blank ≡ N.cluster }
    requires cluster { IsCluster blank }
    requires plan { IsCertificate blank.office.cycle }
    requires alone { blank.second ≡ None }
    requires quota { passes ≤ blank.quota }
    ensures run { IfOk result (IsRun blank.office.cycle blank.board.clients passes) }
    ensures ended { IfErr result (EndsRun blank.board.clients) }
    ensures let_pass { IfOk result (λ _. 0 < passes → AreLet (G.lets gate.now) blank.board.clients) }
    ensures in_turns { IfOk result (λ _. 2 * passes ≤ turns) }
{
    let Ok((cluster, members)) = blank.open::<N>(alloc) else {
        return Err(RunFault::OutOfMemory);
    };
    let members = match drive(rt, &cluster, members, passes, turns, gate) {
        Ok(members) => members,
        Err(driven) => return Err(ended_by(driven.fault)),
    };
    match cluster.close(alloc, members) {
        Ok(run) => Ok(run),
        Err(CloseFault::Unready { .. }) => unreachable!(),
        Err(CloseFault::Lost(fault)) => Err(ended_by(fault)),
    }
}

/// Runs the lock of a plan with 1 to 64 clients and returns the record. Each client makes `passes`
/// passes in a thread of its own. Consumes the plan.
///
/// Each pump and each question to the gate is a turn. Each client has `turns` turns for all its
/// passes.
///
/// If a client's work ends early, for instance because its turns are spent, returns the fault of
/// the smallest such client. There is no record of a pass if the gate never lets one of the clients
/// pass, or with fewer than two turns for each pass.
pub fn record_of_run<R: Threads + Wait + Clock + Sync, G: Gate>(
    rt: &R,
    alloc: Global,
    plan: Plan,
    clients: u8,
    passes: u64,
    turns: u64,
    gate: &G,
) -> Result<RunRecord, RunFault>
    requires some_client { 1 ≤ clients }
    requires few_clients { clients ≤ max_clients }
    requires tickets { clients * passes ≤ max_tickets }
    ensures run { IfOk result (IsRun plan clients passes) }
    ensures ended { IfErr result (EndsRun clients) }
    ensures let_pass { IfOk result (λ _. 0 < passes → AreLet (G.lets gate.now) clients) }
    ensures in_turns { IfOk result (λ _. 2 * passes ≤ turns) }
{
    // The call's contract says that the plan has a certificate. The number is not needed.
    let _ = plan.busiest();
    match Blank::new(alloc, Plans::single(plan), clients, passes) {
        Ok(blank) => run_blank::<Brand, _, _>(rt, alloc, blank, passes, turns, gate),
        Err(_) => Err(RunFault::OutOfMemory),
    }
}
