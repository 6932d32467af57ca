//! Clusters that are driven once, and then closed.
ghost use Rattle.std.specs.Prelude.{◌≡◌, ◌≤◌};

use cluster::{Blank, ClusterFault, ClusterName, Driven, Gate, Member, RunRecord, drive};
use dealer::Plans;
use std::alloc::Global;
use std::marker::Brand;
use std::sync::Wait;
use std::thread::Threads;
use std::time::Clock;
use test_plans::majority_plan;

/// A number of turns that no test uses up.
pub(crate) const MANY: u64 = 1_000_000_000_000;

/// The end of a drive: why it ended early, if it did, and the record of its cluster.
#[derive(Drop)]
pub(crate) struct Ending {
    pub(crate) fault: Option<ClusterFault>,
    pub(crate) record: RunRecord,
}

/// Why a drive ended early, how many tickets of the first plan were drawn, and how many passes there
/// were.
pub(crate) type Figures = (Option<ClusterFault>, usize, usize);

impl Ending {
    /// Returns its figures.
    pub(crate) fn figures(&self) -> Figures {
        (
            self.fault,
            self.record.draws.len(),
            self.record.passes.len(),
        )
    }
}

/// Returns the members of a drive, and why it ended early, if it did.
fn came_back<N: ClusterName>(
    driven: Result<Vec<Member<N>>, Driven<N>>,
) -> (Vec<Member<N>>, Option<ClusterFault>) {
    match driven {
        Ok(members) => (members, None),
        Err(driven) => (driven.members, Some(driven.fault)),
    }
}

/// Drives all members of a cluster once, and closes it. Returns `None` if memory runs out, or a member is
/// not back and idle.
fn ended<N: ClusterName + Send + Sync, R: Threads + Wait + Clock + Sync, G: Gate>(
    rt: &R,
    alloc: Global,
    blank: Blank,
    passes: u64,
    turns: u64,
    gate: &G,
) -> Option<Ending>
    requires name { blank ≡ N.cluster }
{
    let Ok((cluster, members)) = blank.open::<N>(alloc) else {
        return None;
    };
    let (members, fault) = came_back(drive(rt, &cluster, members, passes, turns, gate));
    match cluster.close(alloc, members) {
        Ok(record) => Some(Ending { fault, record }),
        Err(_) => None,
    }
}

/// How many clients a cluster has, how many tickets of each plan each may draw, and how many passes
/// each has to make in how many turns.
pub(crate) type Size = (u8, u64, u64, u64);

/// Drives all members of a cluster of these plans once, and closes it.
pub(crate) fn driven_by<R: Threads + Wait + Clock + Sync, G: Gate>(
    rt: &R,
    alloc: Global,
    plans: Option<Plans>,
    size: Size,
    gate: &G,
) -> Option<Ending>
    requires clients { (1 ≤ size.0) × (size.0 ≤ 64) }
    requires quota { size.1 ≤ 1000 }
{
    let (clients, quota, passes, turns) = size;
    let blank = Blank::new(alloc, plans?, clients, quota).ok()?;
    ended::<Brand, _, _>(rt, alloc, blank, passes, turns, gate)
}

/// Does the same on majorities of three voters.
pub(crate) fn driven<R: Threads + Wait + Clock + Sync, G: Gate>(
    rt: &R,
    alloc: Global,
    size: Size,
    gate: &G,
) -> Option<Ending>
    requires clients { (1 ≤ size.0) × (size.0 ≤ 64) }
    requires quota { size.1 ≤ 1000 }
{
    let plans = Plans::single(majority_plan(alloc)?);
    driven_by(rt, alloc, Some(plans), size, gate)
}

/// Returns the figures of that drive.
pub(crate) fn figures<R: Threads + Wait + Clock + Sync, G: Gate>(
    rt: &R,
    alloc: Global,
    size: Size,
    gate: &G,
) -> Option<Figures>
    requires clients { (1 ≤ size.0) × (size.0 ≤ 64) }
    requires quota { size.1 ≤ 1000 }
{
    Some(driven(rt, alloc, size, gate)?.figures())
}
