//! Two members of a cluster of three voters, each of which passes once while a gate holds the second
//! one up.
ghost use Rattle.std.specs.Prelude.{◌≡◌, IfOk};
ghost use Rattle.members.specs.Members.{AreIdle};

use crate::held::{Held, Hold};
use cluster::{Blank, Cluster, ClusterFault, ClusterName, Member, drive};
use dealer::Plans;
use message::{ToVoter, VoterBody};
use std::alloc::{AllocError, Global};
use std::marker::Brand;
use std::sync::Wait;
use std::thread;
use std::thread::Threads;
use std::time::Clock;
use test_plans::majority_plan;

/// How many turns each member has. That is enough for one reminder, which comes after 1,000 empty looks,
/// and for the replies to it.
const TURNS: u64 = 1_200;

/// A message after which voter 0 takes client 0's first request as finished. So it never replies to
/// that request, nor to reminders.
const FINISHES: ToVoter = ToVoter {
    client: 0,
    voter: 0,
    body: VoterBody::Release { stamp: 1 },
};

/// Whether voter 0 takes client 0's first request.
#[derive(Clone, Copy, PartialEq, Eq)]
pub(crate) enum Request {
    Taken,
    Ignored,
}

/// Members that were driven, and why their work ended early, if it did.
#[derive(Drop)]
struct Driven<N: ClusterName> {
    members: Vec<Member<N>>,
    fault: Option<ClusterFault>,
}

/// What became of a client.
#[derive(Clone, Copy)]
struct End {
    /// `passed`, or `K2` if its turns were spent.
    how: &'static str,
    /// How many messages its calls lost.
    lost: u64,
}

/// The result of both drives. A client has no end if it ran out of memory.
struct Outcome {
    first: Option<End>,
    second: Option<End>,
    /// How many passes the cluster's record has.
    register: u64,
    /// Whether the gate waited in vain.
    late: bool,
}

impl<N: ClusterName> Driven<N> {
    /// Returns what became of this client, or `None` if it ran out of memory.
    fn end_of(&self, client: u8) -> Option<End> {
        let how = match self.fault {
            None => "passed",
            Some(ClusterFault::TurnsSpent(spent)) if spent == client => "K2",
            Some(_) => return None,
        };
        let lost = self.members.first()?.lost();
        Some(End { how, lost })
    }
}

/// Splits the first member off.
fn split<N: ClusterName>(
    mut members: Vec<Member<N>>,
) -> Result<(Vec<Member<N>>, Vec<Member<N>>), AllocError>
    requires idle { AreIdle members.items }
    ensures first { IfOk result (λ parts. AreIdle parts.0.items) }
    ensures second { IfOk result (λ parts. AreIdle parts.1.items) }
{
    let at = members.len().min(1);
    let others = members.split_off(at)?;
    Ok((members, others))
}

/// Drives the member of a client, and notes at the gate that its work is over.
fn drives<N: ClusterName + Send + Sync, R: Threads + Wait + Clock + Sync>(
    rt: &R,
    cluster: &Cluster<N>,
    members: Vec<Member<N>>,
    client: u8,
    gate: &Held,
) -> Driven<N>
    requires { AreIdle members.items }
{
    let driven = match drive(rt, cluster, members, 1, TURNS, gate) {
        Ok(members) => Driven {
            members,
            fault: None,
        },
        Err(driven) => Driven {
            members: driven.members,
            fault: Some(driven.fault),
        },
    };
    gate.end(client);
    driven
}

/// Closes a cluster with its members. Returns the number of passes, or `None` if memory runs out.
fn register_of<N: ClusterName>(
    alloc: Global,
    cluster: Cluster<N>,
    mut members: Vec<Member<N>>,
    mut others: Vec<Member<N>>,
) -> Option<u64> {
    members.append(&mut others).ok()?;
    let record = cluster.close(alloc, members).ok()?;
    Some(record.register)
}

/// Opens a cluster of two clients, drives each of them, and closes the cluster. Returns `None` if memory
/// ran out for more than messages.
fn outcome_of<N: ClusterName + Send + Sync, R: Threads + Wait + Clock + Sync>(
    host: &HostRuntime,
    rt: &R,
    blank: Blank,
    hold: Hold,
    request: Request,
) -> Option<Outcome>
    requires { blank ≡ N.cluster }
{
    let alloc = host.alloc();
    let Ok((cluster, members)) = blank.open::<N>(alloc) else {
        return None;
    };
    let Ok((first, second)) = split(members) else {
        return None;
    };
    if request == Request::Ignored {
        let _ = cluster.deliver(rt, &FINISHES);
    }
    let gate = Held::new(host, hold);
    let shared = &cluster;
    let at_gate = &gate;
    let (second, first) = thread::join(
        rt,
        move ||
            requires { AreIdle second.items }
        { drives(rt, shared, second, 1, at_gate) },
        move ||
            requires { AreIdle first.items }
        { drives(rt, shared, first, 0, at_gate) },
    );
    let late = gate.was_late();
    let first_end = first.end_of(0);
    let second_end = second.end_of(1);
    let register = register_of(alloc, cluster, first.members, second.members)?;
    Some(Outcome {
        first: first_end,
        second: second_end,
        register,
        late,
    })
}

/// Returns what became of both clients, as a line. Returns `None` if memory ran out for more than
/// messages.
pub(crate) fn line_of<R: Threads + Wait + Clock + Sync>(
    host: &HostRuntime,
    rt: &R,
    hold: Hold,
    request: Request,
) -> Option<String> {
    let alloc = host.alloc();
    let plan = majority_plan(alloc)?;
    let blank = Blank::new(alloc, Plans::single(plan), 2, 1).ok()?;
    let Outcome {
        first,
        second,
        register,
        late,
    } = outcome_of::<Brand, _>(host, rt, blank, hold, request)?;
    let (first, second) = (first?, second?);
    let when = if late { ", late" } else { "" };
    format!(in alloc;
        "{} {}, lost {} {}, register {register}{when}",
        first.how, second.how, first.lost, second.lost
    )
    .ok()
}
