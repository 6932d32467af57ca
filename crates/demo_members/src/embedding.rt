//! A service with the lock inside, from a coterie's text to passes. Copy it, with
//! `proofs/embedding/lines_of`, and put your own work where the lock is held.
ghost use Rattle.std.specs.Prelude.{◌≡◌};

use certificate::Plan;
use cluster::{Blank, Cluster, ClusterName, Member};
use coterie_file::read_coterie;
use dealer::Plans;
use planner::plan;
use requester::Seen;
use std::alloc::Global;
use std::marker::Brand;
use std::sync::Wait;
use std::thread;

/// Any two of three replicas.
const COTERIE: &str =
    "voters = [\"a\", \"b\", \"c\"]\nquorums = [[\"a\", \"b\"], [\"a\", \"c\"], [\"b\", \"c\"]]\n";

/// How many clients there are, and how many tickets each may draw.
const CLIENTS: u8 = 2;

const QUOTA: u64 = 100;

/// How many times a client looks into its mailbox before it gives up.
const TURNS: u32 = 1_000_000;

/// At each such number of looks a client repeats its messages, in case one was lost.
const TURNS_BEFORE_REMINDER: u32 = 1000;

/// Waits until the member is inside. Returns whether it is.
fn enters<N: ClusterName>(rt: &impl Wait, cluster: &Cluster<N>, member: &mut Member<N>) -> bool {
    for turn in 0..TURNS {
        match member.pump(rt, cluster) {
            Some(Seen::Entered) => return true,
            Some(_) => {}
            None => thread::yield_now(),
        }
        if turn % TURNS_BEFORE_REMINDER == TURNS_BEFORE_REMINDER - 1 {
            member.remind(rt, cluster);
        }
    }
    false
}

/// Takes the lock, works, and gives it back. Returns the number of the pass, or `None` if the
/// member did not get in.
fn work_once<N: ClusterName>(
    rt: &impl Wait,
    cluster: &Cluster<N>,
    member: &mut Member<N>,
) -> Option<u64> {
    member.ask(rt, cluster).ok()?;
    if !enters(rt, cluster, member) {
        let _ = member.give_up(rt, cluster);
        return None;
    }
    let number = member.pass(cluster).ok();
    // Here no other client is inside. Send the number along with all that you write elsewhere.
    member.leave(rt, cluster).ok()?;
    number
}

/// Has each client work twice. Returns a line for each pass.
fn lines_of_passes<N: ClusterName>(
    rt: &impl Wait,
    alloc: Global,
    cluster: &Cluster<N>,
    members: &mut [Member<N>],
) -> Option<String> {
    let mut lines = String::new(alloc);
    for _ in 0..2 {
        for member in members.iter_mut() {
            let number = work_once(rt, cluster, member)?;
            let client = member.client();
            write!(lines, "client {client} passed with number {number}\n").ok()?;
        }
    }
    Some(lines)
}

/// Opens a cluster, has each client work, and closes the cluster. Returns a line for each pass and
/// one for the register.
fn serve<N: ClusterName>(rt: &impl Wait, alloc: Global, blank: Blank) -> Option<String>
    requires { blank ≡ N.cluster }
{
    let (cluster, mut members) = blank.open::<N>(alloc).ok()?;
    let lines = lines_of_passes(rt, alloc, &cluster, members.as_mut_slice());
    let record = cluster.close(alloc, members).ok()?;
    format!(in alloc; "{}register {}", lines?, record.register).ok()
}

/// Reads the coterie, and plans it.
fn plan_of_coterie(alloc: Global) -> Option<Plan> {
    let named = read_coterie(alloc, COTERIE).ok()?;
    plan(alloc, named.coterie(), named.capacities()).ok()
}

/// Plans the coterie, and serves. Returns `None` if any call fails.
pub(crate) fn lines_of(rt: &impl Wait, alloc: Global) -> Option<String> {
    let plan = plan_of_coterie(alloc)?;
    let blank = Blank::new(alloc, Plans::single(plan), CLIENTS, QUOTA).ok()?;
    serve::<Brand>(rt, alloc, blank)
}
