//! Members in threads, while other threads give nodes and mailboxes messages that no client and no
//! voter of the cluster would send.
ghost use Rattle.std.specs.Prelude.{◌≡◌};

use crate::scripts::blank_of;
use members::{Blank, Cluster, ClusterName, Member, RunRecord};
use message::{ClientBody, ToClient, ToVoter, VoterBody};
use requester::Seen;
use std::alloc::Global;
use std::marker::Brand;
use std::sync::Wait;
use std::thread;
use std::thread::Threads;

/// How many passes each member tries to make.
const PASSES: u32 = 40;

/// How many times a member looks into its mailbox for one pass.
const TURNS: u32 = 20_000;

/// The highest stamp and grant that is forged, from 1 on.
const NUMBERS: u64 = 60;

/// How often each number is forged.
const ROUNDS: u32 = 8;

/// The number of looks after which a member reminds.
const TURNS_BEFORE_REMINDER: u32 = 500;

/// Pumps until the member is inside, if it gets in before its turns are spent. Returns whether it is.
fn enters<N: ClusterName>(rt: &impl Wait, cluster: &Cluster<N>, member: &mut Member<N>) -> bool {
    for turn in 1..=TURNS {
        match member.pump(rt, cluster) {
            Some(Seen::Entered) => return true,
            Some(_) => {}
            None => thread::yield_now(),
        }
        if turn % TURNS_BEFORE_REMINDER == 0 {
            member.remind(rt, cluster);
        }
    }
    false
}

/// Has a member pass as often as it can, and leaves it idle.
fn passes<N: ClusterName>(rt: &impl Wait, cluster: &Cluster<N>, member: &mut Member<N>) {
    for _ in 0..PASSES {
        if member.ask(rt, cluster).is_err() {
            return;
        }
        if enters(rt, cluster, member) {
            let _ = member.pass(cluster);
            let _ = member.leave(rt, cluster);
        } else {
            let _ = member.give_up(rt, cluster);
        }
    }
}

/// Gives a voter's node every kind of message from a client with this number, and posts its
/// replies.
fn forge_to_voter<N: ClusterName>(
    rt: &impl Wait,
    cluster: &Cluster<N>,
    client: u8,
    voter: u8,
    number: u64,
) {
    let bodies = [
        VoterBody::Request { stamp: number },
        VoterBody::Relinquish { grant: number },
        VoterBody::Release { stamp: number },
    ];
    for body in bodies {
        let message = ToVoter {
            client,
            voter,
            body,
        };
        let _ = cluster.deliver(rt, &message);
    }
}

/// Puts every kind of message from a voter with this number into a client's mailbox.
fn forge_to_client<N: ClusterName>(
    rt: &impl Wait,
    cluster: &Cluster<N>,
    voter: u8,
    client: u8,
    number: u64,
) {
    let bodies = [
        ClientBody::Locked {
            stamp: number,
            grant: number,
        },
        ClientBody::Fail { stamp: number },
        ClientBody::Inquire { grant: number },
    ];
    for body in bodies {
        let message = ToClient {
            voter,
            client,
            seen: number,
            body,
        };
        let _ = cluster.post(rt, message);
    }
}

/// Forges messages of all voters, clients and numbers, round after round, from the first number on.
fn forges<N: ClusterName>(rt: &impl Wait, cluster: &Cluster<N>, first: u64) {
    for _ in 0..ROUNDS {
        for step in 0..NUMBERS {
            let number = (first % NUMBERS + step) % NUMBERS + 1;
            for voter in 0..3u8 {
                for client in 0..3u8 {
                    forge_to_voter(rt, cluster, client, voter, number);
                    forge_to_client(rt, cluster, voter, client, number);
                }
            }
            thread::yield_now();
        }
    }
}

/// Has each member pass, in a thread of its own. Returns the members.
fn all_pass<N: ClusterName + Send + Sync, R: Threads + Wait + Sync>(
    rt: &R,
    cluster: &Cluster<N>,
    mut members: Vec<Member<N>>,
) -> Vec<Member<N>> {
    let threads = members.len();
    if threads > 0 {
        thread::for_each_mut(
            rt,
            members.as_mut_slice(),
            threads,
            &|_, member: &mut Member<N>| { passes(rt, cluster, member) },
        );
    }
    members
}

/// Returns the record of a cluster whose members pass while two threads forge messages, or `None`
/// if it doesn't close or memory runs out.
fn record_of<N: ClusterName + Send + Sync, R: Threads + Wait + Sync>(
    rt: &R,
    alloc: Global,
    blank: Blank,
) -> Option<RunRecord>
    requires { blank ≡ N.cluster }
{
    let (cluster, members) = blank.open::<N>(alloc).ok()?;
    let shared = &cluster;
    let (members, _) = thread::join(
        rt,
        move || { all_pass(rt, shared, members) },
        move || {
            thread::join(
                rt,
                move || { forges(rt, shared, 0) },
                move || { forges(rt, shared, 30) },
            )
        },
    );
    cluster.close(alloc, members).ok()
}

/// Returns whether a cluster of three members closes, and somebody passed and somebody lost a message.
/// Then no two were between a read and a write of the register at once, as the record is sound.
fn passes_and_closes<R: Threads + Wait + Sync>(rt: &R, alloc: Global) -> bool {
    let Some(blank) = blank_of(alloc, 3) else {
        return false;
    };
    match record_of::<Brand, _>(rt, alloc, blank) {
        Some(record) => (record.register > 0) & (record.lost > 0),
        None => false,
    }
}

#[test]
fn members_pass_among_forged_messages(rt: HostRuntime) {
    assert!(rt; passes_and_closes(&rt, rt.alloc()));
}
