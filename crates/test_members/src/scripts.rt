//! Scripts: calls of members on one thread, each with what it has to return.
ghost use Rattle.std.specs.Prelude.{◌≡◌};

use crate::sleeps::{Comes, sleeps};
use dealer::{Plans, Receipt};
use members::{Blank, CloseFault, Cluster, ClusterFault, ClusterName, Member};
use message::{ToClient, ToVoter};
use requester::{ClientFault, Seen};
use std::alloc::Global;
use std::marker::Brand;
use std::sync::Wait;
use std::time::Clock;
use test_plans::majority_plan;

/// A call of a member or of its cluster, and what it has to return.
#[derive(Clone, Copy)]
pub(crate) enum Act {
    /// Draws this ticket, which names this quorum.
    Ask(u64, usize),
    Pump(Option<Seen>),
    /// Takes all messages that wait. Whatever is seen of them is right.
    Hear,
    /// Asks, takes this many messages, of which the last one lets it in, passes and leaves.
    Serve(u32),
    /// Goes to sleep for this many milliseconds while a message comes. Says whether it has to sleep.
    Sleep(Comes, u64, bool),
    /// Reminds. No message finds no memory.
    Remind,
    /// Sends once more what it sent last. No message finds no memory.
    Repeat,
    /// Passes by this number.
    Pass(Result<u64, ClusterFault>),
    Leave(Result<(), ClusterFault>),
    GiveUp(Result<(), ClusterFault>),
    /// Leaves or gives up, whichever it can.
    End,
    /// Has lost this many messages.
    Lost(u64),
    /// Gives a voter a message. This many messages are lost.
    Deliver(ToVoter, u64),
    /// Puts a message into a mailbox.
    Post(ToClient),
}

/// A script: who acts, and how.
pub(crate) type Script<'a> = &'a [(usize, Act)];

pub(crate) const NOTHING: Act = Act::Pump(Some(Seen::Nothing));

pub(crate) const ENTERED: Act = Act::Pump(Some(Seen::Entered));

pub(crate) const EMPTY: Act = Act::Pump(None);

pub(crate) const LEAVE: Act = Act::Leave(Ok(()));

const GIVE_UP: Act = Act::GiveUp(Ok(()));

/// Creates a cluster of 1 to 64 clients, which ask any two of three voters. Each may draw 40 tickets.
pub(crate) fn blank_of(alloc: Global, clients: u8) -> Option<Blank> {
    if clients == 0 || clients > 64 {
        return None;
    }
    Blank::new(alloc, Plans::single(majority_plan(alloc)?), clients, 40).ok()
}

/// Has a member take the messages that wait for it, 64 at most. Returns whether it took all.
fn hears<N: ClusterName>(rt: &impl Wait, cluster: &Cluster<N>, member: &mut Member<N>) -> bool {
    for _ in 0..64 {
        if member.pump(rt, cluster).is_none() {
            return true;
        }
    }
    false
}

/// Returns whether a member asks, enters by the last of this many messages, passes and leaves.
fn serves<N: ClusterName>(
    rt: &impl Wait,
    cluster: &Cluster<N>,
    member: &mut Member<N>,
    messages: u32,
) -> bool {
    let asked = member.ask(rt, cluster).is_ok();
    for _ in 1..messages {
        let _ = member.pump(rt, cluster);
    }
    let entered = member.pump(rt, cluster) == Some(Seen::Entered);
    let passed = member.pass(cluster).is_ok();
    asked & entered & passed & member.leave(rt, cluster).is_ok()
}

/// Returns whether a member's call returns what it has to.
fn does<N: ClusterName, R: Wait + Clock>(
    rt: &R,
    cluster: &Cluster<N>,
    member: &mut Member<N>,
    act: Act,
) -> bool {
    match act {
        Act::Ask(ticket, quorum) => member.ask(rt, cluster) == Ok(Receipt { ticket, quorum }),
        Act::Pump(seen) => member.pump(rt, cluster) == seen,
        Act::Hear => hears(rt, cluster, member),
        Act::Serve(messages) => serves(rt, cluster, member, messages),
        Act::Sleep(comes, millis, slept) => sleeps(rt, cluster, member, comes, millis) == slept,
        Act::Remind => member.remind(rt, cluster) == 0,
        Act::Repeat => member.repeat(rt, cluster) == 0,
        Act::Pass(passed) => member.pass(cluster) == passed,
        Act::Leave(left) => member.leave(rt, cluster) == left,
        Act::GiveUp(gave_up) => member.give_up(rt, cluster) == gave_up,
        Act::End => member.leave(rt, cluster).is_ok() | member.give_up(rt, cluster).is_ok(),
        Act::Lost(lost) => member.lost() == lost,
        Act::Deliver(message, lost) => cluster.deliver(rt, &message) == lost,
        Act::Post(message) => cluster.post(rt, message),
    }
}

/// Plays a script, and returns how many of its acts return what they have to, before the first that
/// doesn't.
fn plays<N: ClusterName, R: Wait + Clock>(
    rt: &R,
    cluster: &Cluster<N>,
    members: &mut [Member<N>],
    script: Script,
) -> usize {
    let mut done: usize = 0;
    for (place, act) in script {
        let answered = match members.get_mut(*place) {
            Some(member) => does(rt, cluster, member, *act),
            None => false,
        };
        if !answered {
            break;
        }
        done = done.saturating_add(1);
    }
    done
}

/// Plays a script that leaves all members idle, and closes the cluster. Returns how far the script went.
fn ends<N: ClusterName, R: Wait + Clock>(
    rt: &R,
    alloc: Global,
    cluster: Cluster<N>,
    mut members: Vec<Member<N>>,
    script: Script,
) -> Option<usize> {
    let done = plays(rt, &cluster, members.as_mut_slice(), script);
    cluster.close(alloc, members).ok()?;
    Some(done)
}

/// Opens a cluster, plays a script, and closes the cluster. If it can't be closed yet, plays the rest of
/// the script, and closes it then. Returns how far the whole script went, or `None` if the cluster was
/// not closed.
fn opened<N: ClusterName, R: Wait + Clock>(
    rt: &R,
    alloc: Global,
    blank: Blank,
    script: Script,
    rest: Script,
) -> Option<usize>
    requires { blank ≡ N.cluster }
{
    let Ok((cluster, mut members)) = blank.open::<N>(alloc) else {
        return None;
    };
    let done = plays(rt, &cluster, members.as_mut_slice(), script);
    match cluster.close(alloc, members) {
        Ok(_) => Some(done),
        Err(
            CloseFault::Unready {
                cluster,
                members,
                ..
            },
        ) => {
            let more = ends(rt, alloc, cluster, members, rest)?;
            Some(done.saturating_add(more))
        }
        Err(CloseFault::Lost(_)) => None,
    }
}

/// Plays a script on a cluster that is opened for it, and tries to close the cluster before the rest of the
/// script. Returns how far it went if that is not to its end, or 0 if there is no cluster, or it was not
/// closed.
pub(crate) fn stuck_at<R: Wait + Clock>(
    rt: &R,
    alloc: Global,
    blank: Option<Blank>,
    script: Script,
    rest: Script,
) -> Option<usize> {
    let Some(blank) = blank else {
        return Some(0);
    };
    match opened::<Brand, _>(rt, alloc, blank, script, rest) {
        Some(done) if done == script.len().saturating_add(rest.len()) => None,
        done => Some(done.unwrap_or(0)),
    }
}

/// Plays a script on a cluster of this many clients. Returns how far it went if that is not to its end.
pub(crate) fn stuck<R: Wait + Clock>(
    rt: &R,
    alloc: Global,
    clients: u8,
    script: Script,
) -> Option<usize> {
    stuck_at(rt, alloc, blank_of(alloc, clients), script, &[])
}

/// Three members ask for quorums that overlap, and get in one after the other.
pub(crate) const THREE: [(usize, Act); 30] = [
    (0, Act::Ask(0, 0)),
    (2, Act::Ask(1, 1)),
    (1, Act::Ask(2, 2)),
    (0, NOTHING),
    (0, ENTERED),
    (0, EMPTY),
    (2, NOTHING),
    (2, NOTHING),
    (2, NOTHING),
    (2, EMPTY),
    (1, NOTHING),
    (1, NOTHING),
    (1, EMPTY),
    (1, Act::Remind),
    (1, NOTHING),
    (1, NOTHING),
    (1, EMPTY),
    (0, NOTHING),
    (0, EMPTY),
    (0, LEAVE),
    (1, ENTERED),
    (1, EMPTY),
    (1, LEAVE),
    (2, NOTHING),
    (2, ENTERED),
    (2, EMPTY),
    (2, LEAVE),
    (0, Act::Lost(0)),
    (1, Act::Lost(0)),
    (2, Act::Lost(0)),
];

/// One member passes twice in one request, gives up the next, and passes again.
const ONE: [(usize, Act); 16] = [
    (0, Act::Ask(0, 0)),
    (0, NOTHING),
    (0, ENTERED),
    (0, Act::Pass(Ok(0))),
    (0, Act::Pass(Ok(1))),
    (0, LEAVE),
    (0, Act::Ask(1, 1)),
    (0, NOTHING),
    (0, GIVE_UP),
    (0, NOTHING),
    (0, Act::Ask(2, 2)),
    (0, NOTHING),
    (0, ENTERED),
    (0, Act::Pass(Ok(2))),
    (0, LEAVE),
    (0, Act::Lost(0)),
];

/// What a member sends twice has the same effect as what it sends once. Each voter replies to the
/// repeated REQUEST again, and takes no notice of the repeated RELEASE.
const REPEATED: [(usize, Act); 18] = [
    (0, Act::Repeat),
    (0, EMPTY),
    (0, Act::Ask(0, 0)),
    (0, Act::Repeat),
    (0, NOTHING),
    (0, ENTERED),
    (0, NOTHING),
    (0, NOTHING),
    (0, EMPTY),
    (1, Act::Ask(1, 1)),
    (0, LEAVE),
    (0, Act::Repeat),
    (1, NOTHING),
    (1, NOTHING),
    (1, ENTERED),
    (1, EMPTY),
    (1, LEAVE),
    (0, Act::Lost(0)),
];

/// What a fresh member refuses.
const FRESH: [(usize, Act); 4] = [
    (0, Act::Pass(Err(ClusterFault::NotInside))),
    (0, EMPTY),
    (0, Act::Leave(Err(ClusterFault::NotInside))),
    (
        0,
        Act::GiveUp(Err(ClusterFault::Client(ClientFault::NotAsking))),
    ),
];

#[test]
fn members_do_what_the_scripts_say(rt: HostRuntime) {
    for script in [
        THREE.as_slice(),
        ONE.as_slice(),
        REPEATED.as_slice(),
        FRESH.as_slice(),
    ] {
        assert_eq!(rt; stuck(&rt, rt.alloc(), 3, script), None);
    }
}
