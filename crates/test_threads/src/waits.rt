//! How a member of a drive waits: when it yields, sleeps and reminds. Its clock is one of these tests,
//! which counts its readings: a yield reads it twice, and so does a sleep.
ghost use Rattle.std.specs.Prelude.{◌≡◌};
ghost use Rattle.members.specs.Members.{AreIdle};

use cluster::{Blank, Cluster, ClusterFault, ClusterName, Driven, Member, NoGate, drive};
use dealer::Plans;
use message::{ClientBody, ToClient};
use requester::Seen;
use std::alloc::Global;
use std::io;
use std::marker::Brand;
use std::sync::Wait;
use std::sync::atomic::{AtomicU64, Ordering};
use std::test::Fail;
use std::thread::Threads;
use std::time::{Clock, Duration, Instant};
use test_plans::whole_plan;

/// How a clock goes, and when a message comes.
#[derive(Clone, Copy)]
struct Course {
    /// How many microseconds it goes on after each reading.
    pace: u64,
    /// The reading, counted from 0, at which a message comes to client 0.
    rings_at: u64,
}

/// A clock that goes on at its readings alone, and counts them.
#[derive(Drop)]
struct Counting<'a, N: ClusterName, R: Threads + Wait> {
    rt: &'a R,
    cluster: &'a Cluster<N>,
    course: Course,
    readings: AtomicU64,
}

impl<'a, N: ClusterName, R: Threads + Wait> Wait for Counting<'a, N, R> {}

impl<'a, N: ClusterName, R: Threads + Wait> Threads for Counting<'a, N, R> {}

impl<'a, N: ClusterName, R: Threads + Wait> Clock for Counting<'a, N, R> {
    fn monotonic(&self) -> io::Result<Duration> {
        let reading = self.readings.fetch_add(1, Ordering::SeqCst);
        if reading == self.course.rings_at {
            let fail = ToClient {
                voter: 0,
                client: 0,
                seen: 1,
                body: ClientBody::Fail { stamp: 1 },
            };
            let _ = self.cluster.post(self.rt, fail);
        }
        Ok(Duration::from_micros(reading.wrapping_mul(self.course.pace)))
    }

    fn since_1970(&self) -> io::Result<Duration> {
        Ok(Duration::ZERO)
    }
}

/// Has a member enter by the first three messages. Returns whether it did.
fn enters<N: ClusterName>(rt: &impl Wait, cluster: &Cluster<N>, member: &mut Member<N>) -> bool {
    let asked = member.ask(rt, cluster).is_ok();
    let _ = member.pump(rt, cluster);
    let _ = member.pump(rt, cluster);
    (member.pump(rt, cluster) == Some(Seen::Entered)) & asked
}

/// Returns how many messages wait for a member, of 10,000 at most.
fn heard<N: ClusterName>(rt: &impl Wait, cluster: &Cluster<N>, member: &mut Member<N>) -> u64 {
    for count in 0..10_000u64 {
        if member.pump(rt, cluster).is_none() {
            return count;
        }
    }
    10_000
}

/// How a member waited: how often its clock was read, how many messages came to the one that is inside,
/// and whether its turns were spent.
#[derive(Clone, Copy, PartialEq, Eq)]
struct Waited {
    readings: u64,
    messages: u64,
    spent: bool,
}

/// Returns whether a drive ended because the turns of client 0 were spent.
fn has_spent<N: ClusterName>(driven: &Result<Vec<Member<N>>, Driven<N>>) -> bool {
    match driven {
        Ok(_) => false,
        Err(driven) => driven.fault == ClusterFault::TurnsSpent(0),
    }
}

/// Has one member enter, and then drives the others, which can't get in, for this many turns.
fn waits<N: ClusterName + Send + Sync, R: Threads + Wait + Clock + Sync>(
    rt: &R,
    cluster: &Cluster<N>,
    others: Vec<Member<N>>,
    inside: &mut Member<N>,
    turns: u64,
    course: Course,
) -> Waited
    requires idle { AreIdle others.items }
{
    let entered = enters(rt, cluster, inside);
    let clock = Counting {
        rt,
        cluster,
        course,
        readings: AtomicU64::new(0),
    };
    let driven = drive(&clock, cluster, others, 1, turns, &NoGate);
    Waited {
        readings: clock.readings.load(Ordering::SeqCst),
        messages: heard(rt, cluster, inside),
        spent: entered & has_spent(&driven),
    }
}

/// Has client 1 of two enter, and then drives client 0 for this many turns. Returns `None` if memory runs
/// out.
fn waited_by<N: ClusterName + Send + Sync, R: Threads + Wait + Clock + Sync>(
    rt: &R,
    alloc: Global,
    blank: Blank,
    turns: u64,
    course: Course,
) -> Option<Waited>
    requires { blank ≡ N.cluster }
{
    let Ok((cluster, mut members)) = blank.open::<N>(alloc) else {
        return None;
    };
    match members.pop() {
        Some(mut inside) => Some(waits(rt, &cluster, members, &mut inside, turns, course)),
        None => None,
    }
}

/// Does the same on a cluster of three voters, all of which each client asks.
fn client_0_waits<R: Threads + Wait + Clock + Sync>(
    rt: &R,
    alloc: Global,
    turns: u64,
    course: Course,
) -> Option<Waited> {
    let plans = Plans::single(whole_plan(alloc)?);
    let blank = Blank::new(alloc, plans, 2, 1).ok()?;
    waited_by::<Brand, _>(rt, alloc, blank, turns, course)
}

/// No reading is this one, so no message comes.
const NEVER: u64 = u64::MAX;

/// Paces of the clock, readings at which a message comes, turns; how often the clock is read, and how many
/// messages come to the client that is inside.
///
/// - An INQUIRE of each voter comes at once, and a LOCKED and an INQUIRE of each by each reminder.
/// - The looks behind 17 to 500 empty ones yield. Those behind 512, 544, and so on to 992 sleep.
/// - The reminder before look 1001 brings three messages, so the next one is before look 2004.
/// - After a reminder it sleeps behind 16 times as many looks: 512, 528, and so on.
/// - If a yield took more than 500 microseconds, the client sleeps in place of yielding from then on:
///   behind 32, 64, and so on to 992 empty looks.
/// - A message may come when the client yields for the first time, behind 17 empty looks, or when it
///   sleeps for the first time, behind 512. The look after that finds it, and the count begins anew.
const ROWS: [(u64, u64, u64, u64, u64); 15] = [
    (0, NEVER, 17, 0, 3),
    (0, NEVER, 18, 2, 3),
    (0, NEVER, 501, 2 * 484, 3),
    (0, NEVER, 512, 2 * 484, 3),
    (0, NEVER, 513, 2 * 485, 3),
    (0, NEVER, 1_000, 2 * 500, 3),
    (0, NEVER, 1_001, 2 * 500, 9),
    (0, NEVER, 2_004, 2 * 500 + 2 * 515, 15),
    (500, NEVER, 1_000, 2 * 500, 3),
    (501, NEVER, 1_000, 2 * 32, 3),
    (1_000_000, NEVER, 1_000, 2 * 32, 3),
    (0, 0, 1_018, 2 * 501, 3),
    (0, 0, 1_019, 2 * 501, 9),
    (0, 968, 1_513, 2 * 985, 3),
    (0, 968, 1_514, 2 * 985, 9),
];

#[test]
fn a_member_yields_then_sleeps_then_reminds(rt: HostRuntime) {
    for (pace, rings_at, turns, readings, messages) in ROWS {
        let wanted = Waited {
            readings,
            messages,
            spent: true,
        };
        let course = Course { pace, rings_at };
        let found = client_0_waits(&rt, rt.alloc(), turns, course);
        assert!(rt; found == Some(wanted), "{turns} turns");
    }
}

/// The client sleeps 16 times for a millisecond before its first reminder, and nothing wakes it.
#[test]
fn a_member_sleeps_for_a_millisecond(rt: HostRuntime) -> Result<(), Fail> {
    let still = Course {
        pace: 0,
        rings_at: NEVER,
    };
    let before = Instant::now(&rt)?;
    let found = client_0_waits(&rt, rt.alloc(), 1_000, still);
    let time = before.elapsed(&rt)?;
    assert!(rt; found.is_some() & (time >= Duration::from_millis(16)));
    Ok(())
}
