//! Members that sleep: what wakes them, and when they don't sleep. The clock is one of these tests,
//! which counts its readings. A sleep reads it, and the first reading can be the moment at which a
//! message comes.
use crate::scripts::{Act, EMPTY, NOTHING, stuck};
use members::{Cluster, ClusterName, Member};
use message::{ClientBody, ToClient};
use std::io;
use std::sync::Wait;
use std::sync::atomic::{AtomicU64, Ordering};
use std::test::Fail;
use std::time::{Clock, Duration, Instant};

/// A clock that stands still. When it is read for the first time, a message comes to a client.
#[derive(Drop)]
struct Ringing<'a, N: ClusterName, R: Wait> {
    rt: &'a R,
    cluster: &'a Cluster<N>,
    client: Option<u8>,
    readings: AtomicU64,
}

/// Posts a FAIL of voter 0 to a client.
fn ring<N: ClusterName>(rt: &impl Wait, cluster: &Cluster<N>, client: u8) {
    let _ = cluster.post(
        rt,
        ToClient {
            voter: 0,
            client,
            seen: 1,
            body: ClientBody::Fail { stamp: 1 },
        },
    );
}

impl<'a, N: ClusterName, R: Wait> Wait for Ringing<'a, N, R> {}

impl<'a, N: ClusterName, R: Wait> Clock for Ringing<'a, N, R> {
    fn monotonic(&self) -> io::Result<Duration> {
        if self.readings.fetch_add(1, Ordering::SeqCst) == 0 {
            if let Some(client) = self.client {
                ring(self.rt, self.cluster, client);
            }
        }
        Ok(Duration::ZERO)
    }

    fn since_1970(&self) -> io::Result<Duration> {
        Ok(Duration::ZERO)
    }
}

/// When a message comes to a member that goes to sleep.
#[derive(Clone, Copy)]
pub(crate) enum Comes {
    Never,
    /// Before it goes to sleep.
    Before,
    /// Once it sleeps.
    Meanwhile,
}

/// Has a member sleep for this many milliseconds. Returns whether it slept.
pub(crate) fn sleeps<N: ClusterName, R: Wait + Clock>(
    rt: &R,
    cluster: &Cluster<N>,
    member: &Member<N>,
    comes: Comes,
    millis: u64,
) -> bool {
    let client = member.client();
    let clock = Ringing {
        rt,
        cluster,
        client: match comes {
            Comes::Meanwhile => Some(client),
            _ => None,
        },
        readings: AtomicU64::new(0),
    };
    match comes {
        Comes::Before => ring(rt, cluster, client),
        _ => {}
    }
    member.sleep(&clock, cluster, Duration::from_millis(millis));
    clock.readings.load(Ordering::SeqCst) > 0
}

/// More milliseconds than a test takes, even on a busy machine.
const LONG: u64 = 10_000;

/// Who sleeps while which message comes, and sees it then.
const SLEEPS: [(usize, Act); 10] = [
    (1, Act::Sleep(Comes::Never, 1, true)),
    (1, EMPTY),
    (1, Act::Sleep(Comes::Before, LONG, false)),
    (1, NOTHING),
    (0, Act::Sleep(Comes::Meanwhile, LONG, true)),
    (0, NOTHING),
    (1, Act::Sleep(Comes::Meanwhile, LONG, true)),
    (1, NOTHING),
    (2, Act::Sleep(Comes::Meanwhile, LONG, true)),
    (2, NOTHING),
];

#[test]
fn a_member_sleeps_until_a_message_comes(rt: HostRuntime) -> Result<(), Fail> {
    let before = Instant::now(&rt)?;
    let stuck = stuck(&rt, rt.alloc(), 3, &SLEEPS);
    let time = before.elapsed(&rt)?;
    assert!(rt; (stuck == None) & (time < Duration::from_millis(LONG)));
    Ok(())
}
