//! How a member waits for a message.
ghost use Rattle.std.specs.Prelude.{◌≡◌, ◌<◌, ◌/◌, nat_le, nat_lt};
ghost use Rattle.std.specs.Duration.{as_nanos};
ghost use Rattle.cluster.specs.Patience.{PatienceState, Waited, begun, counting_anew, is_long, is_short, looks_for_sleep, may_sleep, may_yield, most_starved, next_step, no_patience, with_empty_look, with_reminder, with_sleep, with_yield};

use members::{Cluster, ClusterName, Member};
use std::marker::Model;
use std::sync::Wait;
use std::thread;
use std::time::{Clock, Duration, Instant};

/// The number of empty looks in a row after which a member yields its thread before each further
/// one.
const EMPTY_BEFORE_YIELD: u64 = 16;

/// The number of empty looks in a row after which a member sleeps before some of the further ones.
const EMPTY_BEFORE_SLEEP: u64 = 500;

/// The number of empty looks in a row after which a member reminds, and counts anew.
const EMPTY_BEFORE_REMINDER: u64 = 1_000;

/// A member that may sleep sleeps before one of this many looks, until it has reminded.
const LOOKS_FOR_SLEEP: u64 = 32;

/// After this many reminders a member that may sleep sleeps before each look.
const REMINDERS_TO_SLEEP: u64 = 5;

/// The longest sleep before a look, in milliseconds.
const LONGEST_SLEEP: u64 = 1;

/// A thread that yielded was kept waiting by other programs if it runs again after more microseconds
/// than this. Members that take turns with it give it back within some ten.
const KEPT_WAITING: u128 = 500;

/// How many sleeps follow after a thread was kept waiting.
const SLEEPS: u64 = 100;

/// How many reminders in a row have to find no memory for a message before a member's work ends.
const MOST_STARVED: u64 = 5;

/// What a member does before its next look.
#[derive(Clone, Copy, Debug, PartialEq, Eq)]
pub(crate) enum Step {
    /// Nothing: it looks at once.
    Look,
    /// It yields its thread.
    Yield,
    /// It sleeps until a message comes or the longest sleep is over.
    Sleep,
    /// It reminds.
    Remind,
}

/// What a member knows when it waits: how long it has waited, whether other programs want the
/// processors, and whether its reminders find memory. A thread that yields its processor to others
/// waits for whole slices of their time, while one that sleeps is woken at once. Contracts see a
/// `PatienceState`.
#[derive(Drop)]
pub(crate) struct Patience {
    /// How many looks in a row found no message, since the last message or reminder.
    empty: u64,
    /// How many more times it sleeps in place of yielding.
    sleeps: u64,
    /// How many times it reminded since its request began.
    reminders: u64,
    /// How many of these reminders found no memory for a message, in a row up to the last one.
    starved: u64,
}

impl Model for Patience {
    ghost use Rattle.cluster.specs.Patience.{PatienceState};

    ghost Value = { PatienceState };

    ghost view = { λ p. record { empty = p.empty; sleeps = p.sleeps; reminders = p.reminders; starved = p.starved } };
}

/// Returns the longest sleep, a millisecond.
fn longest_sleep() -> Duration
    ensures { as_nanos result ≡ 1_000_000 }
{
    Duration::from_millis(LONGEST_SLEEP)
}

/// Returns whether a yield took so long that other programs kept the thread waiting: more than 500
/// microseconds.
fn kept_waiting(time: Duration) -> bool
    ensures { result ≡ nat_lt 500 (as_nanos time / 1_000) }
{
    time.as_micros() > KEPT_WAITING
}

/// Yields the thread. Returns whether it was kept waiting by other programs, as far as the clock can
/// show.
fn yields_long(rt: &impl Clock) -> bool {
    let before = Instant::now(rt);
    thread::yield_now();
    match before {
        Ok(before) => match before.elapsed(rt) {
            Ok(time) => kept_waiting(time),
            Err(_) => false,
        },
        Err(_) => false,
    }
}

/// Returns of how many looks a member sleeps before one, if it may sleep: twice as often after each
/// reminder, and in the end before each.
fn looks_for_sleep(reminders: u64) -> u64
    ensures value { result ≡ looks_for_sleep reminders }
    ensures some { 0 < result }
{
    LOOKS_FOR_SLEEP >> reminders.min(REMINDERS_TO_SLEEP)
}

impl Patience {
    /// Returns what a member knows that has not waited yet.
    pub(crate) fn new() -> Patience
        ensures { result ≡ no_patience }
    {
        Patience {
            empty: 0,
            sleeps: 0,
            reminders: 0,
            starved: 0,
        }
    }

    /// Counts empty looks anew: a look found a message, or the member reminded.
    pub(crate) fn count_anew(&mut self)
        ensures { self.new ≡ counting_anew self.old }
    {
        self.empty = 0;
    }

    /// Notes that a request begins.
    pub(crate) fn begin(&mut self)
        ensures { self.new ≡ begun self.old }
    {
        self.count_anew();
        self.reminders = 0;
        self.starved = 0;
    }

    /// Notes that a look found no message.
    pub(crate) fn found_nothing(&mut self)
        ensures { self.new ≡ with_empty_look self.old }
    {
        self.empty = self.empty.saturating_add(1);
    }

    /// Notes that the thread yielded, and whether other programs kept it waiting.
    fn yielded(&mut self, long: bool)
        ensures { self.new ≡ with_yield long self.old }
    {
        if long {
            self.sleeps = SLEEPS;
        }
    }

    /// Notes that the thread slept.
    fn slept(&mut self)
        ensures { self.new ≡ with_sleep self.old }
    {
        self.sleeps = self.sleeps.saturating_sub(1);
    }

    /// Notes that the member reminded, and whether a message found no memory.
    fn reminded(&mut self, starved: bool)
        ensures { self.new ≡ with_reminder starved self.old }
    {
        self.count_anew();
        self.reminders = self.reminders.saturating_add(1);
        self.starved = if starved {
            self.starved.saturating_add(1)
        } else {
            0
        };
    }

    /// Returns whether so many reminders in a row found no memory that the member's work has to end.
    pub(crate) fn is_starved(&self) -> bool
        ensures { result ≡ nat_le most_starved self.now.starved }
    {
        self.starved >= MOST_STARVED
    }

    /// Returns whether it waited long enough to remind.
    fn is_long(&self) -> bool
        ensures { result ≡ is_long self.now }
    {
        self.empty >= EMPTY_BEFORE_REMINDER
    }

    /// Returns whether it waited so shortly that it looks at once.
    fn is_short(&self) -> bool
        ensures { result ≡ is_short self.now }
    {
        self.empty <= EMPTY_BEFORE_YIELD
    }

    /// Returns whether it may yield: it did not wait long yet, and other programs don't keep it waiting.
    fn may_yield(&self) -> bool
        ensures { result ≡ may_yield self.now }
    {
        self.sleeps == 0 && self.empty <= EMPTY_BEFORE_SLEEP
    }

    /// Returns whether the next look is one before which a member that does not yield sleeps.
    fn may_sleep(&self) -> bool
        ensures { result ≡ may_sleep self.now }
    {
        self.empty % looks_for_sleep(self.reminders) == 0
    }

    /// Returns what a member does before its next look.
    fn next_step(&self) -> Step
        ensures { result ≡ next_step self.now }
    {
        if self.is_long() {
            Step::Remind
        } else if self.is_short() {
            Step::Look
        } else if self.may_yield() {
            Step::Yield
        } else if self.may_sleep() {
            Step::Sleep
        } else {
            Step::Look
        }
    }

    /// Does what a member does before its next look, and notes it.
    pub(crate) fn wait<N: ClusterName, R: Wait + Clock>(
        &mut self,
        rt: &R,
        cluster: &Cluster<N>,
        member: &mut Member<N>,
    )
        ensures same { member.new ≡ record member.old { lost = member.new.lost } }
        ensures waited { Waited (next_step self.old) self.old self.new member.old.lost member.new.lost }
    {
        match self.next_step() {
            Step::Look => {}
            Step::Yield => self.yielded(yields_long(rt)),
            Step::Sleep => {
                member.sleep(rt, cluster, longest_sleep());
                self.slept();
            }
            Step::Remind => {
                let starved = member.remind(rt, cluster);
                self.reminded(starved > 0);
            }
        }
    }
}
