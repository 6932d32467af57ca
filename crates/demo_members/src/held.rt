//! A gate that holds client 1 up while client 0 works.
use cluster::Gate;
use std::sync::atomic::{AtomicBool, Ordering};
use std::thread;
use std::time::Duration;

/// Where a gate holds client 1 up, and until when. Each hold fixes the order in which the two clients
/// work.
#[derive(Clone, Copy, PartialEq, Eq)]
pub(crate) enum Hold {
    /// Before it asks, until client 0's work is over.
    Before,
    /// Once it has asked, until client 0's work is over. It asks after client 0.
    Drawn,
    /// While it is inside, until client 0's work is over. Client 0 asks after it.
    Inside,
    /// While it is inside, at each question, so that it never passes. Client 0 asks after it, and looks
    /// for messages once client 1's work is over.
    Shut,
}

/// How many times a gate looks, a millisecond apart, whether a client has asked or is inside. That is
/// longer than a client needs for its turns. If there was no memory for a thread, the clients work
/// one after the other, and the gate looks in vain.
const SOON: u32 = 2_500;

/// How many times a gate looks, a millisecond apart, whether a client's work is over.
const AT_LAST: u32 = 30_000;

/// What a client has done.
#[derive(Drop)]
struct Progress {
    asked: AtomicBool,
    inside: AtomicBool,
    over: AtomicBool,
}

impl Progress {
    /// Returns what a client has done that has not begun.
    fn none() -> Progress {
        Progress {
            asked: AtomicBool::new(false),
            inside: AtomicBool::new(false),
            over: AtomicBool::new(false),
        }
    }
}

/// Notes that something has happened.
fn note(event: &AtomicBool) {
    event.store(true, Ordering::SeqCst);
}

/// A gate that holds client 1 up.
#[derive(Drop)]
pub(crate) struct Held<'r> {
    rt: &'r HostRuntime,
    hold: Hold,
    first: Progress,
    second: Progress,
    late: AtomicBool,
}

impl<'r> Held<'r> {
    /// Returns a gate that was not called yet.
    pub(crate) fn new(rt: &'r HostRuntime, hold: Hold) -> Held<'r> {
        Held {
            rt,
            hold,
            first: Progress::none(),
            second: Progress::none(),
            late: AtomicBool::new(false),
        }
    }

    /// Returns whether something that the gate waited for did not come.
    pub(crate) fn was_late(&self) -> bool {
        self.late.load(Ordering::SeqCst)
    }

    /// Returns what a client has done.
    fn of(&self, client: u8) -> &Progress {
        if client == 0 {
            &self.first
        } else {
            &self.second
        }
    }

    /// Notes that a client's work is over. It will not ask or be inside any more, so nobody waits for
    /// that.
    pub(crate) fn end(&self, client: u8) {
        let client = self.of(client);
        note(&client.asked);
        note(&client.inside);
        note(&client.over);
    }

    /// Waits until something has happened, for this number of looks at most. If it does not happen, the
    /// gate is late, and waits no more.
    fn wait_for(&self, event: &AtomicBool, looks: u32) {
        for _ in 0..looks {
            if event.load(Ordering::SeqCst) || self.was_late() {
                return;
            }
            thread::sleep(self.rt, Duration::from_millis(1));
        }
        note(&self.late);
    }
}

impl<'r> Gate for Held<'r> {
    fn before(&self, client: u8) {
        match (self.hold, client) {
            (Hold::Before, 1) => self.wait_for(&self.first.over, AT_LAST),
            (Hold::Drawn, 1) => self.wait_for(&self.first.asked, SOON),
            (Hold::Inside | Hold::Shut, 0) => self.wait_for(&self.second.inside, SOON),
            _ => {}
        }
    }

    fn drawn(&self, client: u8) {
        note(&self.of(client).asked);
        match (self.hold, client) {
            (Hold::Drawn, 0) => self.wait_for(&self.second.asked, SOON),
            (Hold::Drawn, 1) => self.wait_for(&self.first.over, AT_LAST),
            (Hold::Shut, 0) => self.wait_for(&self.second.over, AT_LAST),
            _ => {}
        }
    }

    fn may_pass(&self, client: u8) -> bool {
        note(&self.of(client).inside);
        match (self.hold, client) {
            (Hold::Inside, 1) => {
                self.wait_for(&self.first.over, AT_LAST);
                true
            }
            (Hold::Shut, 1) => {
                self.wait_for(&self.first.asked, SOON);
                false
            }
            _ => true,
        }
    }
}
