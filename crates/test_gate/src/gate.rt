//! The gate, and what has happened at it.
use cluster::Gate;
use std::sync::atomic::{AtomicBool, Ordering};
use std::thread;

/// Whether a gate was called at one of its places for client 0 and for client 1.
type Calls = [AtomicBool; 2];

/// A gate that keeps client 0 inside until client 1, which came meanwhile, has asked.
#[derive(Drop)]
pub struct Meeting {
    before: Calls,
    drawn: Calls,
    inside: Calls,
    late: AtomicBool,
}

/// Returns calls of which none came yet.
fn none_yet() -> Calls {
    [AtomicBool::new(false), AtomicBool::new(false)]
}

/// Notes a call for a client.
fn note(calls: &Calls, client: u8) {
    match calls.get(usize::from(client)) {
        Some(call) => call.store(true, Ordering::SeqCst),
        None => {}
    }
}

/// Returns whether both calls came.
fn came(calls: &Calls) -> bool {
    calls[0].load(Ordering::SeqCst) & calls[1].load(Ordering::SeqCst)
}

impl Meeting {
    /// Returns a gate that was not called yet.
    pub fn new() -> Meeting {
        Meeting {
            before: none_yet(),
            drawn: none_yet(),
            inside: none_yet(),
            late: AtomicBool::new(false),
        }
    }

    /// Waits until a call was made. If it never is, the meeting is late.
    fn wait_for(&self, call: &AtomicBool) {
        for _ in 0..1_000_000_000u64 {
            if call.load(Ordering::SeqCst) {
                return;
            }
            thread::yield_now();
        }
        self.late.store(true, Ordering::SeqCst);
    }

    /// Returns whether each call came for each client, and in time.
    pub fn took_place(&self) -> bool {
        came(&self.before)
            & came(&self.drawn)
            & came(&self.inside)
            & !self.late.load(Ordering::SeqCst)
    }
}

impl Gate for Meeting {
    fn before(&self, client: u8) {
        note(&self.before, client);
        if client == 1 {
            self.wait_for(&self.inside[0]);
        }
    }

    fn drawn(&self, client: u8) {
        note(&self.drawn, client);
    }

    fn may_pass(&self, client: u8) -> bool {
        note(&self.inside, client);
        if client != 0 {
            return true;
        }
        self.wait_for(&self.before[1]);
        self.drawn[1].load(Ordering::SeqCst)
    }
}
