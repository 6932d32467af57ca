//! The order in which a gate is called: before a client asks, once it has drawn its ticket, and
//! whether it may pass.
use crate::clusters::{MANY, driven};
use cluster::{Gate, RunRecord};
use std::sync::atomic::{AtomicBool, Ordering};
use std::thread;

/// How many times client 1 yields its thread at each of its calls.
const YIELDS: u32 = 20_000;

/// A gate that has client 1 draw before client 0: client 0 asks only once client 1 has drawn. Client
/// 1 is held up before it asks and once it has drawn, so that client 0 would come first if it did
/// not wait, or if it were let go too early.
#[derive(Drop)]
struct OneFirst {
    drew: AtomicBool,
    asked_early: AtomicBool,
}

/// Holds client 1 up.
fn hold() {
    for _ in 0..YIELDS {
        thread::yield_now();
    }
}

impl Gate for OneFirst {
    fn before(&self, client: u8) {
        if client == 1 {
            hold();
            return;
        }
        for _ in 0..1_000_000_000u64 {
            if self.drew.load(Ordering::SeqCst) {
                return;
            }
            thread::yield_now();
        }
    }

    fn drawn(&self, client: u8) {
        if client == 1 {
            self.drew.store(true, Ordering::SeqCst);
            hold();
        }
    }

    fn may_pass(&self, _client: u8) -> bool {
        if !self.drew.load(Ordering::SeqCst) {
            self.asked_early.store(true, Ordering::SeqCst);
        }
        true
    }
}

/// Returns the clients of a record's first two tickets, in order.
fn who_drew(record: &RunRecord) -> Option<(u8, u8)> {
    match record.draws.as_slice() {
        [(first, ..), (second, ..)] => Some((*first, *second)),
        _ => None,
    }
}

#[test]
fn a_client_draws_between_two_calls_of_the_gate(rt: HostRuntime) {
    let gate = OneFirst {
        drew: AtomicBool::new(false),
        asked_early: AtomicBool::new(false),
    };
    let Some(ending) = driven(&rt, rt.alloc(), (2, 1, 1, MANY), &gate) else {
        panic!(rt; "no record")
    };
    let early = gate.asked_early.load(Ordering::SeqCst);
    assert!(rt; (who_drew(&ending.record) == Some((1, 0))) & !early);
}
