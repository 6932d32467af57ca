//! Turns and gates: when a gate is asked, and how many turns a member takes.
use crate::clusters::{Figures, MANY, figures};
use cluster::{ClusterFault, Gate};
use std::alloc::Global;
use std::sync::Wait;
use std::sync::atomic::{AtomicU64, Ordering};
use std::thread::Threads;
use std::time::Clock;

/// How often a gate was called: before a client asks, once it has asked, and whether it may pass.
type Calls = (u64, u64, u64);

/// A gate that counts its calls. It lets clients pass from the question with a given number on.
#[derive(Drop)]
struct Counting {
    before: AtomicU64,
    drawn: AtomicU64,
    asked: AtomicU64,
    opens_at: u64,
}

impl Counting {
    /// Returns a gate that opens at the question with this number, counted from 1.
    fn opens_at(question: u64) -> Counting {
        Counting {
            before: AtomicU64::new(0),
            drawn: AtomicU64::new(0),
            asked: AtomicU64::new(0),
            opens_at: question,
        }
    }

    /// Returns its calls.
    fn calls(&self) -> Calls {
        (
            self.before.load(Ordering::SeqCst),
            self.drawn.load(Ordering::SeqCst),
            self.asked.load(Ordering::SeqCst),
        )
    }
}

impl Gate for Counting {
    fn before(&self, _client: u8) {
        let _ = self.before.fetch_add(1, Ordering::SeqCst);
    }

    fn drawn(&self, _client: u8) {
        let _ = self.drawn.fetch_add(1, Ordering::SeqCst);
    }

    fn may_pass(&self, _client: u8) -> bool {
        self.asked.fetch_add(1, Ordering::SeqCst).saturating_add(1) >= self.opens_at
    }
}

/// Returns what one client comes to in `turns` turns at a gate that opens at this question, and the
/// gate's calls.
fn alone<R: Threads + Wait + Clock + Sync>(
    rt: &R,
    alloc: Global,
    question: u64,
    passes: u64,
    turns: u64,
) -> (Option<Figures>, Calls) {
    let gate = Counting::opens_at(question);
    let figures = figures(rt, alloc, (1, 10, passes, turns), &gate);
    (figures, gate.calls())
}

/// Returns what is wanted of it: it makes this many passes, `spent` says whether its turns are, and
/// these are the gate's calls. It draws a ticket whenever the gate is called for that.
fn wanted(passed: usize, spent: bool, calls: Calls) -> (Option<Figures>, Calls) {
    let fault = if spent {
        Some(ClusterFault::TurnsSpent(0))
    } else {
        None
    };
    (Some((fault, calls.1 as usize, passed)), calls)
}

/// The question at which the gate opens, the passes that a client has to make, its turns; and its passes,
/// whether its turns are spent, and the gate's calls.
///
/// - Two pumps bring two votes, and the second one lets the client enter. Each turn beyond is a question.
/// - Each of two passes takes three turns: two pumps and a question. With one turn less, the work ends at
///   the last question.
/// - A second question takes one turn more.
const ROWS: [(u64, u64, u64, usize, bool, Calls); 11] = [
    (MANY, 1, 0, 0, true, (1, 1, 0)),
    (MANY, 1, 1, 0, true, (1, 1, 0)),
    (MANY, 1, 2, 0, true, (1, 1, 0)),
    (MANY, 1, 3, 0, true, (1, 1, 1)),
    (MANY, 1, 10, 0, true, (1, 1, 8)),
    (1, 2, 6, 2, false, (2, 2, 2)),
    (1, 2, 5, 1, true, (2, 2, 1)),
    (1, 2, 3, 1, true, (2, 2, 1)),
    (1, 2, 2, 0, true, (1, 1, 0)),
    (2, 1, 3, 0, true, (1, 1, 1)),
    (2, 1, 4, 1, false, (1, 1, 2)),
];

#[test]
fn each_pump_and_each_question_is_a_turn(rt: HostRuntime) {
    for (question, passes, turns, passed, spent, calls) in ROWS {
        let found = alone(&rt, rt.alloc(), question, passes, turns);
        assert!(rt; found == wanted(passed, spent, calls), "{turns} turns");
    }
}
