//! Passes of members in threads, who take turns at the lock of any two of three voters.
ghost use Rattle.std.specs.Prelude.{◌≤◌};
ghost use Rattle.numbers.specs.Bounds.{max_clients};

use cluster::NoGate;
use numbers::MAX_CLIENTS;
use qlock_cli::record_of_run;
use std::alloc::Global;
use std::sync::Wait;
use std::thread::Threads;
use std::time::Clock;
use test_plans::majority_plan;

/// How many turns each client has: more than any run takes.
const TURNS: u64 = 1_000_000_000_000_000;

/// How many clients there are, 1 to 64, and how many passes each makes.
#[derive(Clone, Copy, Drop)]
pub(crate) struct Sizes {
    clients: u8,
    passes: u32,
    ghost some_client: { 1 ≤ clients },
    ghost few_clients: { clients ≤ max_clients },
}

impl Sizes {
    /// Returns these sizes, or `None` if there may not be this many clients.
    pub(crate) fn of(clients: u8, passes: u32) -> Option<Sizes> {
        if clients == 0 || usize::from(clients) > MAX_CLIENTS {
            return None;
        }
        Some(Sizes { clients, passes })
    }
}

/// Returns the sizes of these words, which begin with the program's name and the kind.
pub(crate) fn sizes_of(words: &[String]) -> Option<Sizes> {
    if words.len() != 4 {
        return None;
    }
    Sizes::of(words[2].parse::<u8>().ok()?, words[3].parse::<u32>().ok()?)
}

/// Runs the lock. Returns a line with the register, which is the number of passes, or `None` if the
/// run ends early.
pub(crate) fn line_of<R: Threads + Wait + Clock + Sync>(
    rt: &R,
    alloc: Global,
    sizes: &Sizes,
) -> Option<String> {
    let plan = majority_plan(alloc)?;
    let passes = u64::from(sizes.passes);
    let run = record_of_run(rt, alloc, plan, sizes.clients, passes, TURNS, &NoGate).ok()?;
    format!(in alloc; "register {}", run.register).ok()
}
