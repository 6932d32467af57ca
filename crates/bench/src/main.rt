//! Measures parts of the program. `bench/` runs it and takes the time. A word says what runs:
//!
//! - `steps ROUNDS [bytes]`: 0 to 4294967295 rounds of 11 steps of the automata (`steps`). After
//!   `bytes` whoever made a step is saved as bytes and restored from them (`by_bytes`). Prints how many
//!   steps were made, and how often a client was inside.
//! - `cycles KIND QUORUMS STEPS FACTOR MAKES LOOKUPS`: a plan's cycle is made a number of times, and
//!   tickets are looked up in it (`cycles`). KIND is `blocks` for a cycle of the crate `dealer`, or
//!   `list` for a list of all its places. The numbers are those of `Task`. Prints the length of the
//!   cycle and the sum of the quorums' numbers.
//! - `passes CLIENTS PASSES`: 1 to 64 clients, and 0 to 4294967295 passes of each in a thread of its own
//!   (`passes`). Prints the register, which is the number of passes.
//!
//! Without a word each of them runs shortly.
#![tactic(auto)]

use crate::cycles::Task;
use crate::passes::Sizes;
use std::alloc::Global;
use std::env;
use std::process::ExitCode;
use std::sync::Wait;
use std::thread::Threads;
use std::time::Clock;

mod by_bytes;
mod cycles;
mod passes;
mod steps;

/// What is measured.
#[derive(Clone, Copy, Drop)]
enum Job {
    /// This many rounds, and whether they go by bytes.
    Steps(u32, bool),
    Cycles(Task),
    Passes(Sizes),
    /// Each of them, shortly.
    All,
}

/// A short task of cycles.
const SHORT: Task = Task {
    as_list: false,
    quorums: 4,
    steps: 3,
    factor: 2,
    makes: 2,
    lookups: 10,
};

/// Returns the job of these words. The first one is the program's name.
fn job_of(words: &[String]) -> Option<Job> {
    let Some(kind) = words.get(1) else {
        return Some(Job::All);
    };
    if kind.as_str() == "steps" {
        let (rounds, by_bytes) = steps::rounds_of(words)?;
        Some(Job::Steps(rounds, by_bytes))
    } else if kind.as_str() == "cycles" {
        Some(Job::Cycles(cycles::task_of(words)?))
    } else if kind.as_str() == "passes" {
        Some(Job::Passes(passes::sizes_of(words)?))
    } else {
        None
    }
}

/// Returns the lines of short jobs.
fn all_lines<R: Threads + Wait + Clock + Sync>(rt: &R, alloc: Global) -> Option<String> {
    let steps = steps::line_of(alloc, 3, true)?;
    let cycles = cycles::line_of(alloc, &SHORT)?;
    let passes = passes::line_of(rt, alloc, &Sizes::of(2, 3)?)?;
    format!(in alloc; "{steps}\n{cycles}\n{passes}").ok()
}

/// Does a job, and returns what comes of it, or `None` if it ends early or memory runs out.
fn lines_of<R: Threads + Wait + Clock + Sync>(rt: &R, alloc: Global, job: &Job) -> Option<String> {
    match job {
        Job::Steps(rounds, by_bytes) => steps::line_of(alloc, *rounds, *by_bytes),
        Job::Cycles(task) => cycles::line_of(alloc, task),
        Job::Passes(sizes) => passes::line_of(rt, alloc, sizes),
        Job::All => all_lines(rt, alloc),
    }
}

/// Returns the words of the command line, or `None` if memory runs out.
fn words_of(rt: &HostRuntime) -> Option<Vec<String>> {
    let Ok(words) = env::args(rt) else {
        return None;
    };
    words.collect::<Vec<String>>(rt.alloc()).ok()
}

fn main(rt: HostRuntime) -> ExitCode {
    let Some(words) = words_of(&rt) else {
        return ExitCode::from(4);
    };
    let Some(job) = job_of(words.as_slice()) else {
        let _ = rt.eprintln("bench: `steps`, `cycles` or `passes`, with which numbers?");
        return ExitCode::from(2);
    };
    match lines_of(&rt, rt.alloc(), &job) {
        Some(lines) => {
            let _ = rt.println(lines.as_str());
            ExitCode::SUCCESS
        }
        None => ExitCode::from(4),
    }
}
