//! Members of a running cluster. A word says what runs:
//!
//! - `embedding`: the example of `docs/running.md` (`embedding`).
//! - `before`, `drawn`, `inside` and `shut`: two members that may lose messages, each in a drive of its
//!   own. A gate holds the second one up at that place while the first one works (`held`, `holds`).
//!   Prints of each whether it passed or spent its turns (`K2`), how many messages each lost, and the
//!   number of passes.
//! - `calls`: the calls of one member (`calls`). Prints how many messages each kind of call lost.
//!
//! Without a word, all of these run. Each hold runs twice, once with a voter that ignores the first
//! member's request for good.
//!
//! `hostile/run.py` refuses each allocation in turn. If it is refused to a voter's log or to a mailbox, a
//! message is lost. The first member is then on its own, as the second one is held up. It repeats its
//! messages after 1,000 empty looks, and gets in, unless the second one has a vote that it needs. Then
//! its turns are spent. Any other refused allocation changes nothing, or ends the program with
//! `O1 OutOfMemory` and status 4.
#![tactic(auto)]

use crate::held::Hold;
use crate::holds::Request;
use std::env;
use std::process::ExitCode;
use std::sync::Wait;
use std::thread::Threads;
use std::time::Clock;

mod calls;
mod embedding;
mod held;
mod holds;

/// What a word names.
#[derive(Clone, Copy)]
enum Demo {
    Embedding,
    Hold(Hold, Request),
    Calls,
}

/// What runs after the example, with its names. A hold's word is the name of its first row.
const DEMOS: [(&str, Demo); 9] = [
    ("before", Demo::Hold(Hold::Before, Request::Taken)),
    (
        "before, ignored",
        Demo::Hold(Hold::Before, Request::Ignored),
    ),
    ("drawn", Demo::Hold(Hold::Drawn, Request::Taken)),
    ("drawn, ignored", Demo::Hold(Hold::Drawn, Request::Ignored)),
    ("inside", Demo::Hold(Hold::Inside, Request::Taken)),
    (
        "inside, ignored",
        Demo::Hold(Hold::Inside, Request::Ignored),
    ),
    ("shut", Demo::Hold(Hold::Shut, Request::Taken)),
    ("shut, ignored", Demo::Hold(Hold::Shut, Request::Ignored)),
    ("calls", Demo::Calls),
];

/// Returns what this word names. Any other word is that of the calls.
fn demo_of(word: &str) -> Demo {
    if word == "embedding" {
        return Demo::Embedding;
    }
    for (name, demo) in DEMOS {
        if name == word {
            return demo;
        }
    }
    Demo::Calls
}

/// Returns the lines of what runs, or `None` if memory ran out for more than messages.
fn lines_of<R: Threads + Wait + Clock + Sync>(
    host: &HostRuntime,
    rt: &R,
    demo: Demo,
) -> Option<String> {
    match demo {
        Demo::Embedding => embedding::lines_of(rt, host.alloc()),
        Demo::Hold(hold, request) => holds::line_of(host, rt, hold, request),
        Demo::Calls => calls::line_of(rt, host.alloc()),
    }
}

/// Returns the lines of the example, and those of all others, each after its name.
fn all_lines<R: Threads + Wait + Clock + Sync>(host: &HostRuntime, rt: &R) -> Option<String> {
    let mut lines = lines_of(host, rt, Demo::Embedding)?;
    for (name, demo) in DEMOS {
        let found = lines_of(host, rt, demo)?;
        write!(lines, "\n{name}: {found}").ok()?;
    }
    Some(lines)
}

/// Returns what the program prints, or `None` if memory ran out for more than messages.
fn printed<R: Threads + Wait + Clock + Sync>(host: &HostRuntime, rt: &R) -> Option<String> {
    let mut words = env::args(host).ok()?;
    let _ = words.next();
    match words.next() {
        Some(word) => lines_of(host, rt, demo_of(&word)),
        None => all_lines(host, rt),
    }
}

fn main(rt: HostRuntime) -> ExitCode {
    match printed(&rt, &rt) {
        Some(lines) => {
            let _ = rt.println(lines.as_str());
            ExitCode::SUCCESS
        }
        None => {
            let _ = rt.eprintln("O1 OutOfMemory");
            ExitCode::from(4)
        }
    }
}
