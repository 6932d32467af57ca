//! The program `qlock`: plans of coteries, and the lock that they serve, from the command line.
//!
//! The crate `qlock_cli` reads the words and serves the command. The crate `host` takes the words and
//! the files from the system. It turns the result of the command into an exit status, and into a
//! fault's line or a text about usage on standard error.
#![tactic(auto)]

ghost use Rattle.std.specs.Prelude.{◌≡◌};
ghost use Rattle.commands.specs.Commands.{IsInRange};
ghost use Rattle.commands.specs.Statuses.{usage_status};

use commands::reads_input;
use host::{
    Unread, command_line_of, read_files, refuse_words, report, report_unread, tell_of_fault,
    tell_of_help, tell_of_reading, tell_of_reason,
};
use qlock_cli::{Command, NoGate, Usage, Watched, execute, execute_run, read_words};
use std::io;
use std::io::{IsTerminal, Read};
use std::process::ExitCode;
use std::sync::Wait;
use std::thread::Threads;
use std::time::Clock;

/// Serves the command over an input, and standard output. Returns the exit status. `threads` is the
/// runtime again: it starts the threads.
fn serve_input<R: Read + Drop, T: Threads + Wait + Clock + Sync>(
    rt: &HostRuntime,
    threads: &T,
    command: &Command,
    input: R,
) -> u8
    requires in_range { IsInRange command.now }
{
    let mut reader = Watched::of(input);
    let mut writer = Watched::of(io::writer(rt));
    let served = match command {
        Command::Run { .. } => {
            execute_run(
                threads,
                rt.alloc(),
                command,
                &mut reader,
                &mut writer,
                &NoGate,
            )
        }
        _ => execute(rt.alloc(), command, &mut reader, &mut writer),
    };
    let status = report(rt, &served);
    tell_of_fault(rt, &rt.stderr(), &served);
    status
}

/// Prints why these words name no command, and at a terminal how to see which words a command
/// takes. Returns the exit status.
fn refuse_line(rt: &HostRuntime, usage: &Usage, words: &[String]) -> u8
    ensures status { result ≡ usage_status usage.now }
{
    let status = refuse_words(rt, usage, words);
    if rt.stderr().is_terminal() {
        tell_of_help(rt, usage);
    }
    status
}

/// Prints the fault of a file that was not read, and at a terminal the system's reason too. Returns the
/// exit status.
fn refuse_file(rt: &HostRuntime, unread: &Unread) -> u8 {
    let status = report_unread(rt, unread);
    if rt.stderr().is_terminal() {
        tell_of_reason(rt, unread);
    }
    status
}

/// Serves the command over these files, or over standard input if there are none. Returns the exit
/// status.
fn serve<T: Threads + Wait + Clock + Sync>(
    rt: &HostRuntime,
    threads: &T,
    command: &Command,
    files: &[String],
) -> u8
    requires in_range { IsInRange command.now }
{
    if files.is_empty() {
        let input = rt.reader();
        if reads_input(command) {
            tell_of_reading(rt, &input);
        }
        return serve_input(rt, threads, command, input);
    }
    match read_files(rt, files) {
        Ok(input) => serve_input(rt, threads, command, input.as_slice()),
        Err(unread) => refuse_file(rt, &unread),
    }
}

/// Serves the command that the words of the command line name. Returns the exit status.
fn run<T: Threads + Wait + Clock + Sync>(rt: &HostRuntime, threads: &T) -> Result<u8, Usage> {
    let line = command_line_of(rt)?;
    match read_words(rt.alloc(), line.words.as_slice()) {
        Ok(command) => Ok(serve(rt, threads, &command, line.files.as_slice())),
        Err(usage) => Ok(refuse_line(rt, &usage, line.words.as_slice())),
    }
}

fn main(rt: HostRuntime) -> ExitCode {
    ExitCode::from(match run(&rt, &rt) {
        Ok(status) => status,
        Err(usage) => refuse_line(&rt, &usage, &[]),
    })
}
