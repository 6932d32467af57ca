//! The program `qlock-show`: plans, faults and scripts of `qlock` for people to read.
//!
//! The crate `show_command_line` reads the words, and `show_cli` serves the command. The crate `host`
//! takes the words and the files from the system. It turns the result of the command into an exit
//! status, and into a fault's line or a text about usage on standard error. Help and the version, which
//! were asked for, go to standard output. If nobody reads the output any more, as behind `| head`, the
//! program ends with status 0 and says nothing.
#![tactic(auto)]

ghost use Rattle.std.specs.Prelude.{◌≡◌};
ghost use Rattle.commands.specs.Faults.{device_refusal};
ghost use Rattle.commands.specs.Statuses.{status_of};
ghost use Rattle.show_command_line.specs.Commands.{IsShown};

use commands::{Fault, Usage, Watched};
use host::{
    Listened, Unread, answer_words, command_line_of, read_files, report_shown, report_unread,
    tell_of_reading, tell_of_reason,
};
use show_cli::{WordAtFault, reads_page_input, show, word_at_fault};
use show_command_line::{ShowCommand, read_show_words};
use std::io;
use std::io::{Read, Write};
use std::process::ExitCode;

/// Tells which of a command's own words its fault is about, if it is about one: a file of `compare`, or a
/// name of `without`. `known` is the input, if it was read from files.
fn tell_of_word(rt: &HostRuntime, command: &ShowCommand, known: &[u8], fault: &Fault) {
    match word_at_fault(rt.alloc(), command, known, fault) {
        Some(WordAtFault::File(name)) => {
            let _ = eprintln!(rt; "{name}: qlock-show fault plan -f {name} says where");
        }
        Some(WordAtFault::Name(name)) => {
            let _ = eprintln!(rt; "{name}: no voter has this name");
        }
        None => {}
    }
}

/// Serves the command over an input, which comes from these files, if there are any, and an output.
fn serve_over<R: Read + Drop, W: Write + Drop>(
    rt: &HostRuntime,
    command: &ShowCommand,
    files: &[String],
    input: R,
    output: &mut Listened<W>,
) -> Result<(), Fault>
    requires { IsShown command.now }
{
    let mut reader = Watched::of(input);
    let mut writer = Watched::of(output);
    show(rt.alloc(), command, files, &mut reader, &mut writer)
}

/// Serves the command over an input, which comes from these files, if there are any, and standard output.
/// `known` is the input, if it was read from files. Returns the exit status.
fn serve_input<R: Read + Drop>(
    rt: &HostRuntime,
    command: &ShowCommand,
    files: &[String],
    known: &[u8],
    input: R,
) -> u8
    requires { IsShown command.now }
{
    let mut output = Listened::of(io::writer(rt));
    let served = serve_over(rt, command, files, input, &mut output);
    let status = report_shown(rt, &served, output.is_unread());
    if let Err(fault) = &served {
        tell_of_word(rt, command, known, fault);
    }
    status
}

/// Prints the fault of a file that was not read, and the system's reason. Returns the exit status.
fn refuse_file(rt: &HostRuntime, unread: &Unread) -> u8
    ensures { result ≡ status_of (device_refusal unread.now.fault) }
{
    let status = report_unread(rt, unread);
    tell_of_reason(rt, unread);
    status
}

/// Returns the files that the input comes from: those that the command's own words name, if they name
/// files, and else those behind `-f`.
fn files_of<'a>(command: &'a ShowCommand, named: &'a [String]) -> &'a [String] {
    match command {
        ShowCommand::Compare(files, _) => files.as_slice(),
        _ => named,
    }
}

/// Serves the command over these files, or over standard input if there are none. Returns the exit
/// status.
fn serve(rt: &HostRuntime, command: &ShowCommand, files: &[String]) -> u8
    requires { IsShown command.now }
{
    if files.is_empty() {
        let input = rt.reader();
        if reads_page_input(command) {
            tell_of_reading(rt, &input);
        }
        return serve_input(rt, command, files, &[], input);
    }
    match read_files(rt, files) {
        Ok(input) => serve_input(rt, command, files, input.as_slice(), input.as_slice()),
        Err(unread) => refuse_file(rt, &unread),
    }
}

/// Serves the command that the words of the command line name. Returns the exit status.
fn run(rt: &HostRuntime) -> Result<u8, Usage> {
    let line = command_line_of(rt)?;
    match read_show_words(rt.alloc(), line.words.as_slice()) {
        Ok(command) => Ok(serve(rt, &command, files_of(&command, line.files.as_slice()))),
        Err(usage) => Ok(answer_words(rt, &usage, line.words.as_slice())),
    }
}

fn main(rt: HostRuntime) -> ExitCode {
    ExitCode::from(match run(&rt) {
        Ok(status) => status,
        Err(usage) => answer_words(&rt, &usage, &[]),
    })
}
