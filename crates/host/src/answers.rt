//! What is printed for words that name no command: a text that was asked for, or what is wrong.
ghost use Rattle.std.specs.Prelude.{◌≡◌, ◌⊎◌};
ghost use Rattle.commands.specs.Statuses.{usage_status};
ghost use Rattle.host.specs.HelpRequests.{AsksForText};

use crate::reports::{files_help, refuse_words, report_shown, tell_of_help};
use commands::{DeviceFault, Fault, Usage};
use std::io;
use std::io::ErrorKind;

/// Prints a text that was asked for, and behind help how files are named.
fn print_text<R: Print>(rt: &R, text: &clap::Error) -> io::Result<()> {
    rt.print(text)?;
    rt.print(files_help(text))
}

/// Prints a text that was asked for, help or the version, on standard output. Returns the exit
/// status: 0, or 3 if the write failed.
fn show_text<R: Print + Eprint>(rt: &R, text: &clap::Error) -> u8
    ensures { (result ≡ 0) ⊎ (result ≡ 3) }
{
    let failed = Err(Fault::Device(DeviceFault::WriteFault));
    match print_text(rt, text) {
        Ok(()) => 0,
        Err(error) => report_shown(rt, &failed, error.kind() == ErrorKind::BrokenPipe),
    }
}

/// Prints a text that was asked for, or why the words name no command. Returns the exit status: for help
/// and the version 0, also if nobody reads them, or 3 if the write failed; for other words 2, or 4 if
/// memory ran out.
pub fn answer_words<R: Print + Eprint>(rt: &R, usage: &Usage, words: &[String]) -> u8
    ensures asked { AsksForText usage.now → (result ≡ 0) ⊎ (result ≡ 3) }
    ensures refused { ¬ AsksForText usage.now → result ≡ usage_status usage.now }
{
    match usage {
        Usage::Refused(text) if !text.use_stderr() => show_text(rt, text),
        _ => {
            let status = refuse_words(rt, usage, words);
            tell_of_help(rt, usage);
            status
        }
    }
}
