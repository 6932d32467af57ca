//! What the programs report on standard error, and their exit statuses.
ghost use Rattle.std.specs.Prelude.{◌≡◌};
ghost use Rattle.host.specs.Statuses.{served_status, shown_status};
ghost use Rattle.commands.specs.Faults.{device_refusal};
ghost use Rattle.commands.specs.Statuses.{status_of, usage_status};

use crate::files::Unread;
use crate::line::{END, MARK};
use certificate::PlanFault;
use clap::error::ErrorKind;
use commands::{DeviceFault, Fault, InputFault, Usage, status_of, usage_status};
use planner::PlannerFault;
use std::io::IsTerminal;

/// The exit status of a refused input.
const INPUT_REFUSED: u8 = 1;

/// What a request for help gets besides: how files are named.
const FILES_HELP: &str = "
Input:
  -f <FILE>  Read FILE in place of standard input, which is the file -. Several files are
             parts of one input, in their order: no line %% has to be between them
";

/// Returns what a request for help gets besides, if the text is one about help.
pub(crate) fn files_help(error: &clap::Error) -> &'static str {
    match error.kind() {
        ErrorKind::DisplayHelp => FILES_HELP,
        _ => "",
    }
}

/// What is perhaps wrong with the files of a command line, if a word of it was not expected.
#[derive(Clone, Copy, Debug, PartialEq, Eq)]
pub enum Hint {
    /// The word is the name of a file, without a `-f` before it.
    NoMark,
    /// The last word is `-f`, without a name behind it.
    NoName,
    /// There is a word `--`, behind which no file is named.
    Ended,
}

impl Hint {
    /// Returns the words of a hint.
    fn words(self) -> &'static str {
        match self {
            Hint::NoMark => "The input is standard input: put -f before the name of a file.",
            Hint::NoName => "-f has to be followed by the name of a file.",
            Hint::Ended => {
                "Behind the word -- no file is named: put -f and the name of a file before it."
            }
        }
    }
}

/// Returns the hint for the words of a command.
pub fn hint_for(words: &[String]) -> Hint {
    if words.iter().any(|word| word.as_str() == END) {
        return Hint::Ended;
    }
    match words.last() {
        Some(word) if word.as_str() == MARK => Hint::NoName,
        _ => Hint::NoMark,
    }
}

/// Prints a hint if a word was not expected: often it is about the name of a file.
fn hint_at_input<R: Eprint>(rt: &R, error: &clap::Error, words: &[String]) {
    if error.kind() == ErrorKind::UnknownArgument {
        let _ = rt.eprintln(hint_for(words).words());
    }
}

/// Prints why these words name no command. Returns the exit status: 2, or 4 if memory ran out.
pub fn refuse_words<R: Eprint>(rt: &R, usage: &Usage, words: &[String]) -> u8
    ensures status { result ≡ usage_status usage.now }
{
    match usage {
        Usage::Refused(error) => {
            let _ = rt.eprint(error);
            let _ = rt.eprint(files_help(error));
            hint_at_input(rt, error, words);
        }
        Usage::Arguments => {
            let _ = rt.eprintln("I5 Arguments");
        }
        Usage::OutOfMemory => {
            let _ = rt.eprintln(&Fault::OutOfMemory);
        }
    }
    usage_status(usage)
}

/// Tells how to see which words a command takes, if it does not take these and clap has no text about it.
pub fn tell_of_help<R: Eprint>(rt: &R, usage: &Usage) {
    if let Usage::Arguments = usage {
        let _ = rt.eprintln("The word --help behind a command says which words it takes.");
    }
}

/// Tells who sits at a terminal that standard input is read from it, and how it ends.
pub fn tell_of_reading<R: Eprint, I: IsTerminal>(rt: &R, input: &I) {
    if input.is_terminal() {
        let _ = rt.eprintln(
            "The input is read from the terminal, and ends with Ctrl-D. Files are named by -f FILE.",
        );
    }
}

/// Returns what helps after an input was refused with this fault: where it is wrong, and what reads it if
/// it is a text of weights. If it has no fault and no plan was found, it is what there is in place of a
/// plan.
fn advice_on(fault: &Fault) -> &'static str {
    match fault {
        Fault::Input(InputFault::Planner(PlannerFault::NoPlan(_))) => {
            "qlock-show near, with the same input, finds weights that are near the best."
        }
        Fault::Input(InputFault::Plan(PlanFault::BadText { line: 1 })) => {
            "qlock-show fault, with the same words and the same input, says where. Weights, which begin with quorum-weights, are read by qlock-show check."
        }
        _ => "qlock-show fault, with the same words and the same input, says where.",
    }
}

/// Tells who sits at a terminal what helps, if the input was refused.
pub fn tell_of_fault<R: Eprint, E: IsTerminal>(rt: &R, error: &E, served: &Result<(), Fault>) {
    if let Err(fault) = served {
        if status_of(fault) == INPUT_REFUSED && error.is_terminal() {
            let _ = rt.eprintln(advice_on(fault));
        }
    }
}

/// Prints the fault of a file that was not read, with its name. Returns the exit status: 3 if it
/// can't be opened or read, 4 if memory ran out, else 1.
pub fn report_unread<R: Eprint>(rt: &R, unread: &Unread) -> u8
    ensures status { result ≡ status_of (device_refusal unread.now.fault) }
{
    let fault = Fault::from(unread.fault);
    match unread.fault {
        DeviceFault::OutOfMemory => {
            let _ = rt.eprintln(&fault);
        }
        _ => {
            let _ = eprintln!(rt; "{fault} {:?}", unread.name);
        }
    }
    status_of(&fault)
}

/// Prints the fault of a command, if it failed. Returns the exit status: 0 if it did not fail, 3 if a
/// read or a write failed, 4 if memory ran out, else 1.
pub fn report<R: Eprint>(rt: &R, served: &Result<(), Fault>) -> u8
    ensures status { result ≡ served_status served.now }
{
    match served {
        Ok(()) => 0,
        Err(fault) => {
            let _ = rt.eprintln(fault);
            status_of(fault)
        }
    }
}

/// Tells the system's reason why a file was not opened or read, on a line of its own, if it is known.
pub fn tell_of_reason<R: Eprint>(rt: &R, unread: &Unread) {
    if let Some(words) = unread.reason.words() {
        let _ = eprintln!(rt; "{}: {words}", unread.name);
    }
}

/// Prints the fault of a command, if it failed, except that a write failed since nobody reads. Who
/// reads a beginning of the output alone, as `head` does, has what was wanted.
///
/// Returns the exit status: that of [`report`], but 0 if a write failed and nobody reads.
pub fn report_shown<R: Eprint>(rt: &R, served: &Result<(), Fault>, is_unread: bool) -> u8
    ensures status { result ≡ shown_status is_unread served.now }
{
    match served {
        Err(Fault::Device(DeviceFault::WriteFault)) if is_unread => 0,
        _ => report(rt, served),
    }
}
