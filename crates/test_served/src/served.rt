//! Runs command lines on texts as input.
ghost use Rattle.std.specs.Prelude.{◌≡◌, false, IfOk, IfSome};
ghost use Rattle.commands.specs.Commands.{IsInRange};

use qlock_cli::{Command, Fault, Gate, NoGate, Watched, execute, execute_run, read_words};
use std::alloc::{AllocError, Global};
use std::io::{Read, Write};
use std::sync::Wait;
use std::thread::Threads;
use std::time::Clock;

/// Returns the words of a command line, with the program's name in front.
fn words_of(alloc: Global, line: &str) -> Result<Vec<String>, AllocError> {
    let mut words = Vec::new(alloc);
    words.push(String::from_str(alloc, "qlock")?)?;
    for word in line.split(' ') {
        words.push(String::from_str(alloc, word)?)?;
    }
    Ok(words)
}

/// Returns the command that the words name, or `None` if they name none.
fn named(alloc: Global, words: &[String]) -> Option<Command>
    ensures { IfSome result IsInRange }
{
    match read_words(alloc, words) {
        Ok(command) => Some(command),
        Err(_) => None,
    }
}

/// Returns the command that a command line names, or `None` if it names none.
pub fn command_of(alloc: Global, line: &str) -> Result<Option<Command>, AllocError>
    ensures { IfOk result (λ command. IfSome command IsInRange) }
{
    let words = words_of(alloc, line)?;
    Ok(named(alloc, words.as_slice()))
}

/// Runs a command.
pub fn serve<T: Threads + Wait + Clock + Sync, R: Read, W: Write, G: Gate>(
    rt: &T,
    alloc: Global,
    command: &Command,
    reader: &mut Watched<R>,
    writer: &mut Watched<W>,
    gate: &G,
) -> Result<(), Fault>
    requires in_range { IsInRange command.now }
    requires unread { reader.old.failed ≡ false }
    requires unwritten { writer.old.failed ≡ false }
{
    match command {
        Command::Run { .. } => execute_run(rt, alloc, command, reader, writer, gate),
        _ => execute(alloc, command, reader, writer),
    }
}

/// Returns the input that has these parts.
pub fn joined(alloc: Global, parts: &[&str]) -> Result<String, AllocError> {
    let mut input = String::new(alloc);
    let mut between = "";
    for part in parts {
        input.push_str(between)?;
        input.push_str(part)?;
        between = "%%\n";
    }
    Ok(input)
}

/// Runs a command over texts. Returns what it writes, or the text of its fault.
fn written<T: Threads + Wait + Clock + Sync, G: Gate>(
    rt: &T,
    alloc: Global,
    command: &Command,
    input: &[u8],
    gate: &G,
) -> Result<String, AllocError>
    requires { IsInRange command.now }
{
    let mut output = Vec::new(alloc);
    let mut reader = Watched::of(input);
    let mut writer = Watched::of(&mut output);
    match serve(rt, alloc, command, &mut reader, &mut writer, gate) {
        Ok(()) => String::from_str(alloc, std::str::from_utf8(&output).unwrap_or("no text")),
        Err(fault) => fault.to_string(alloc),
    }
}

/// Returns what the command line writes for an input of these parts, or the text of its fault. The
/// gate holds up the clients of a run.
pub fn answer_at<T: Threads + Wait + Clock + Sync, G: Gate>(
    rt: &T,
    alloc: Global,
    line: &str,
    parts: &[&str],
    gate: &G,
) -> Result<String, AllocError> {
    let Some(command) = command_of(alloc, line)? else {
        return String::from_str(alloc, "no command");
    };
    let input = joined(alloc, parts)?;
    written(rt, alloc, &command, input.as_bytes(), gate)
}

/// Does the same without a gate.
pub fn answer<T: Threads + Wait + Clock + Sync>(
    rt: &T,
    alloc: Global,
    line: &str,
    parts: &[&str],
) -> Result<String, AllocError> {
    answer_at(rt, alloc, line, parts, &NoGate)
}

/// A row of a table: a command line, the parts of its input, and what it writes or the text of its
/// fault.
pub type Row<'a> = (&'a str, &'a [&'a str], &'a str);

/// Returns the place of the first row whose command line writes something else, or `None` if there
/// is none.
pub fn first_wrong<T: Threads + Wait + Clock + Sync>(
    rt: &T,
    alloc: Global,
    rows: &[Row],
) -> Result<Option<usize>, AllocError> {
    for (place, row) in rows.iter().enumerate() {
        let (line, parts, wanted) = *row;
        if answer(rt, alloc, line, parts)?.as_str() != wanted {
            return Ok(Some(place));
        }
    }
    Ok(None)
}

/// Returns the text of a coterie. Each voter is a letter, and each quorum a word of letters.
pub fn coterie_of_letters(
    alloc: Global,
    voters: &str,
    quorums: &str,
) -> Result<String, AllocError> {
    let mut text = String::from_str(alloc, "voters = [")?;
    push_letters(&mut text, voters)?;
    text.push_str("]\nquorums = [\n")?;
    for quorum in quorums.split(' ') {
        text.push_str("  [")?;
        push_letters(&mut text, quorum)?;
        text.push_str("],\n")?;
    }
    text.push_str("]\n")?;
    Ok(text)
}

/// Writes each letter in quotation marks, with a comma after it.
fn push_letters(text: &mut String, letters: &str) -> Result<(), AllocError> {
    for letter in letters.chars() {
        text.push('"')?;
        text.push(letter)?;
        text.push_str("\", ")?;
    }
    Ok(())
}
