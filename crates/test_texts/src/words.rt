//! The words of the command line: those that name commands, and those that name files, with hints; and the
//! texts of files as one input.
use command_line::{Usage, read_words};
use host::{Hint, hint_for, push_part, split_words};
use std::alloc::{AllocError, Global};

/// Returns the words of a line, which has `|` between them.
fn words_of(alloc: Global, line: &str) -> Result<Vec<String>, AllocError> {
    let mut words = Vec::new(alloc);
    for word in line.split('|') {
        words.push(String::from_str(alloc, word)?)?;
    }
    Ok(words)
}

/// What words are.
#[derive(Clone, Copy, PartialEq, Eq)]
enum Meaning {
    /// They name a command.
    Command,
    /// They are refused by clap.
    Refused,
    /// They name no command.
    Arguments,
}

/// Words, and what they are.
const COMMANDS: [(&str, Meaning); 8] = [
    ("qlock|deal|100000", Meaning::Command),
    ("qlock|deal|100001", Meaning::Refused),
    ("qlock|run|64|1000|1000000000000", Meaning::Command),
    ("qlock|run|65|1|1", Meaning::Refused),
    ("qlock|make|cyclic|7|0|1|3", Meaning::Command),
    ("qlock|make|grid|2", Meaning::Arguments),
    ("qlock|make|Grid|2|3", Meaning::Arguments),
    ("qlock", Meaning::Refused),
];

/// Returns what the words of a line are.
fn meaning_of(alloc: Global, line: &str) -> Result<Meaning, AllocError> {
    match read_words(alloc, words_of(alloc, line)?.as_slice()) {
        Ok(_) => Ok(Meaning::Command),
        Err(Usage::Refused(_)) => Ok(Meaning::Refused),
        Err(Usage::Arguments) => Ok(Meaning::Arguments),
        Err(Usage::OutOfMemory) => Err(AllocError),
    }
}

#[test]
fn words_name_commands(rt: HostRuntime) {
    for (line, wanted) in &COMMANDS {
        assert!(rt; meaning_of(rt.alloc(), line) == Ok(*wanted));
    }
}

/// Returns how many words and how many files a line has.
fn counts_of(alloc: Global, line: &str) -> Result<(usize, usize), AllocError> {
    let words = words_of(alloc, line)?;
    let split = split_words(alloc, words.as_slice())?;
    Ok((split.words.len(), split.files.len()))
}

#[test]
fn files_are_behind_their_mark(rt: HostRuntime) {
    assert!(rt; counts_of(rt.alloc(), "qlock|-f|a b|check|-f|-c") == Ok((2, 2)));
}

/// Returns whether two texts are an input with a separating line.
fn are_parts(alloc: Global) -> Result<bool, AllocError> {
    let mut input = Vec::new(alloc);
    push_part(&mut input, 0, b"a")?;
    push_part(&mut input, 1, b"b\n")?;
    Ok(input.as_slice() == b"a\n%%\nb\n".as_slice())
}

#[test]
fn files_are_parts(rt: HostRuntime) {
    assert!(rt; are_parts(rt.alloc()) == Ok(true));
}

/// The words of command lines with a word that was not expected, and the hint for them.
const HINTS: [(&str, Hint); 6] = [
    ("qlock|plan|wheel-3.toml", Hint::NoMark),
    ("qlock|plan|-f", Hint::NoName),
    ("qlock|-f", Hint::NoName),
    ("qlock|plan|--|-f|wheel-3.toml", Hint::Ended),
    ("qlock|plan|--|-f", Hint::Ended),
    ("", Hint::NoMark),
];

/// Returns the hint for the words of a line.
fn hint_of(alloc: Global, line: &str) -> Result<Hint, AllocError> {
    Ok(hint_for(words_of(alloc, line)?.as_slice()))
}

#[test]
fn words_have_hints(rt: HostRuntime) {
    for (line, hint) in &HINTS {
        assert!(rt; hint_of(rt.alloc(), line) == Ok(*hint));
    }
}
