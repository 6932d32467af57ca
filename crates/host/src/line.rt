//! The words of the command line, and the files that it names.
ghost use Rattle.std.specs.Prelude.{◌≡◌, [], ◌∷◌, ◌++◌, IfOk, OnOk, map, string_bytes};
ghost use Rattle.host.specs.Files.{awaited_after, file_of, files_in, word_of, words_in};

use commands::Usage;
use std::alloc::{AllocError, AllocGlobal, Global};
use std::env::Env;
use std::{env, io};

/// The word before the name of a file.
pub(crate) const MARK: &str = "-f";

/// The word behind which no file is named.
pub(crate) const END: &str = "--";

/// What the next word of a command line is.
#[derive(Clone, Copy, Debug, PartialEq, Eq)]
pub enum Awaited {
    /// A word of the command, `-f` or `--`.
    Any,
    /// The name of a file.
    File,
    /// A word of the command.
    Word,
}

/// A command line: the words of a command, and the files that have its input.
#[derive(Drop)]
pub struct CommandLine {
    /// The words, which begin with the program's name. They have no `-f FILE`.
    pub words: Vec<String>,
    /// The names of the files, in their order.
    pub files: Vec<String>,
}

/// Returns what the next word is, after this one.
fn awaited_after(awaited: Awaited, word: &str) -> Awaited
    ensures { result ≡ awaited_after awaited word.now }
{
    match awaited {
        Awaited::Any => {
            if word == END {
                return Awaited::Word;
            }
            if word == MARK {
                return Awaited::File;
            }
            Awaited::Any
        }
        Awaited::File => Awaited::Any,
        Awaited::Word => Awaited::Word,
    }
}

/// Appends a copy of a word.
fn push_word(alloc: Global, words: &mut Vec<String>, word: &str) -> Result<(), AllocError>
    ensures { OnOk result (map string_bytes words.new.items ≡ map string_bytes words.old.items ++ (word.now ∷ [])) }
{
    words.push(String::from_str(alloc, word)?)?;
    Ok(())
}

/// Adds a word of the command to the words, if it is one.
fn take_word(
    alloc: Global,
    words: &mut Vec<String>,
    awaited: Awaited,
    word: &str,
) -> Result<(), AllocError>
    ensures { OnOk result (map string_bytes words.new.items
        ≡ map string_bytes words.old.items ++ word_of awaited word.now) }
{
    match awaited {
        Awaited::Any => {
            if word == MARK {
                return Ok(());
            }
            push_word(alloc, words, word)
        }
        Awaited::File => Ok(()),
        Awaited::Word => push_word(alloc, words, word),
    }
}

/// Adds the name of a file to the files, if it is one.
fn take_file(
    alloc: Global,
    files: &mut Vec<String>,
    awaited: Awaited,
    word: &str,
) -> Result<(), AllocError>
    ensures { OnOk result (map string_bytes files.new.items
        ≡ map string_bytes files.old.items ++ file_of awaited word.now) }
{
    match awaited {
        Awaited::File => push_word(alloc, files, word),
        Awaited::Any | Awaited::Word => Ok(()),
    }
}

/// Returns the words of the command.
fn words_in(alloc: Global, line: &[String]) -> Result<Vec<String>, AllocError>
    ensures { IfOk result (λ words. map string_bytes words.items ≡ words_in (map string_bytes line.now)) }
{
    let mut words = Vec::new(alloc);
    let mut awaited = Awaited::Any;
    for word in line {
        take_word(alloc, &mut words, awaited, word.as_str())?;
        awaited = awaited_after(awaited, word.as_str());
    }
    match awaited {
        Awaited::File => push_word(alloc, &mut words, MARK)?,
        Awaited::Any | Awaited::Word => {}
    }
    Ok(words)
}

/// Returns the names of the files.
fn files_in(alloc: Global, line: &[String]) -> Result<Vec<String>, AllocError>
    ensures { IfOk result (λ files. map string_bytes files.items ≡ files_in (map string_bytes line.now)) }
{
    let mut files = Vec::new(alloc);
    let mut awaited = Awaited::Any;
    for word in line {
        take_file(alloc, &mut files, awaited, word.as_str())?;
        awaited = awaited_after(awaited, word.as_str());
    }
    Ok(files)
}

/// Takes the names of files out of a command line.
///
/// The word behind each `-f` is the name of a file, except behind a word `--`. All other words are
/// left in their order, and so is a last word `-f` that no name follows.
pub fn split_words(alloc: Global, line: &[String]) -> Result<CommandLine, AllocError>
    ensures words { IfOk result (λ split. map string_bytes split.words.items ≡ words_in (map string_bytes line.now)) }
    ensures files { IfOk result (λ split. map string_bytes split.files.items ≡ files_in (map string_bytes line.now)) }
{
    let words = words_in(alloc, line)?;
    let files = files_in(alloc, line)?;
    Ok(CommandLine { words, files })
}

/// Returns the words of the command line, including the program's name. Fails with `Arguments` if
/// one of them is not UTF-8.
fn words_of<R: Env + AllocGlobal>(rt: &R) -> Result<Vec<String>, Usage> {
    match env::args(rt) {
        Ok(words) => Ok(words.collect::<Vec<String>>(rt.alloc())?),
        Err(error) if error.kind() == io::ErrorKind::OutOfMemory => Err(Usage::OutOfMemory),
        Err(_) => Err(Usage::Arguments),
    }
}

/// Returns the command line that the system passes. Fails with `Arguments` if a word is not UTF-8.
pub fn command_line_of<R: Env + AllocGlobal>(rt: &R) -> Result<CommandLine, Usage> {
    let words = words_of(rt)?;
    Ok(split_words(rt.alloc(), words.as_slice())?)
}
