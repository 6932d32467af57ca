//! Which word of a refused command its fault is about.
ghost use Rattle.std.specs.Prelude.{◌≡◌, IfSome, slice_get, option_map, string_bytes};
ghost use Rattle.show_cli.specs.Words.{IsAbout};

use commands::{Fault, coterie_of, split_part};
use show_command_line::ShowCommand;
use std::alloc::Global;

/// A word of a refused command that its fault is about.
#[derive(Clone, Copy, Debug)]
pub enum WordAtFault<'a> {
    /// The name of a file, whose text is no coterie.
    File(&'a str),
    /// A name that no voter has.
    Name(&'a str),
}

/// Returns whether a text describes no coterie.
fn is_refused(alloc: Global, text: &[u8]) -> bool {
    match coterie_of(alloc, text) {
        Err(Fault::Input(_)) => true,
        _ => false,
    }
}

/// Returns the number, from 0, of the first of `count` parts of an input that is no coterie. One of them is
/// none. Returns `None` if the input has not so many parts: then a file has a line `%%` itself.
fn refused_part(alloc: Global, input: &[u8], count: usize) -> Option<usize> {
    let last = count.saturating_sub(1);
    let mut rest = input;
    let mut refused = last;
    for number in 0..last {
        let Ok((part, others)) = split_part(rest, 1) else {
            return None;
        };
        if refused == last && is_refused(alloc, part) {
            refused = number;
        }
        rest = others;
    }
    if split_part(rest, 1).is_ok() {
        return None;
    }
    Some(refused)
}

/// Returns the word with this number, if there is one.
fn word_at(words: &[String], number: usize) -> Option<&str>
    ensures { option_map (λ w. w.now) result ≡ option_map string_bytes (slice_get words.now number) }
{
    match words.get(number) {
        Some(word) => Some(word.as_str()),
        None => None,
    }
}

/// Returns the word of a refused command that its fault is about, if it is about one: the first file of
/// `compare` whose text is no coterie, or the name of `without` that no voter has. `known` is the input, if
/// it was read from files.
pub fn word_at_fault<'a>(
    alloc: Global,
    command: &'a ShowCommand,
    known: &[u8],
    fault: &Fault,
) -> Option<WordAtFault<'a>>
    ensures { IfSome result (IsAbout command.now fault.now) }
{
    match (command, fault) {
        (ShowCommand::Compare(files, _), Fault::Input(_)) => {
            let place = refused_part(alloc, known, files.len())?;
            let file = word_at(files.as_slice(), place)?;
            Some(WordAtFault::File(file))
        }
        (ShowCommand::Without(names), Fault::UnknownVoter(place)) => {
            let name = word_at(names.as_slice(), *place)?;
            Some(WordAtFault::Name(name))
        }
        _ => None,
    }
}
