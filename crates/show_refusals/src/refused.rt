//! A page about a refused input: the input's parts, and how places in it are named.
use crate::files::{FileLine, file_line, push_file};
use crate::kinds::{Kind, kind_in};
use commands::{Command, parts_of, split_part};
use std::alloc::{AllocError, Global};
use toml_places::newlines;

/// What a call returns that appends to a page.
pub(crate) type Pushed = Result<(), AllocError>;

/// A page about an input that a command of `qlock` refused.
#[derive(Drop)]
pub(crate) struct Page<'a> {
    /// The command.
    pub command: &'a Command,
    /// The whole input.
    pub input: &'a [u8],
    /// The names of the files whose texts are the input, in their order, if files were named.
    pub files: &'a [String],
    /// Where memory comes from.
    pub alloc: Global,
    /// What is written so far.
    pub text: String,
}

/// Returns the input from a part on, or nothing if there is no such part. Parts are numbered from 1.
pub(crate) fn rest_from(input: &[u8], number: usize) -> &[u8] {
    let mut rest = input;
    for part in 2..=number {
        rest = match split_part(rest, part) {
            Ok((_, after)) => after,
            Err(_) => &[],
        };
    }
    rest
}

impl<'a> Page<'a> {
    /// Returns a part of the input, or what there is of it. Parts are numbered from 1.
    pub fn part(&self, number: usize) -> &'a [u8] {
        let rest = rest_from(self.input, number);
        match split_part(rest, number) {
            Ok((part, _)) if number < parts_of(self.command) => part,
            _ => rest,
        }
    }

    /// Returns what kind of text a part has to be.
    pub fn kind(&self, number: usize) -> Kind {
        kind_in(self.command, number)
    }

    /// Returns the file that has a line of a part, and the line's number in it.
    pub fn place(&self, number: usize, line: usize) -> FileLine<'a> {
        let after = newlines(rest_from(self.input, number));
        let before = newlines(self.input).saturating_sub(after);
        file_line(self.input, self.files, before.saturating_add(line))
    }
}

/// Appends the number of a line and its file, at the beginning of a line of the page.
pub(crate) fn push_at(page: &mut Page, place: FileLine) -> Pushed {
    write!(page.text, "  at line {} of ", place.line)?;
    match place.file {
        Some(name) => push_file(&mut page.text, name),
        None => page.text.push_str("the input"),
    }
}

/// Appends where a line of the coterie's text is, if it was found, at the beginning of a line of the
/// page.
pub(crate) fn push_found(page: &mut Page, line: Option<usize>) -> Pushed {
    match line {
        Some(line) => {
            let place = page.place(1, line);
            push_at(page, place)?;
            page.text.push_str(": ")
        }
        None => page.text.push_str("  "),
    }
}

/// Appends where a part is.
pub(crate) fn push_part(page: &mut Page, number: usize) -> Pushed {
    let noun = page.kind(number).noun();
    let place = page.place(number, 1);
    page.text.push_str("  in ")?;
    match place.file {
        Some(file) => push_file(&mut page.text, file)?,
        None => write!(page.text, "part {number}")?,
    }
    write!(page.text, ", the {noun}")?;
    if place.file.is_none() || place.line > 1 {
        write!(page.text, ", which begins at line {}", place.line)?;
    }
    page.text.push('\n')
}

/// Appends where a line of a part is: in its file or in the whole input, and in the part.
pub(crate) fn push_line_place(page: &mut Page, number: usize, line: usize) -> Pushed {
    let noun = page.kind(number).noun();
    let place = page.place(number, line);
    push_at(page, place)?;
    if place.file.is_some() && place.line == line {
        write!(page.text, ", the {noun}: ")
    } else {
        write!(page.text, ", line {line} of the {noun}: ")
    }
}
