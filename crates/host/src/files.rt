//! The files that have the input, and how their texts become one input.
ghost use Rattle.std.specs.Prelude.{◌≡◌, OnOk};
ghost use Rattle.host.specs.Files.{line_end, with_part};

use crate::reason::Reason;
use commands::{DeviceFault, Watched};
use std::alloc::{AllocError, AllocGlobal, Global};
use std::fs::File;
use std::io::{Input, Read};
use std::rt::Files;
use std::{fs, io};
use whole_io::read_input;

/// The name that stands for standard input.
const STANDARD_INPUT: &str = "-";

/// A file that was not read, and why.
#[derive(Clone, Copy, Debug, PartialEq, Eq)]
pub struct Unread<'a> {
    /// Its name.
    pub name: &'a str,
    /// Why it was not read.
    pub fault: DeviceFault,
    /// The system's reason, if it did not open or read the file.
    pub reason: Reason,
}

/// Why a text was not read, and the system's reason.
#[derive(Clone, Copy)]
struct Failure {
    fault: DeviceFault,
    reason: Reason,
}

impl Failure {
    /// Returns a failure that the system gives no reason for.
    fn of(fault: DeviceFault) -> Failure {
        Failure {
            fault,
            reason: Reason::Other,
        }
    }
}

/// Returns what ends the last line of a text: nothing if a newline does, or if there is no text.
fn line_end(text: &[u8]) -> &'static [u8]
    ensures { result.now ≡ line_end text.now }
{
    match text.last() {
        Some(b'\n') | None => b"",
        Some(_) => b"\n",
    }
}

/// Appends the text of a file to an input, as a new part: behind a line `%%`, unless it is the first
/// file, whose number is 0. A last line without a newline gets one before that line.
pub fn push_part(input: &mut Vec<u8>, number: usize, part: &[u8]) -> Result<(), AllocError>
    ensures { OnOk result (input.new.items ≡ with_part number input.old.items part.now) }
{
    if number > 0 {
        let end = line_end(input.as_slice());
        input.extend_from_slice(end)?;
        input.extend_from_slice(b"%%\n")?;
    }
    input.extend_from_slice(part)
}

/// Reads to the end.
fn read_all<R: Read + Drop>(alloc: Global, reader: R) -> Result<Vec<u8>, DeviceFault> {
    let mut reader = Watched::of(reader);
    read_input(alloc, &mut reader)
}

/// Returns why a file was not opened.
fn unopened(error: &io::Error) -> Failure {
    match error.kind() {
        io::ErrorKind::OutOfMemory => Failure::of(DeviceFault::OutOfMemory),
        kind => Failure {
            fault: DeviceFault::ReadFault,
            reason: Reason::of(kind),
        },
    }
}

/// Returns whether there is a folder with this name.
fn is_folder<R: Files>(rt: &R, name: &str) -> bool {
    match fs::metadata(rt, name) {
        Ok(metadata) => metadata.is_dir(),
        Err(_) => false,
    }
}

/// Returns why a file was opened, and not read to its end. A folder can be opened, and no read of it
/// succeeds.
fn unfinished<R: Files>(rt: &R, name: &str, fault: DeviceFault) -> Failure {
    if fault == DeviceFault::ReadFault && is_folder(rt, name) {
        return Failure {
            fault,
            reason: Reason::Folder,
        };
    }
    Failure::of(fault)
}

/// Reads a file. Fails with `ReadFault` if it can't be opened.
fn read_file<R: Files + Input + AllocGlobal>(rt: &R, name: &str) -> Result<Vec<u8>, Failure> {
    if name == STANDARD_INPUT {
        return match read_all(rt.alloc(), rt.reader()) {
            Ok(text) => Ok(text),
            Err(fault) => Err(Failure::of(fault)),
        };
    }
    let file = match File::open(rt, name) {
        Ok(file) => file,
        Err(error) => return Err(unopened(&error)),
    };
    match read_all(rt.alloc(), file) {
        Ok(text) => Ok(text),
        Err(fault) => Err(unfinished(rt, name, fault)),
    }
}

/// Reads a file, and appends its text to an input as a new part.
fn read_part<R: Files + Input + AllocGlobal>(
    rt: &R,
    input: &mut Vec<u8>,
    number: usize,
    name: &str,
) -> Result<(), Failure> {
    let part = match read_file(rt, name) {
        Ok(part) => part,
        Err(failure) => return Err(failure),
    };
    match push_part(input, number, part.as_slice()) {
        Ok(()) => Ok(()),
        Err(_) => Err(Failure::of(DeviceFault::OutOfMemory)),
    }
}

/// Reads these files in their order, each as a part of one input. The name `-` is standard input.
///
/// Fails with the first file that can't be opened or read, or that is longer than an input may be.
pub fn read_files<'a, R: Files + Input + AllocGlobal>(
    rt: &R,
    names: &'a [String],
) -> Result<Vec<u8>, Unread<'a>> {
    let mut input = Vec::new(rt.alloc());
    for (number, name) in names.iter().enumerate() {
        match read_part(rt, &mut input, number, name.as_str()) {
            Ok(()) => {}
            Err(failure) => {
                return Err(Unread {
                    name: name.as_str(),
                    fault: failure.fault,
                    reason: failure.reason,
                });
            }
        }
    }
    Ok(input)
}
