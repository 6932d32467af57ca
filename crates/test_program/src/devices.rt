//! Devices that fail at each read and at each write, and that move few bytes at a time.
ghost use Rattle.std.specs.Prelude.{◌≤◌, IfOk};
ghost use Rattle.commands.specs.Commands.{IsInRange};

use crate::tables::ROWS;
use qlock_cli::{Command, DeviceFault, Fault, NoGate, Watched};
use std::alloc::{AllocError, Global};
use std::io;
use std::io::{Read, Write};
use std::sync::Wait;
use std::test::Fail;
use std::thread::Threads;
use std::time::Clock;
use test_served::{Row, command_of, joined, serve};

/// More reads or writes than any of these commands makes.
const MANY: usize = 100_000;

/// How a device moves bytes: how many at a time at most, and how many calls it serves before it
/// fails.
#[derive(Clone, Copy)]
struct Device {
    piece: usize,
    calls_left: usize,
}

impl Device {
    /// Returns how many bytes of a buffer of this length the next call moves. Fails if no call is left.
    fn moves(&mut self, length: usize) -> io::Result<usize>
        ensures { IfOk result (λ count. count ≤ length) }
    {
        if self.calls_left == 0 {
            return Err(io::Error::other("no more calls"));
        }
        self.calls_left -= 1;
        Ok(length.min(self.piece))
    }
}

/// Which of the two devices fails.
#[derive(Clone, Copy)]
enum Side {
    Reading,
    Writing,
}

/// A reader of the bytes of an input.
#[derive(Drop)]
struct Source<'a> {
    bytes: &'a [u8],
    device: Device,
}

impl<'a> Read for Source<'a> {
    fn read(&mut self, buf: &mut [u8]) -> io::Result<usize> {
        let count = self.device.moves(buf.len())?;
        self.bytes.read(&mut buf[..count])
    }
}

/// A writer that keeps the bytes of an output.
#[derive(Drop)]
struct Sink {
    bytes: Vec<u8>,
    device: Device,
}

impl Write for Sink {
    fn write(&mut self, buf: &[u8]) -> io::Result<usize> {
        let count = self.device.moves(buf.len())?;
        self.bytes.extend_from_slice(&buf[..count])?;
        Ok(count)
    }

    fn flush(&mut self) -> io::Result<()> {
        Ok(())
    }
}

/// Returns how many calls move this number of bytes, each at most a piece.
fn calls_for(bytes: usize, piece: usize) -> usize {
    match piece {
        0 => 0,
        _ => bytes.div_ceil(piece),
    }
}

/// What is tried over devices: a command and its input, and what it has to write.
#[derive(Drop)]
struct Trial<'a, T> {
    rt: &'a T,
    alloc: Global,
    command: &'a Command,
    input: &'a [u8],
    wanted: &'a [u8],
}

impl<'a, T: Threads + Wait + Clock + Sync> Trial<'a, T> {
    /// Runs the command over devices. Returns its result, and what was written.
    fn served(&self, reads: Device, writes: Device) -> (Result<(), Fault>, Vec<u8>)
        requires { IsInRange self.now.command.now }
    {
        let mut reader = Watched::of(Source {
            bytes: self.input,
            device: reads,
        });
        let mut sink = Sink {
            bytes: Vec::new(self.alloc),
            device: writes,
        };
        let mut writer = Watched::of(&mut sink);
        let result = serve(
            self.rt,
            self.alloc,
            self.command,
            &mut reader,
            &mut writer,
            &NoGate,
        );
        (result, sink.bytes)
    }

    /// Runs the command while a device fails after this many calls. Returns whether the command meets no
    /// failure, or `None` if it ends in another way than it has to. After a failed read nothing is
    /// written, and after a failed write what the calls before it moved.
    fn meets_none(&self, side: Side, piece: usize, calls: usize) -> Option<bool>
        requires { IsInRange self.now.command.now }
    {
        let sound = Device {
            piece,
            calls_left: MANY,
        };
        let failing = Device {
            piece,
            calls_left: calls,
        };
        let (reads, writes, fault, moved) = match side {
            Side::Reading => (failing, sound, DeviceFault::ReadFault, 0),
            Side::Writing => (
                sound,
                failing,
                DeviceFault::WriteFault,
                piece.saturating_mul(calls),
            ),
        };
        let (result, written) = self.served(reads, writes);
        let begins = self.wanted.starts_with(&written);
        match result {
            Ok(()) => (begins & (written.len() == self.wanted.len())).then_some(true),
            Err(Fault::Device(found)) => {
                (begins & (written.len() == moved) & (found == fault)).then_some(false)
            }
            Err(_) => None,
        }
    }

    /// Has each call of a device fail in turn, until the command meets no failure. Returns how many
    /// calls failed, or `None` if one of the results was wrong.
    fn calls_that_fail(&self, side: Side, piece: usize) -> Option<usize>
        requires { IsInRange self.now.command.now }
    {
        for calls in 0..MANY {
            if self.meets_none(side, piece, calls)? {
                return Some(calls);
            }
        }
        None
    }

    /// Returns whether the command has the right result over devices that move pieces of this size,
    /// whichever call fails. A command that reads its input reads once more, at its end.
    fn holds_out(&self, piece: usize) -> bool
        requires { IsInRange self.now.command.now }
    {
        let reads = match self.command {
            Command::Make(_) => 0,
            _ => calls_for(self.input.len(), piece).saturating_add(1),
        };
        let writes = calls_for(self.wanted.len(), piece);
        (self.calls_that_fail(Side::Reading, piece) == Some(reads))
            & (self.calls_that_fail(Side::Writing, piece) == Some(writes))
    }
}

/// Returns whether a row's command line has the right result over devices that move single bytes, and
/// over those that move larger pieces.
fn holds_out<T: Threads + Wait + Clock + Sync>(
    rt: &T,
    alloc: Global,
    row: &Row,
) -> Result<bool, AllocError> {
    let (line, parts, wanted) = *row;
    let Some(command) = command_of(alloc, line)? else {
        return Ok(false);
    };
    let input = joined(alloc, parts)?;
    let trial = Trial {
        rt,
        alloc,
        command: &command,
        input: input.as_bytes(),
        wanted: wanted.as_bytes(),
    };
    Ok(trial.holds_out(1) & trial.holds_out(23))
}

#[test]
fn commands_hold_out(rt: HostRuntime) -> Result<(), Fail> {
    for row in &ROWS {
        assert!(rt; holds_out(&rt, rt.alloc(), row)?);
    }
    Ok(())
}
